// The sets of a root: their kinds, items and paths, how full they are, and their maps.
ghost use Rattle.std.specs.Prelude.{◌≤◌};

use crate::{Item, ListedSet};
use area::{freed, live, mark};
use root::{
    Kind, Plan, item_count, key_item, kind, path_count, path_master, path_search, path_sort,
};
use spec::Shape;
use std::io::Write;
use std::{fmt, io};

// How many records of a set are live, and how many it has.
#[derive(Clone, Copy)]
struct Fill {
    live: usize,
    capacity: u16,
    ghost within: { live ≤ capacity },
}

impl Fill {
    // "A live count is the number of ones in the map."
    fn of(area: &[u16], s: Shape) -> Fill {
        let records = 1..=(s.cap as u32);
        Fill {
            live: records.filter(|r| live(area, s, *r)).count(),
            capacity: s.cap,
        }
    }
}

impl fmt::Display for Fill {
    fn fmt<W: fmt::Write>(&self, f: &mut fmt::Formatter<W>) -> fmt::Result {
        let Fill { live, capacity } = *self;
        write!(f, "{live} of {capacity} live")?;
        if 0 < capacity {
            let percent = live * 100 / (capacity as usize);
            write!(f, ", {percent} % full")?;
        }
        Ok(())
    }
}

// Where a set stands in the area, if the root is good and has it.
fn shape(root: &[u16], s: u16) -> Option<Shape> {
    let mut plan = Plan::ROOM;
    let root = layout::ruled(root, &mut plan)?;
    let set = root.set(s)?;
    Some(set.shape())
}

impl<'a> ListedSet<'a> {
    // Its items, each with its type and length. No Display, here and below: a set is shown in parts, and with its area.
    fn say_items<W: Write>(&self, writer: &mut W) -> io::Result<()> {
        for j in 1..=item_count(self.root, self.number) {
            let Item { number, kind, size } = self.item(j);
            write!(writer, " {number}:{kind}{size}")?;
        }
        Ok(())
    }

    fn say_path<W: Write>(&self, writer: &mut W, p: u16) -> io::Result<()> {
        let search = path_search(self.root, self.number, p);
        let master = path_master(self.root, self.number, p);
        write!(
            writer,
            "    path {p}: search item {search}, master set {master}"
        )?;
        match path_sort(self.root, self.number, p) {
            0 => writeln!(writer, ", in the order put"),
            sort => writeln!(writer, ", sorted by item {sort}"),
        }
    }

    fn say<W: Write>(&self, writer: &mut W, area: &[u16]) -> io::Result<()> {
        let number = self.number;
        let kind = Kind::try_from(kind(self.root, number)).unwrap_or(Kind::Detail);
        write!(writer, "set {number}: {kind}, ")?;
        match shape(self.root, number) {
            Some(at) => write!(writer, "{}", Fill::of(area, at))?,
            None => write!(writer, "nowhere")?,
        }
        write!(writer, ", items")?;
        self.say_items(writer)?;
        let key = key_item(self.root, number);
        if 0 < key {
            write!(writer, ", key {key}")?;
        }
        writeln!(writer)?;
        for p in 1..=path_count(self.root, number) {
            self.say_path(writer, p)?;
        }
        Ok(())
    }
}

pub fn sets<W: Write>(writer: &mut W, root: &[u16], area: &[u16]) -> io::Result<()> {
    for number in 1..=root::sets(root) {
        ListedSet { root, number }.say(writer, area)?;
    }
    Ok(())
}

// The map, fifty records to a line, each line after the number of its first.
fn say_map<W: Write>(writer: &mut W, area: &[u16], s: Shape) -> io::Result<()> {
    for r in 1..=(s.cap as u32) {
        if r % 50 == 1 {
            if 1 < r {
                writeln!(writer)?;
            }
            write!(writer, "{r} ")?;
        }
        let mark = if live(area, s, r) { '#' } else { '.' };
        write!(writer, "{mark}")?;
    }
    writeln!(writer)
}

// The map of a set, and for a detail its two leading words.
pub fn map<W: Write>(writer: &mut W, root: &[u16], area: &[u16], s: u16) -> io::Result<()> {
    let Some(at) = shape(root, s) else {
        return writeln!(writer, "no such set");
    };
    let fill = Fill::of(area, at);
    let (high, first) = (mark(area, at), freed(area, at));
    writeln!(
        writer,
        "{fill}; high-water mark {high}, first freed {first}"
    )?;
    say_map(writer, area, at)
}
