// The calls of the engine, as commands: each is read whole, then called, and what it answered is told.
use crate::asked::{Chain, Get, ask_chain, ask_entry, ask_get, ask_set};
use crate::desk::{Desk, Status};
use crate::failed::Failed;
use crate::rest::Rest;
use screen::{ListedSet, Refused};
use session::{Answer, Session};
use std::io::Write;
use std::{fmt, io};
use words::part;

// A number of lines, in words.
#[derive(Clone, Copy)]
struct Lines(u32);

impl fmt::Display for Lines {
    fn fmt<W: fmt::Write>(&self, f: &mut fmt::Formatter<W>) -> fmt::Result {
        match self.0 {
            1 => write!(f, "1 line"),
            n => write!(f, "{n} lines"),
        }
    }
}

// A mode is a number, as the engine's get takes it: 5 forward along a chain, 6 back.
pub const FORWARD: u16 = 5;

pub const BACKWARD: u16 = 6;

// An entry that was read, after its record. No Display: an entry's texts are written as bytes.
fn say_read<W: Write>(
    writer: &mut W,
    root: &[u16],
    set: u16,
    status: Status,
    entry: &[u16],
) -> io::Result<()> {
    write!(writer, "{}: ", status.record())?;
    if 0 < set {
        let listed = ListedSet { root, number: set };
        listed.say_entry(writer, part(entry, 0, status.size() as usize))?;
    }
    Ok(())
}

impl Desk {
    // What a call answered becomes the desk's.
    fn answered(&mut self, answer: Answer) -> Result<Status, Refused> {
        self.session = answer.session;
        self.status = Status(answer.status);
        self.status.accepted()
    }

    pub fn find<'a, W: Write>(&mut self, writer: &mut W, rest: Rest<'a>) -> Result<(), Failed<'a>> {
        let value = &mut self.rooms.entry;
        let Chain { set, item } = ask_chain(&self.root, rest, value)?;
        let answer = engine::find(&self.root, &self.area, self.session, set, item, value);
        let status = self.answered(answer)?;
        let lines = Lines(status.number());
        let (first, last) = (status.fore(), status.back());
        writeln!(writer, "{lines} on the chain, first {first}, last {last}")?;
        Ok(())
    }

    pub fn get<'a, W: Write>(&mut self, writer: &mut W, rest: Rest<'a>) -> Result<(), Failed<'a>> {
        let key = &mut self.rooms.entry;
        let Get { set, mode, record } = ask_get(&self.root, rest, key)?;
        // The engine writes into room that it is lent; 512 words are the longest entry.
        let mut entry = [0u16; 512];
        let answer = engine::get(
            &self.root,
            &self.area,
            self.session,
            set,
            mode,
            record,
            key,
            &mut entry,
        );
        let status = self.answered(answer)?;
        write!(writer, "record ")?;
        say_read(writer, &self.root, set, status, &entry)?;
        writeln!(writer)?;
        Ok(())
    }

    // The next line of a chain, read and drawn: the cursors past it, none where the chain ends or can't be read.
    fn draw_line<W: Write>(
        &self,
        writer: &mut W,
        s: Session,
        set: u16,
        mode: u16,
    ) -> io::Result<Option<Session>> {
        // Lent as in `get`.
        let mut entry = [0u16; 512];
        let answer = engine::get(&self.root, &self.area, s, set, mode, 0, &[], &mut entry);
        match Status(answer.status).accepted() {
            Ok(status) => {
                write!(writer, " -> ")?;
                say_read(writer, &self.root, set, status, &entry)?;
                Ok(Some(answer.session))
            }
            // The chain's two ends, as numbers: a status word is one.
            Err(Refused(14 | 15)) => Ok(None),
            Err(refused) => {
                writeln!(writer, " {refused}")?;
                Ok(None)
            }
        }
    }

    // A chain drawn as a line of records, forward or backward. The person's own cursors stay.
    pub fn chain<'a, W: Write>(
        &mut self,
        writer: &mut W,
        rest: Rest<'a>,
        mode: u16,
    ) -> Result<(), Failed<'a>> {
        let value = &mut self.rooms.entry;
        let Chain { set, item } = ask_chain(&self.root, rest, value)?;
        let found = engine::find(&self.root, &self.area, self.session, set, item, value);
        let status = Status(found.status).accepted()?;
        write!(writer, "{}", Lines(status.number()))?;
        let mut cursors = found.session;
        // Counted, since a loop that could go on for ever is refused; a chain's end ends it.
        for _ in 0..4096 {
            match self.draw_line(writer, cursors, set, mode)? {
                Some(next) => cursors = next,
                None => break,
            }
        }
        writeln!(writer)?;
        Ok(())
    }

    // The lines passed on each sorted path of set s. No Display: it is told of the root and an answer together.
    fn say_passed<W: Write>(&self, writer: &mut W, s: u16, passed: [u16; 4]) -> io::Result<()> {
        if s == 0 {
            return Ok(());
        }
        for p in 1..=root::path_count(&self.root[..], s) {
            if root::path_sort(&self.root[..], s, p) != 0 {
                let lines = words::word(&passed, p as usize - 1);
                write!(writer, ", passed {lines} on path {p}")?;
            }
        }
        Ok(())
    }

    pub fn put<'a, W: Write>(&mut self, writer: &mut W, rest: Rest<'a>) -> Result<(), Failed<'a>> {
        let entry = &mut self.rooms.entry;
        let set = ask_entry(&self.root, rest, entry)?;
        let answer = engine::put(&self.root, &mut self.area, self.session, set, entry);
        let passed = answer.passed;
        let status = self.answered(answer)?;
        write!(writer, "put as record {}", status.record())?;
        self.say_passed(writer, set, passed)?;
        writeln!(writer)?;
        Ok(())
    }

    pub fn update<'a, W: Write>(
        &mut self,
        writer: &mut W,
        rest: Rest<'a>,
    ) -> Result<(), Failed<'a>> {
        let entry = &mut self.rooms.entry;
        let set = ask_entry(&self.root, rest, entry)?;
        let answer = engine::update(&self.root, &mut self.area, self.session, set, entry);
        self.answered(answer)?;
        writeln!(writer, "updated")?;
        Ok(())
    }

    pub fn delete<'a, W: Write>(
        &mut self,
        writer: &mut W,
        rest: Rest<'a>,
    ) -> Result<(), Failed<'a>> {
        let set = ask_set(rest)?;
        let answer = engine::delete(&self.root, &mut self.area, self.session, set);
        self.answered(answer)?;
        writeln!(writer, "deleted")?;
        Ok(())
    }

    // An empty base, and fresh cursors.
    pub fn make<'a, W: Write>(&mut self, writer: &mut W) -> Result<(), Failed<'a>> {
        self.status = Status(engine::make(&self.root, &mut self.area));
        self.status.accepted()?;
        self.session = Session::default();
        writeln!(writer, "an empty base")?;
        Ok(())
    }
}
