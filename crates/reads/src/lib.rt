// The reading calls, find and get, up to their outcome: each reading step of document 01's table "Get modes", and the links
// and the number that a get tells.
#![tactic(auto)]

ghost use Rattle.std.specs.Prelude.{◌≡◌, true, [], ◌-◌, ◌≤◌, IfOk, IfErr};
ghost use Rattle.spec.specs.Cursor.{nonzero, live_above, live_down, given_record, saved_record, keyed_record, numbered_record, chained_record, record_for, value_good, path_chosen, links_readable, saved_links, seen, readable};
ghost use Rattle.spec.specs.Outcome.{accept, refuse};
ghost use Rattle.spec.specs.Layout.{detail_of, path_of};
ghost use Rattle.spec.specs.Calls.{find_chain, find_on, find_steps, get_on, get_steps};
ghost use Rattle.session.specs.Answers.{done_out};
ghost use Rattle.named.specs.Named.{view_out};
ghost use Rattle.reads.specs.Answers.{number_of, along_of, read_by, mode_out, mode_read, got_out, EmptyAbove, EmptyDown};

mod got;

use area::{follow, live, read_head, read_links, synonyms, word_alike};
use find::find_key;
pub use got::Got;
use layout::{DetailSet, MasterSet, SetPath, known};
use named::{Named, current_record, name_cursor, name_set};
use root::Plan;
use session::{Good, Session};
use sound::SoundMaster;
use spec::{Cursor, LINE_WORDS, Links, Refusal, Shape};

// What a get mode reads: a record by its number, the line ahead or behind on the current path, an entry by its key.
#[derive(Clone, Copy)]
enum ByNumber {
    Current,
    Above,
    Below,
    Given,
}

#[derive(Clone, Copy)]
enum Along {
    Forward,
    Backward,
}

#[derive(Clone, Copy)]
enum Reading<'a> {
    Numbered(ByNumber),
    Chained(Along),
    Keyed(&'a MasterSet<'a>),
}

// What a get asks for: its mode, the record of mode 4, the key of mode 7, and how many words the buffer has.
#[derive(Clone, Copy)]
struct Asked<'a> {
    mode: u16,
    number: u32,
    value: &'a [u16],
    room: usize,
}

// The links of a record that are saved, and the number in status words 5 and 6.
#[derive(Clone, Copy)]
struct Told {
    links: Links,
    number: u32,
}

// ---- find

// "Find sets the path, record 0, back = last, forward = first; an empty chain of a present master succeeds with count 0"
#[tactic(auto, unfolding(spec::specs::Calls::find_chain, spec::specs::Detail::head_at))]
fn find_chain(path: &SetPath, area: &[u16], key: &[u16]) -> Result<Good, Refusal>
    ensures { done_out result area.now [] ≡ find_chain path.now.set.now.shape (path_of path.now.set.now.root.now.words.now path.now.set.now.number path.now.number) path.now.number area.now key.now }
{
    let p = path.path();
    let k = nonzero(find_key(area, p.to(), key)?, Refusal::NoRecord)?;
    let h = read_head(area, path.set.shape.cap, p.plain.to.shape, k, p.plain.head)?;
    Ok(Good {
        size: 0,
        at: 0,
        number: h.count as u32,
        links: Links {
            back: h.back,
            fore: h.fore,
        },
        cursor: Cursor::new().at_chain(path.number as u32, h),
        passed: [0; 4],
    })
}

// −52, −95, then the chain.
#[tactic(auto, unfolding(spec::specs::Calls::find_on, spec::specs::Cursor::nonzero, spec::specs::Layout::detail_of))]
fn find_on(d: &DetailSet, area: &[u16], item: u16, value: &[u16]) -> Result<Good, Refusal>
    ensures { done_out result area.now [] ≡ find_on d.now.root.now.words.now d.now.number (detail_of d.now.root.now.words.now d.now.number) area.now item value.now }
{
    let Some(path) = (&*d).search_path(item) else {
        return Err(Refusal::NotSearched);
    };
    if value.len() != root::item_length(d.root.words, item) as usize {
        return Err(Refusal::WrongLength);
    }
    find_chain(&path, area, value)
}

// Find: −91, −92, −21, −93, then the chain. (Here and in get: what is taken is what the call takes, and a set's number is
// promised.)
#[tactic(auto, unfolding(spec::specs::Calls::find_steps, spec::specs::Calls::named_set, spec::specs::Calls::the_detail, named::specs::Named::set_named), using(layout::specs::Known::known_by_length))]
pub fn find_steps(
    words: &[u16],
    area: &[u16],
    session: &Session,
    set: u16,
    item: u16,
    value: &[u16],
) -> Result<Good, Refusal>
    ensures is { done_out result area.now [] ≡ find_steps words.now area.now session.now.cursors set item value.now }
    ensures set { IfOk result (λ _. (1 ≤ set) × (set ≤ 16)) }
{
    let mut plan = Plan::ROOM;
    let root = known(words, area.len(), &mut plan)?;
    let named = name_set(&root, set)?;
    let Named::Detail(d) = &named else {
        return Err(Refusal::NoSet);
    };
    named.cursor(session)?;
    find_on(d, area, item, value)
}

// ---- get

// −31: "get mode not 1..7; 5, 6 on a master; 7 on a detail". One match over the mode's number and the set's kind, and no enum of modes
// before it: document 01 names this form, and its table is by number, as the definitions' is. The enum is what comes out.
#[tactic(auto, unfolding(crate::specs::Answers::mode_read, spec::specs::Cursor::reading, spec::specs::Cursor::readings, spec::specs::Cursor::mode_good))]
fn reading_of<'a>(named: &'a Named<'a>, mode: u16) -> Result<Reading<'a>, Refusal>
    ensures { mode_out result ≡ mode_read (view_out named.now) mode }
{
    match (mode, named) {
        (1, _) => Ok(Reading::Numbered(ByNumber::Current)),
        (2, _) => Ok(Reading::Numbered(ByNumber::Above)),
        (3, _) => Ok(Reading::Numbered(ByNumber::Below)),
        (4, _) => Ok(Reading::Numbered(ByNumber::Given)),
        (5, Named::Detail(_)) => Ok(Reading::Chained(Along::Forward)),
        (6, Named::Detail(_)) => Ok(Reading::Chained(Along::Backward)),
        (7, Named::Master(m)) => Ok(Reading::Keyed(m)),
        _ => Err(Refusal::NoMode),
    }
}

// The record, where there is one.
#[tactic(auto, unfolding(spec::specs::Cursor::nonzero))]
fn nonzero(r: u32, why: Refusal) -> Result<u32, Refusal>
    ensures is { result ≡ nonzero r why }
    ensures found { IfOk result (λ k. (k ≡ r) × (1 ≤ k)) }
{
    if r == 0 { Err(why) } else { Ok(r) }
}

// Whether the 16 records above r are a word of the map, within the capacity and all unused.
fn empty_above(area: &[u16], s: Shape, r: u32) -> bool
    ensures { result ≡ true → EmptyAbove s area.now r }
{
    if (s.cap as u64) < (r as u64) + 16 {
        return false;
    }
    word_alike(area, s, r + 1, false)
}

// "lowest live above current"; 0 where there is none (the definition has it so). An empty word of the map is passed at once. (A
// while loop: its steps are of 1 and of 16 records.)
#[tactic(auto, using(crate::proofs::Laws::above_word, crate::proofs::Laws::above_next, crate::proofs::Laws::above_end))]
fn live_above(area: &[u16], s: Shape, from: u32) -> u32
    ensures { result ≡ live_above s area.now (s.cap - from) from }
{
    let mut r = from;
    while r < (s.cap as u32) {
        if empty_above(area, s, r) {
            r += 16;
        } else {
            r += 1;
            if live(area, s, r) {
                return r;
            }
        }
    }
    0
}

// Whether the 16 records down from r are a word of the map and all unused: the mirror image. (Two, as the searches up and down are:
// one over the way would count places up for the one and down for the other, and be no shorter.)
fn empty_down(area: &[u16], s: Shape, r: u32) -> bool
    ensures { result ≡ true → EmptyDown s area.now r }
{
    if r < 16 {
        return false;
    }
    word_alike(area, s, r - 15, false)
}

// "highest live below current"; 0 where there is none, as above. An empty word of the map is passed at once. (A while loop, as above,
// and its mirror image: the definitions are two.)
#[tactic(auto, unfolding(spec::specs::Cursor::live_down), using(crate::proofs::Laws::down_word, crate::proofs::Laws::down_next))]
fn live_down(area: &[u16], s: Shape, from: u32) -> u32
    ensures { result ≡ live_down s area.now from }
{
    let mut r = from;
    while r != 0 {
        if empty_down(area, s, r) {
            r -= 16;
        } else {
            if live(area, s, r) {
                return r;
            }
            r -= 1;
        }
    }
    0
}

// "the given record; 12 for 0, 13 above C, 17 unused"
#[tactic(auto, unfolding(spec::specs::Cursor::given_record))]
fn given_record(area: &[u16], s: Shape, r: u32) -> Result<u32, Refusal>
    ensures is { result ≡ given_record s area.now r }
    ensures found { IfOk result (λ k. 1 ≤ k) }
{
    if r == 0 {
        return Err(Refusal::RecordZero);
    }
    if (s.cap as u32) < r {
        return Err(Refusal::PastCapacity);
    }
    if !live(area, s, r) {
        return Err(Refusal::NoRecord);
    }
    Ok(r)
}

// "saved forward; 15 if 0", "saved back; 14 if 0"
#[tactic(auto, unfolding(spec::specs::Cursor::saved_record, spec::specs::Area::read))]
fn saved_record(area: &[u16], s: Shape, r: u32, none: Refusal) -> Result<u32, Refusal>
    ensures is { result ≡ saved_record s area.now r none }
    ensures found { IfOk result (λ k. 1 ≤ k) }
{
    nonzero(r, none)?;
    if (s.cap as u32) < r {
        return Err(Refusal::Broken);
    }
    follow(area, s, r)?;
    Ok(r)
}

// "the given key; 17 if absent"
#[tactic(auto, unfolding(spec::specs::Cursor::keyed_record))]
fn keyed_record(area: &[u16], m: SoundMaster, key: &[u16]) -> Result<u32, Refusal>
    ensures is { result ≡ keyed_record m area.now key.now }
    ensures found { IfOk result (λ k. 1 ≤ k) }
{
    nonzero(find_key(area, m, key)?, Refusal::NoRecord)
}

impl ByNumber {
    // Modes 1 to 4.
    #[tactic(auto, unfolding(spec::specs::Cursor::numbered_record))]
    fn record(self, area: &[u16], s: Shape, c: Cursor, number: u32) -> Result<u32, Refusal>
        ensures is { result ≡ numbered_record (number_of self) s area.now c number }
        ensures found { IfOk result (λ k. 1 ≤ k) }
    {
        match self {
            ByNumber::Current => current_record(area, s, c),
            ByNumber::Above => nonzero(live_above(area, s, c.current), Refusal::NoneAbove),
            ByNumber::Below => nonzero(
                live_down(area, s, c.current.saturating_sub(1)),
                Refusal::NoneBelow,
            ),
            ByNumber::Given => given_record(area, s, number),
        }
    }
}

impl Along {
    // Modes 5 and 6.
    #[tactic(auto, unfolding(spec::specs::Cursor::chained_record))]
    fn record(self, area: &[u16], s: Shape, c: Cursor) -> Result<u32, Refusal>
        ensures is { result ≡ chained_record (along_of self) s area.now c }
        ensures found { IfOk result (λ k. 1 ≤ k) }
    {
        match self {
            Along::Forward => saved_record(area, s, c.fore, Refusal::ChainEnd),
            Along::Backward => saved_record(area, s, c.back, Refusal::ChainStart),
        }
    }
}

impl<'a> Reading<'a> {
    // −95: "mode 7: value length wrong"
    #[tactic(auto, unfolding(spec::specs::Cursor::value_good))]
    fn value_good(self, value: &[u16]) -> bool
        ensures { result ≡ value_good (read_by self.entry) value.now }
    {
        match self {
            Reading::Keyed(m) => value.len() == m.master.key.size as usize,
            _ => true,
        }
    }

    // −94: "mode 5, 6 with current path 0"
    #[tactic(auto, unfolding(spec::specs::Cursor::path_chosen))]
    fn path_chosen(self, c: Cursor) -> bool
        ensures { result ≡ path_chosen (read_by self.entry) c }
    {
        match self {
            Reading::Chained(_) => c.path != 0,
            _ => true,
        }
    }

    // The table's columns "Reads" and "Otherwise".
    #[tactic(auto, unfolding(spec::specs::Cursor::record_for))]
    fn record_for(self, area: &[u16], s: Shape, c: Cursor, asked: Asked) -> Result<u32, Refusal>
        ensures is { result ≡ record_for (read_by self.entry) s area.now c asked.entry.number asked.entry.value.now }
        ensures found { IfOk result (λ k. 1 ≤ k) }
    {
        match self {
            Reading::Numbered(which) => which.record(area, s, c, asked.number),
            Reading::Chained(way) => way.record(area, s, c),
            Reading::Keyed(m) => keyed_record(area, m.sound(), asked.value),
        }
    }
}

// The links on a path, read whole; none on path 0. (The path is that of a cursor that fits: see `named`.)
#[tactic(auto, unfolding(spec::specs::Cursor::links_readable, spec::specs::Cursor::saved_links, spec::specs::Area::peek_links), using(area::specs::AreaLaws::links_fit))]
fn links_on(area: &[u16], d: Shape, path: u32, r: u32) -> Result<Links, Refusal>
    requires { path ≤ 4 }
    ensures whole { IfOk result (λ links. (links_readable d area.now path r ≡ accept tt) × (links ≡ saved_links d area.now path r)) }
    ensures torn { IfErr result (λ why. links_readable d area.now path r ≡ refuse why) }
{
    if path == 0 {
        return Ok(Links::default());
    }
    read_links(area, d, r, LINE_WORDS * (path as u16 - 1))
}

// What a get tells of record r beside the entry, read whole.
#[tactic(auto, unfolding(spec::specs::Cursor::readable, spec::specs::Cursor::seen, spec::specs::Layout::detail_of, spec::specs::Area::synonym_count), using(area::specs::AreaLaws::synonyms_fit))]
fn seen(named: &Named, area: &[u16], path: u32, r: u32) -> Result<Told, Refusal>
    requires { path ≤ 4 }
    ensures whole { IfOk result (λ told. (readable (view_out named.now) area.now path r ≡ accept tt) × (told.links ≡ (seen (view_out named.now) area.now path r).links) × (told.number ≡ (seen (view_out named.now) area.now path r).number)) }
    ensures torn { IfErr result (λ why. readable (view_out named.now) area.now path r ≡ refuse why) }
{
    match named {
        Named::Master(m) => Ok(Told {
            links: Links::default(),
            number: synonyms(area, m.master.shape, r)?.count as u32,
        }),
        Named::Detail(d) => Ok(Told {
            links: links_on(area, d.shape, path, r)?,
            number: 0,
        }),
    }
}

// Of a named set with its cursor: −31, −95, −94, 50, then the record.
#[tactic(auto, unfolding(spec::specs::Calls::get_on, crate::specs::Answers::mode_read))]
fn get_on(named: &Named, area: &[u16], c: Cursor, asked: Asked) -> Result<Got, Refusal>
    requires { c.path ≤ 4 }
    ensures { got_out result area.now ≡ get_on (view_out named.now) area.now c asked.entry.mode asked.entry.number asked.entry.value.now asked.entry.room }
{
    let shape = named.shape();
    let how = reading_of(named, asked.mode)?;
    if !how.value_good(asked.value) {
        return Err(Refusal::WrongLength);
    }
    if !how.path_chosen(c) {
        return Err(Refusal::NoPath);
    }
    if asked.room < shape.entry as usize {
        return Err(Refusal::ShortBuffer);
    }
    let at = how.record_for(area, shape, c, asked)?;
    let Told { links, number } = seen(named, area, c.path, at)?;
    Ok(Got {
        good: Good {
            size: shape.entry,
            at,
            number,
            links,
            cursor: c.at_record(at, links),
            passed: [0; 4],
        },
        shape,
    })
}

// Get: −91, −92, −21, −93, then the record. (The mode is a number: the call has it so.)
#[tactic(auto, unfolding(spec::specs::Calls::get_steps, spec::specs::Calls::named_set, named::specs::Named::set_named, named::specs::Named::cursor_named), using(layout::specs::Known::known_by_length))]
pub fn get_steps(
    words: &[u16],
    area: &[u16],
    session: &Session,
    set: u16,
    mode: u16,
    number: u32,
    value: &[u16],
    room: usize,
) -> Result<Got, Refusal>
    ensures is { got_out result area.now ≡ get_steps words.now area.now session.now.cursors set mode number value.now room }
    ensures set { IfOk result (λ _. (1 ≤ set) × (set ≤ 16)) }
{
    let mut plan = Plan::ROOM;
    let root = known(words, area.len(), &mut plan)?;
    let (named, c) = name_cursor(&root, session, set)?;
    get_on(
        &named,
        area,
        c,
        Asked {
            mode,
            number,
            value,
            room,
        },
    )
}
