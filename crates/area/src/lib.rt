// The area's map, records, heads, links and synonym words, each read and written by one function; what is read whole is held
// against the rules of answer 18. A function that writes keeps what it overwrites in the journal. (Area or journal, shape and record
// are three parameters: a path's turn goes between two sets, and a walk from record to record. Above this crate, too, a record and its
// synonym words, a detail and its path are two each, as the definitions take them. Map, marks and links have a function
// for each definition.)
#![tactic(auto)]

ghost use Rattle.std.specs.Prelude.{◌≡◌, true, IfOk, ◌||◌, ◌&&◌, not, ◌+◌, ◌-◌, ◌*◌, ◌≤◌, ◌<◌, ◌^◌, length, eqb, leb};
ghost use Rattle.spec.specs.Area.{blank, copy_part, entry_at, freed, follow, go_live, go_unused, live, map_bit, map_place, mark, mend, mend_back, mend_fore, mend_synonym_back, mend_synonym_fore, next_freed, peek, peek_link, peek_links, peek_part, place, poke, poke_link, put_entry_at, read, read_head, read_links, read_synonym, set_freed, set_head_count, set_mark, set_next_freed, set_synonym_count, set_synonyms, synonym_count, synonyms, value_at};
ghost use Rattle.journal.specs.Journal.{Back};
ghost use Rattle.area.specs.MapLaws.{Alike};

use journal::Journal;
use sound::{Entry, Place};
use spec::{
    FIRST_AT, FORE_AT, Field, Head, LAST_AT, Links, Refusal, SYNONYM_BACK_AT, SYNONYM_FORE_AT,
    Shape,
};
use words::{Bit, bit_off, bit_on, bit_set, long_at, part, word};

// The product of a record's number and a record's words.
fn times(a: u32, b: u16) -> usize
    requires { a < 4294967295 }
    ensures { (result ≡ a * b) × (result ≤ 281470681612290) }
{
    (a as usize) * (b as usize)
}

// Where record r begins. (0 is no record, and counts as the first, as in the definition.)
#[tactic(auto, unfolding(spec::specs::Area::place))]
pub fn place(s: Shape, r: u32) -> usize
    ensures { (result ≡ place s r) × (result ≤ 281474976579585) }
{
    let t = times(r.saturating_sub(1), s.width);
    (s.records as usize) + t
}

// Place i in record r.
fn place_in(s: Shape, r: u32, i: u16) -> Place
    ensures { result ≡ place s r + i }
{
    Place {
        at: place(s, r) + (i as usize),
    }
}

// The word of the map that has record r's bit, and the bit's place in it: record 1 in the highest bit of the first word.
#[tactic(auto, unfolding(spec::specs::Area::map_place))]
fn map_place(s: Shape, r: u32) -> usize
    ensures { (result ≡ map_place s r) × (result < 2 ^ 33) }
{
    (s.map as usize) + (r.saturating_sub(1) / 16) as usize
}

#[tactic(auto, unfolding(spec::specs::Area::map_bit))]
fn map_bit(r: u32) -> Bit
    ensures { result ≡ map_bit r }
{
    Bit {
        place: (15 - r.saturating_sub(1) % 16) as u16,
    }
}

#[tactic(auto, unfolding(spec::specs::Area::live))]
pub fn live(area: &[u16], s: Shape, r: u32) -> bool
    ensures { result ≡ live s area.now r }
{
    let w = word(area, map_place(s, r));
    bit_set(w, map_bit(r))
}

// "one bit per record, 1 = live, record 1 in the highest bit of the first word": whether record r is the first of a word of the
// map whose 16 records are all live, or all unused. A search passes such a word at once. (A flag: a put looks for a record that is
// unused, a serial read for one that is live, each by this word.)
pub fn word_alike(area: &[u16], s: Shape, r: u32, on: bool) -> bool
    ensures { result ≡ true → Alike s area.now r on }
{
    if r.saturating_sub(1) % 16 == 0 {
        let w = word(area, map_place(s, r));
        if on { w == 65535 } else { w == 0 }
    } else {
        false
    }
}

// A link leads to a live record, or nowhere: "follows one to an unused record" is answer 18.
#[tactic(auto, unfolding(spec::specs::Area::follow))]
pub fn follow(area: &[u16], s: Shape, r: u32) -> Result<(), Refusal>
    ensures { result ≡ follow s area.now r }
{
    if r == 0 || live(area, s, r) {
        Ok(())
    } else {
        Err(Refusal::Broken)
    }
}

#[tactic(auto, unfolding(spec::specs::Area::go_live))]
pub fn go_live(jr: &mut Journal, s: Shape, r: u32)
    ensures is { jr.new.area.now ≡ go_live s jr.old.area.now r }
    ensures back { Back jr.old 1 jr.new }
{
    let at = map_place(s, r);
    let w = word(jr.area(), at);
    jr.store(Place { at }, bit_on(w, map_bit(r)));
}

#[tactic(auto, unfolding(spec::specs::Area::go_unused))]
pub fn go_unused(jr: &mut Journal, s: Shape, r: u32)
    ensures is { jr.new.area.now ≡ go_unused s jr.old.area.now r }
    ensures back { Back jr.old 1 jr.new }
{
    let at = map_place(s, r);
    let w = word(jr.area(), at);
    jr.store(Place { at }, bit_off(w, map_bit(r)));
}

// A word, a link and a run of words of record r, from place i in it on.
#[tactic(auto, unfolding(spec::specs::Area::peek))]
fn peek(area: &[u16], s: Shape, r: u32, i: u32) -> u16
    ensures { result ≡ peek s area.now r i }
{
    let at = place(s, r);
    word(area, at + (i as usize))
}

#[tactic(auto, unfolding(spec::specs::Area::peek_link))]
fn peek_link(area: &[u16], s: Shape, r: u32, i: u32) -> u32
    ensures { result ≡ peek_link s area.now r i }
{
    let at = place(s, r);
    long_at(area, at + (i as usize))
}

#[tactic(auto, unfolding(spec::specs::Area::peek_part))]
fn peek_part(area: &[u16], s: Shape, r: u32, i: u16, n: u16) -> &[u16]
    ensures { result.now ≡ peek_part s area.now r i n }
{
    let at = place(s, r);
    part(area, at + (i as usize), n as usize)
}

#[tactic(auto, unfolding(spec::specs::Area::poke))]
fn poke(jr: &mut Journal, s: Shape, r: u32, i: u16, v: u16)
    ensures is { jr.new.area.now ≡ poke s jr.old.area.now r i v }
    ensures back { Back jr.old 1 jr.new }
{
    jr.store(place_in(s, r, i), v);
}

#[tactic(auto, unfolding(spec::specs::Area::poke_link))]
pub fn poke_link(jr: &mut Journal, s: Shape, r: u32, i: u16, v: u32)
    ensures is { jr.new.area.now ≡ poke_link s jr.old.area.now r i v }
    ensures back { Back jr.old 2 jr.new }
{
    jr.store_long(place_in(s, r, i), v);
}

// A link in a neighbour, if there is one.
#[tactic(auto, unfolding(spec::specs::Area::mend))]
fn mend(jr: &mut Journal, s: Shape, r: u32, i: u16, v: u32)
    ensures is { jr.new.area.now ≡ mend s jr.old.area.now r i v }
    ensures back { Back jr.old 2 jr.new }
{
    if r != 0 {
        poke_link(jr, s, r, i, v);
    }
}

// "Unused record: zeros": len words of record r from place i on.
#[tactic(auto, unfolding(spec::specs::Area::blank, spec::specs::Area::poke_part))]
pub fn blank(jr: &mut Journal, s: Shape, r: u32, i: u16, len: u16)
    ensures is { jr.new.area.now ≡ blank s jr.old.area.now r i len }
    ensures back { Back jr.old len jr.new }
{
    jr.store_zeros(place_in(s, r, i).at, len as usize);
}

// An item of the entry in record r, and the whole entry.
#[tactic(auto, unfolding(spec::specs::Area::value_at, spec::specs::Area::peek_part))]
pub fn value_at(area: &[u16], s: Shape, f: Field, r: u32) -> &[u16]
    ensures { result.now ≡ value_at s f area.now r }
{
    let at = place(s, r);
    part(
        area,
        at + ((s.front as usize) + (f.at as usize)),
        f.size as usize,
    )
}

#[tactic(auto, unfolding(spec::specs::Area::entry_at))]
pub fn entry_at(area: &[u16], s: Shape, r: u32) -> &[u16]
    ensures { result.now ≡ entry_at s area.now r }
{
    peek_part(area, s, r, s.front, s.entry)
}

#[tactic(auto, unfolding(spec::specs::Area::put_entry_at, spec::specs::Area::poke_part))]
pub fn put_entry_at(jr: &mut Journal, s: Shape, r: u32, entry: &Entry)
    ensures is { jr.new.area.now ≡ put_entry_at s jr.old.area.now r entry.now }
    ensures back { Back jr.old (length entry.now) jr.new }
{
    jr.store_run(place_in(s, r, s.front), entry);
}

// The words of record `from`, from place i in it on, in record `to`: "heads and entry are copied unread".
#[tactic(auto, unfolding(spec::specs::Area::copy_part, spec::specs::Area::poke_part, spec::specs::Area::peek_part))]
pub fn copy_part(jr: &mut Journal, s: Shape, from: u32, to: u32, i: u16, len: u16)
    requires { len ≤ 557 }
    ensures is { jr.new.area.now ≡ copy_part s jr.old.area.now from to i len }
    ensures back { Back jr.old len jr.new }
{
    let at = place(s, from) + (i as usize);
    jr.store_moved(at, place_in(s, to, i).at, len as usize);
}

// A set's two leading words.
#[tactic(auto, unfolding(spec::specs::Area::mark))]
pub fn mark(area: &[u16], s: Shape) -> u16
    ensures { result ≡ mark s area.now }
{
    word(area, s.start as usize)
}

#[tactic(auto, unfolding(spec::specs::Area::freed))]
pub fn freed(area: &[u16], s: Shape) -> u16
    ensures { result ≡ freed s area.now }
{
    word(area, (s.start as usize) + 1)
}

#[tactic(auto, unfolding(spec::specs::Area::set_mark))]
pub fn set_mark(jr: &mut Journal, s: Shape, v: u16)
    ensures is { jr.new.area.now ≡ set_mark s jr.old.area.now v }
    ensures back { Back jr.old 1 jr.new }
{
    let at = s.start as usize;
    jr.store(Place { at }, v);
}

#[tactic(auto, unfolding(spec::specs::Area::set_freed))]
pub fn set_freed(jr: &mut Journal, s: Shape, v: u16)
    ensures is { jr.new.area.now ≡ set_freed s jr.old.area.now v }
    ensures back { Back jr.old 1 jr.new }
{
    let at = (s.start as usize) + 1;
    jr.store(Place { at }, v);
}

// "an unused record: zeros, except that a freed detail record's first word names the next freed one"
#[tactic(auto, unfolding(spec::specs::Area::next_freed))]
pub fn next_freed(area: &[u16], s: Shape, r: u32) -> u16
    ensures { result ≡ next_freed s area.now r }
{
    peek(area, s, r, 0)
}

#[tactic(auto, unfolding(spec::specs::Area::set_next_freed))]
pub fn set_next_freed(jr: &mut Journal, s: Shape, r: u32, next: u16)
    ensures is { jr.new.area.now ≡ set_next_freed s jr.old.area.now r next }
    ensures back { Back jr.old 1 jr.new }
{
    poke(jr, s, r, 0, next);
}

// Answer 18: "a link above C", a count above its set's capacity. (That what is read is within a limit is told by a clause: the limit is
// the caller's, and a type can't name it.)
#[tactic(auto, unfolding(spec::specs::Area::read))]
fn read(limit: u16, n: u32) -> Result<u32, Refusal>
    ensures is { result ≡ read limit n }
    ensures within { IfOk result (λ m. m ≤ limit) }
{
    if n <= limit as u32 {
        Ok(n)
    } else {
        Err(Refusal::Broken)
    }
}

// The same of a number that is one word.
pub fn read_word(limit: u16, n: u16) -> Result<u16, Refusal>
    ensures is { result ≡ read limit n }
    ensures within { IfOk result (λ m. m ≤ limit) }
{
    Ok(read(limit, n as u32)? as u16)
}

// Such a link, or "a synonym link to its own record".
#[tactic(auto, unfolding(spec::specs::Area::read_synonym))]
fn read_synonym(limit: u16, r: u32, link: u32) -> Result<u32, Refusal>
    ensures is { result ≡ read_synonym limit r link }
    ensures within { IfOk result (λ m. m ≤ limit) }
{
    if link <= limit as u32 && link != r {
        Ok(link)
    } else {
        Err(Refusal::Broken)
    }
}

// A head, read whole, against the detail's capacity: count, last, first.
#[tactic(auto, unfolding(spec::specs::Area::read_head), using(spec::specs::Follow::goes, spec::specs::Follow::stops))]
pub fn read_head(area: &[u16], limit: u16, s: Shape, r: u32, at: u16) -> Result<Head, Refusal>
    ensures is { result ≡ read_head limit s area.now r at }
    ensures within { IfOk result (λ h. (h.count ≤ limit) × (h.back ≤ limit) × (h.fore ≤ limit)) }
{
    let count = read_word(limit, peek(area, s, r, u32::from(at)))?;
    let back = read(
        limit,
        peek_link(area, s, r, u32::from(at) + u32::from(LAST_AT)),
    )?;
    let fore = read(
        limit,
        peek_link(area, s, r, u32::from(at) + u32::from(FIRST_AT)),
    )?;
    Ok(Head { count, back, fore })
}

// A head's count.
#[tactic(auto, unfolding(spec::specs::Area::set_head_count))]
pub fn set_head_count(jr: &mut Journal, s: Shape, r: u32, at: u16, n: u16)
    ensures is { jr.new.area.now ≡ set_head_count s jr.old.area.now r at n }
    ensures back { Back jr.old 1 jr.new }
{
    poke(jr, s, r, at, n);
}

// The pair of links at a place in line r: backward, forward.
#[tactic(auto, unfolding(spec::specs::Area::peek_links))]
pub fn peek_links(area: &[u16], s: Shape, r: u32, at: u16) -> Links
    ensures { result ≡ peek_links s area.now r at }
{
    Links {
        back: peek_link(area, s, r, u32::from(at)),
        fore: peek_link(area, s, r, u32::from(at) + u32::from(FORE_AT)),
    }
}

// The same, read whole.
#[tactic(auto, unfolding(spec::specs::Area::read_links), using(spec::specs::Follow::goes, spec::specs::Follow::stops))]
pub fn read_links(area: &[u16], s: Shape, r: u32, at: u16) -> Result<Links, Refusal>
    ensures is { result ≡ read_links s area.now r at }
    ensures within { IfOk result (λ l. (l.back ≤ s.cap) × (l.fore ≤ s.cap)) }
{
    let back = read(s.cap, peek_link(area, s, r, u32::from(at)))?;
    let fore = read(
        s.cap,
        peek_link(area, s, r, u32::from(at) + u32::from(FORE_AT)),
    )?;
    Ok(Links { back, fore })
}

// In a line's neighbour, if there is one: its link back, and its link on.
#[tactic(auto, unfolding(spec::specs::Area::mend_back))]
pub fn mend_back(jr: &mut Journal, s: Shape, r: u32, at: u16, v: u32)
    ensures is { jr.new.area.now ≡ mend_back s jr.old.area.now r at v }
    ensures back { Back jr.old 2 jr.new }
{
    mend(jr, s, r, at, v);
}

#[tactic(auto, unfolding(spec::specs::Area::mend_fore))]
pub fn mend_fore(jr: &mut Journal, s: Shape, r: u32, at: u16, v: u32)
    requires { at ≤ 65000 }
    ensures is { jr.new.area.now ≡ mend_fore s jr.old.area.now r at v }
    ensures back { Back jr.old 2 jr.new }
{
    mend(jr, s, r, at + FORE_AT, v);
}

// "in a primary, how many live entries have this primary address"
#[tactic(auto, unfolding(spec::specs::Area::synonym_count))]
pub fn synonym_count(area: &[u16], s: Shape, r: u32) -> u16
    ensures { result ≡ synonym_count s area.now r }
{
    peek(area, s, r, 0)
}

#[tactic(auto, unfolding(spec::specs::Area::set_synonym_count))]
pub fn set_synonym_count(jr: &mut Journal, s: Shape, r: u32, n: u16)
    ensures is { jr.new.area.now ≡ set_synonym_count s jr.old.area.now r n }
    ensures back { Back jr.old 1 jr.new }
{
    poke(jr, s, r, 0, n);
}

// In a record of the chain, if there is one: its last or previous, and its first or next.
#[tactic(auto, unfolding(spec::specs::Area::mend_synonym_back))]
pub fn mend_synonym_back(jr: &mut Journal, s: Shape, r: u32, v: u32)
    ensures is { jr.new.area.now ≡ mend_synonym_back s jr.old.area.now r v }
    ensures back { Back jr.old 2 jr.new }
{
    mend(jr, s, r, SYNONYM_BACK_AT, v);
}

#[tactic(auto, unfolding(spec::specs::Area::mend_synonym_fore))]
pub fn mend_synonym_fore(jr: &mut Journal, s: Shape, r: u32, v: u32)
    ensures is { jr.new.area.now ≡ mend_synonym_fore s jr.old.area.now r v }
    ensures back { Back jr.old 2 jr.new }
{
    mend(jr, s, r, SYNONYM_FORE_AT, v);
}

// The five synonym words of record r, read whole.
#[tactic(auto, unfolding(spec::specs::Area::synonyms), using(spec::specs::Follow::goes, spec::specs::Follow::stops))]
pub fn synonyms(area: &[u16], s: Shape, r: u32) -> Result<Head, Refusal>
    ensures is { result ≡ synonyms s area.now r }
    ensures within { IfOk result (λ y. (y.count ≤ s.cap) × (y.back ≤ s.cap) × (y.fore ≤ s.cap)) }
{
    let count = read_word(s.cap, synonym_count(area, s, r))?;
    let back = read_synonym(s.cap, r, peek_link(area, s, r, u32::from(SYNONYM_BACK_AT)))?;
    let fore = read_synonym(s.cap, r, peek_link(area, s, r, u32::from(SYNONYM_FORE_AT)))?;
    Ok(Head { count, back, fore })
}

#[tactic(auto, unfolding(spec::specs::Area::set_synonyms), using(journal::specs::BackLaws::back_three))]
pub fn set_synonyms(jr: &mut Journal, s: Shape, r: u32, y: Head)
    ensures is { jr.new.area.now ≡ set_synonyms s jr.old.area.now r y }
    ensures back { Back jr.old 5 jr.new }
{
    poke(jr, s, r, 0, y.count);
    poke_link(jr, s, r, SYNONYM_BACK_AT, y.back);
    poke_link(jr, s, r, SYNONYM_FORE_AT, y.fore);
}
