// "Master steps", put: an entry taken in at its primary address, behind the chain's end, or in the place of a secondary that moves
// away. A step reads before it writes, so one that refuses has written nothing.
#![tactic(auto)]

ghost use Rattle.std.specs.Prelude.{◌≡◌, IfOk, cond, ◌+◌, ◌-◌, ◌≤◌, length, eqb};
ghost use Rattle.spec.specs.Area.{value, put_entry_at, blank, set_synonyms};
ghost use Rattle.spec.specs.Master.{address, enter, lone, lengthen, join, carry, relink, move_away, displace, put_held, put_entry};
ghost use Rattle.journal.specs.Journal.{Back};
ghost use Rattle.master_put.specs.Answers.{area_out, put_out, Unwritten};

use area::{
    blank, copy_part, follow, go_live, live, mend_synonym_back, mend_synonym_fore, put_entry_at,
    set_synonym_count, set_synonyms, synonyms,
};
use find::{address, named_by, unused_from};
use journal::Journal;
use sound::{Entry, SoundMaster};
use spec::{Head, Refusal, SYNONYM_WORDS, Shape};

// The words of a new entry in record r, which has no lines: synonym words, heads, entry.
#[tactic(auto, using(journal::specs::BackLaws::back_three))]
fn fill(jr: &mut Journal, m: SoundMaster, r: u32, y: Head, entry: &Entry)
    ensures is { jr.new.area.now ≡ put_entry_at m.shape (blank m.shape (set_synonyms m.shape jr.old.area.now r y) r 5 (m.shape.front - 5)) r entry.now }
    ensures back { Back jr.old (m.shape.front + length entry.now) jr.new }
{
    let s = m.plain.shape;
    set_synonyms(jr, s, r, y);
    blank(jr, s, r, SYNONYM_WORDS, s.front - SYNONYM_WORDS);
    put_entry_at(jr, s, r, entry);
}

// A new entry in record r, which goes live.
#[tactic(auto, unfolding(spec::specs::Master::enter), using(journal::specs::BackLaws::back_two))]
fn enter(jr: &mut Journal, m: SoundMaster, r: u32, y: Head, entry: &Entry)
    ensures is { jr.new.area.now ≡ enter m jr.old.area.now r y entry.now }
    ensures back { Back jr.old (m.shape.front + length entry.now + 1) jr.new }
{
    fill(jr, m, r, y, entry);
    go_live(jr, m.plain.shape, r);
}

// "take it as primary": a new entry in record r, with the synonym words of a primary by itself.
fn enter_lone(jr: &mut Journal, m: SoundMaster, r: u32, entry: &Entry)
    ensures is { jr.new.area.now ≡ enter m jr.old.area.now r lone entry.now }
    ensures back { Back jr.old (m.shape.front + length entry.now + 1) jr.new }
{
    let y = Head {
        count: 1,
        back: 0,
        fore: 0,
    };
    enter(jr, m, r, y, entry);
}

// "behind last; behind h if that is 0"
fn end_of(h: u32, y: Head) -> u32
    ensures { result ≡ cond (eqb y.back 0) h y.back }
{
    if y.back == 0 { h } else { y.back }
}

// "Held by a primary": the new entry's record f joins the end of the chain of h, whose synonym words are y. (They were read whole, so
// the count can be raised; a type that says so would be taken apart by its readers.)
#[tactic(auto, unfolding(spec::specs::Master::join), using(spec::specs::Follow::goes, spec::specs::Follow::stops, journal::specs::BackLaws::back_then, journal::specs::BackLaws::back_more, journal::specs::BackLaws::back_none))]
fn join(
    jr: &mut Journal,
    m: SoundMaster,
    h: u32,
    y: Head,
    f: u32,
    entry: &Entry,
) -> Result<u32, Refusal>
    requires { y.count ≤ 65000 }
    ensures is { put_out result jr.new.area.now ≡ join m jr.old.area.now h y f entry.now }
    ensures kept { Unwritten result jr.old.area.now jr.new.area.now }
    ensures back { Back jr.old (m.shape.front + length entry.now + 6) jr.new }
{
    let behind = end_of(h, y);
    follow(jr.area(), m.plain.shape, behind)?;
    lengthen(jr, m.plain.shape, h, y.count, behind, f);
    let own = Head {
        count: 0,
        back: behind,
        fore: 0,
    };
    enter(jr, m, f, own, entry);
    Ok(f)
}

// The chain's end: the one behind leads on to f, and the primary h counts it and has it for its last.
#[tactic(auto, unfolding(spec::specs::Master::lengthen), using(journal::specs::BackLaws::back_three))]
fn lengthen(jr: &mut Journal, s: Shape, h: u32, count: u16, behind: u32, f: u32)
    requires { count ≤ 65000 }
    ensures is { jr.new.area.now ≡ lengthen s jr.old.area.now h count behind f }
    ensures back { Back jr.old 5 jr.new }
{
    mend_synonym_fore(jr, s, behind, f);
    set_synonym_count(jr, s, h, count + 1);
    mend_synonym_back(jr, s, h, f);
}

// The whole of record h in record f, which goes live.
#[tactic(auto, unfolding(spec::specs::Master::carry), using(journal::specs::BackLaws::back_two))]
fn carry(jr: &mut Journal, m: SoundMaster, h: u32, f: u32)
    ensures is { jr.new.area.now ≡ carry m jr.old.area.now h f }
    ensures back { Back jr.old (m.shape.width + 1) jr.new }
{
    copy_part(jr, m.plain.shape, h, f, 0, m.plain.shape.width);
    go_live(jr, m.plain.shape, f);
}

// The neighbours' links of the one that moves to f, and the move.
#[tactic(auto, unfolding(spec::specs::Master::relink), using(journal::specs::BackLaws::back_three))]
fn relink(jr: &mut Journal, m: SoundMaster, h: u32, behind: u32, k: u32, f: u32)
    ensures is { jr.new.area.now ≡ relink m jr.old.area.now h behind k f }
    ensures back { Back jr.old (m.shape.width + 5) jr.new }
{
    mend_synonym_fore(jr, m.plain.shape, behind, f);
    mend_synonym_back(jr, m.plain.shape, k, f);
    carry(jr, m, h, f);
}

// "move that one, heads included, to such a record, mend its links"
#[tactic(auto, unfolding(spec::specs::Master::move_away), using(spec::specs::Follow::goes, spec::specs::Follow::stops, journal::specs::BackLaws::back_none))]
fn move_away(jr: &mut Journal, m: SoundMaster, h: u32, y: Head, f: u32) -> Result<(), Refusal>
    ensures is { area_out result jr.new.area.now ≡ move_away m jr.old.area.now h y f }
    ensures kept { Unwritten result jr.old.area.now jr.new.area.now }
    ensures back { Back jr.old (m.shape.width + 5) jr.new }
{
    follow(jr.area(), m.plain.shape, y.back)?;
    follow(jr.area(), m.plain.shape, y.fore)?;
    let k = named_by(jr.area(), m, h, y)?;
    relink(jr, m, h, y.back, k, f);
    Ok(())
}

// "and take h"
#[tactic(auto, unfolding(spec::specs::Master::displace), using(spec::specs::Follow::goes, spec::specs::Follow::stops, journal::specs::BackLaws::back_then, journal::specs::BackLaws::back_none))]
fn displace(
    jr: &mut Journal,
    m: SoundMaster,
    h: u32,
    y: Head,
    f: u32,
    entry: &Entry,
) -> Result<u32, Refusal>
    ensures is { put_out result jr.new.area.now ≡ displace m jr.old.area.now h y f entry.now }
    ensures kept { Unwritten result jr.old.area.now jr.new.area.now }
    ensures back { Back jr.old (m.shape.width + 5 + (m.shape.front + length entry.now + 1)) jr.new }
{
    move_away(jr, m, h, y, f)?;
    enter_lone(jr, m, h, entry);
    Ok(h)
}

// At a live address h with synonym words y; f is the first unused record, 0 where there is none (the definition has it so).
#[tactic(auto, unfolding(spec::specs::Master::put_held), using(journal::specs::BackLaws::back_more, journal::specs::BackLaws::back_none))]
fn put_held(
    jr: &mut Journal,
    m: SoundMaster,
    full: Refusal,
    h: u32,
    y: Head,
    f: u32,
    entry: &Entry,
) -> Result<u32, Refusal>
    requires { y.count ≤ 65000 }
    ensures is { put_out result jr.new.area.now ≡ put_held m full jr.old.area.now h y f entry.now }
    ensures kept { Unwritten result jr.old.area.now jr.new.area.now }
    ensures back { Back jr.old (m.shape.width + m.shape.front + length entry.now + 6) jr.new }
{
    if f == 0 {
        Err(full)
    } else if y.count == 0 {
        displace(jr, m, h, y, f, entry)
    } else {
        join(jr, m, h, y, f, entry)
    }
}

// The primary address of an entry's key.
fn home(m: SoundMaster, entry: &Entry) -> u32
    ensures { result ≡ address m (value m.key entry.now) }
{
    address(m, entry.value(m.plain.key).words)
}

// Put of an entry whose key is absent.
#[tactic(auto, unfolding(spec::specs::Master::put_entry), using(spec::specs::Follow::goes, spec::specs::Follow::stops, journal::specs::BackLaws::back_more, journal::specs::BackLaws::back_none))]
pub fn put_entry(
    jr: &mut Journal,
    m: SoundMaster,
    full: Refusal,
    entry: &Entry,
) -> Result<u32, Refusal>
    ensures is { put_out result jr.new.area.now ≡ put_entry m full jr.old.area.now entry.now }
    ensures kept { Unwritten result jr.old.area.now jr.new.area.now }
    ensures back { Back jr.old (m.shape.width + m.shape.front + length entry.now + 6) jr.new }
{
    let h = home(m, entry);
    if live(jr.area(), m.plain.shape, h) {
        let y = synonyms(jr.area(), m.plain.shape, h)?;
        let f = unused_from(jr.area(), m.plain.shape, m.plain.shape.cap, h);
        put_held(jr, m, full, h, y, f, entry)
    } else {
        enter_lone(jr, m, h, entry);
        Ok(h)
    }
}
