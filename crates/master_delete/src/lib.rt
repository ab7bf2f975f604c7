// "Master steps", delete: a secondary is unlinked, a primary goes or is replaced by its first secondary. A step reads before it
// writes, so one that refuses has written nothing.
#![tactic(auto)]

ghost use Rattle.std.specs.Prelude.{◌≡◌, cond, ◌+◌, ◌-◌, ◌*◌, ◌≤◌, eqb};
ghost use Rattle.spec.specs.Area.{copy_part, set_synonym_count, mend_synonym_back, set_synonyms};
ghost use Rattle.spec.specs.Master.{erase, new_last, close_up, cut, unlink, promoted, promote, succeed, remove_primary, remove_entry};
ghost use Rattle.journal.specs.Journal.{Back};
ghost use Rattle.master_put.specs.Answers.{area_out, Unwritten};

use area::{
    blank, copy_part, follow, go_unused, mend_synonym_back, mend_synonym_fore, set_synonym_count,
    set_synonyms, synonyms,
};
use find::lowered;
use journal::Journal;
use sound::SoundMaster;
use spec::{Head, Lowered, Master, Refusal, SYNONYM_WORDS, Shape};

// "Unused record: zeros"
#[tactic(auto, unfolding(spec::specs::Master::erase), using(journal::specs::BackLaws::back_two))]
fn erase(jr: &mut Journal, m: SoundMaster, r: u32)
    ensures is { jr.new.area.now ≡ erase m jr.old.area.now r }
    ensures back { Back jr.old (m.shape.width + 1) jr.new }
{
    blank(jr, m.plain.shape, r, 0, m.plain.shape.width);
    go_unused(jr, m.plain.shape, r);
}

// A last, or 0 where it is the record that goes.
fn unless(last: u32, gone: u32) -> u32
    ensures { result ≡ cond (eqb last gone) 0 last }
{
    if last == gone { 0 } else { last }
}

// The primary's last, where the one that goes was it.
#[tactic(auto, unfolding(spec::specs::Master::new_last), using(journal::specs::BackLaws::back_none))]
fn new_last(jr: &mut Journal, m: Master, p: u32, y: Head)
    ensures is { jr.new.area.now ≡ new_last m jr.old.area.now p y }
    ensures back { Back jr.old 2 jr.new }
{
    if y.fore == 0 {
        mend_synonym_back(jr, m.shape, p, unless(y.back, p));
    }
}

// Behind and ahead of the one that goes are joined.
#[tactic(auto, unfolding(spec::specs::Master::close_up), using(journal::specs::BackLaws::back_two))]
fn close_up(jr: &mut Journal, s: Shape, y: Head)
    ensures is { jr.new.area.now ≡ close_up s jr.old.area.now y }
    ensures back { Back jr.old 4 jr.new }
{
    mend_synonym_fore(jr, s, y.back, y.fore);
    mend_synonym_back(jr, s, y.fore, y.back);
}

// The primary q of the one that goes: its count is lowered, and its last mended.
#[tactic(auto, using(journal::specs::BackLaws::back_two))]
fn lower(jr: &mut Journal, m: Master, y: Head, q: Lowered)
    ensures is { jr.new.area.now ≡ new_last m (set_synonym_count m.shape jr.old.area.now q.at q.count) q.at y }
    ensures back { Back jr.old 3 jr.new }
{
    set_synonym_count(jr, m.shape, q.at, q.count);
    new_last(jr, m, q.at, y);
}

// What goes with the secondary r is written: its neighbours, its primary q, its own record.
#[tactic(auto, unfolding(spec::specs::Master::cut), using(journal::specs::BackLaws::back_three))]
fn cut(jr: &mut Journal, m: SoundMaster, r: u32, y: Head, q: Lowered)
    ensures is { jr.new.area.now ≡ cut m jr.old.area.now r y q }
    ensures back { Back jr.old (m.shape.width + 8) jr.new }
{
    close_up(jr, m.plain.shape, y);
    lower(jr, m.plain, y, q);
    erase(jr, m, r);
}

// "a secondary is unlinked"
#[tactic(auto, unfolding(spec::specs::Master::unlink), using(spec::specs::Follow::goes, spec::specs::Follow::stops, journal::specs::BackLaws::back_none))]
fn unlink(jr: &mut Journal, m: SoundMaster, r: u32, y: Head) -> Result<(), Refusal>
    ensures is { area_out result jr.new.area.now ≡ unlink m jr.old.area.now r y }
    ensures kept { Unwritten result jr.old.area.now jr.new.area.now }
    ensures back { Back jr.old (m.shape.width + 8) jr.new }
{
    follow(jr.area(), m.plain.shape, y.back)?;
    follow(jr.area(), m.plain.shape, y.fore)?;
    let q = lowered(jr.area(), m, r)?;
    cut(jr, m, r, y, q);
    Ok(())
}

// "count less 1, last (0 if it was the one moved), first its next"
#[tactic(auto, unfolding(spec::specs::Master::promoted))]
fn promoted(y: Head, next: u32) -> Head
    ensures { result ≡ promoted y next }
{
    let last = unless(y.back, y.fore);
    Head {
        count: y.count.saturating_sub(1),
        back: last,
        fore: next,
    }
}

// The secondary in record f comes to the address r with the synonym words z: ahead has r behind it, heads and entry are copied.
#[tactic(auto, using(journal::specs::BackLaws::back_three))]
fn take_over(jr: &mut Journal, m: SoundMaster, r: u32, f: u32, z: Head)
    ensures is { jr.new.area.now ≡ set_synonyms m.shape (copy_part m.shape (mend_synonym_back m.shape jr.old.area.now z.fore r) f r 5 (m.shape.width - 5)) r z }
    ensures back { Back jr.old (m.shape.width + 2) jr.new }
{
    let s = m.plain.shape;
    mend_synonym_back(jr, s, z.fore, r);
    copy_part(jr, s, f, r, SYNONYM_WORDS, s.width - SYNONYM_WORDS);
    set_synonyms(jr, s, r, z);
}

// What the promotion of the first secondary to the address r writes: ahead, record r, the record it leaves.
#[tactic(auto, unfolding(spec::specs::Master::promote, spec::specs::Master::promoted), using(journal::specs::BackLaws::back_two))]
fn promote(jr: &mut Journal, m: SoundMaster, r: u32, y: Head, next: u32)
    ensures is { jr.new.area.now ≡ promote m jr.old.area.now r y next }
    ensures back { Back jr.old (2 * m.shape.width + 3) jr.new }
{
    take_over(jr, m, r, y.fore, promoted(y, next));
    erase(jr, m, y.fore);
}

// "a primary whose first isn't 0 is replaced by that one, moved to its address"
#[tactic(auto, unfolding(spec::specs::Master::succeed), using(spec::specs::Follow::goes, spec::specs::Follow::stops, journal::specs::BackLaws::back_none))]
fn succeed(jr: &mut Journal, m: SoundMaster, r: u32, y: Head) -> Result<(), Refusal>
    ensures is { area_out result jr.new.area.now ≡ succeed m jr.old.area.now r y }
    ensures kept { Unwritten result jr.old.area.now jr.new.area.now }
    ensures back { Back jr.old (2 * m.shape.width + 3) jr.new }
{
    follow(jr.area(), m.plain.shape, y.fore)?;
    let z = synonyms(jr.area(), m.plain.shape, y.fore)?;
    follow(jr.area(), m.plain.shape, z.fore)?;
    promote(jr, m, r, y, z.fore);
    Ok(())
}

#[tactic(auto, unfolding(spec::specs::Master::remove_primary), using(journal::specs::BackLaws::back_more))]
fn remove_primary(jr: &mut Journal, m: SoundMaster, r: u32, y: Head) -> Result<(), Refusal>
    ensures is { area_out result jr.new.area.now ≡ remove_primary m jr.old.area.now r y }
    ensures kept { Unwritten result jr.old.area.now jr.new.area.now }
    ensures back { Back jr.old (2 * m.shape.width + 8) jr.new }
{
    if y.fore == 0 {
        erase(jr, m, r);
        Ok(())
    } else {
        succeed(jr, m, r, y)
    }
}

// The entry in record r goes; its head counts are all 0.
#[tactic(auto, unfolding(spec::specs::Master::remove_entry), using(spec::specs::Follow::goes, spec::specs::Follow::stops, journal::specs::BackLaws::back_more, journal::specs::BackLaws::back_none))]
pub fn remove_entry(jr: &mut Journal, m: SoundMaster, r: u32) -> Result<(), Refusal>
    ensures is { area_out result jr.new.area.now ≡ remove_entry m jr.old.area.now r }
    ensures kept { Unwritten result jr.old.area.now jr.new.area.now }
    ensures back { Back jr.old (2 * m.shape.width + 8) jr.new }
{
    let y = synonyms(jr.area(), m.plain.shape, r)?;
    if y.count == 0 {
        unlink(jr, m, r, y)
    } else {
        remove_primary(jr, m, r, y)
    }
}
