// "Detail steps", put, up to one path's turn: the record taken, the master entry, the place of the line and its links. What is
// written is in the journal, so a refusal on a later path leads back.
#![tactic(auto)]

ghost use Rattle.std.specs.Prelude.{◌≡◌, IfOk, ◌+◌, ◌-◌, ◌*◌, ◌≤◌, ◌<◌, ◌^◌, length};
ghost use Rattle.spec.specs.Area.{set_head_count};
ghost use Rattle.spec.specs.Detail.{take_freed, take_above, take_record, missing, master_entry, pass, last_spot, spot_for, link_neighbours, new_ends, link_own, link_in, place_line, put_path};
ghost use Rattle.journal.specs.Journal.{Back};
ghost use Rattle.master_put.specs.Answers.{put_out};
ghost use Rattle.placing.specs.Answers.{placed_out, looked, end_set, entry_room, path_room};

use area::{
    follow, freed, live, mark, mend_back, mend_fore, next_freed, poke_link, read_head, read_links,
    read_word, set_head_count, value_at,
};
use find::find_key;
use journal::Journal;
use master_put::put_entry;
use sound::{Entry, SoundDetail, SoundPath};
use spec::{FIRST_AT, Head, LAST_AT, Path, Refusal, Shape, Spot, Taken};
use words::greater;

// "Put takes the first freed record"
#[tactic(auto, unfolding(spec::specs::Detail::take_freed), using(spec::specs::Follow::goes, spec::specs::Follow::stops))]
fn take_freed(area: &[u16], s: Shape, high: u16, r: u32) -> Result<Taken, Refusal>
    ensures { result ≡ take_freed s area.now high r }
{
    if live(area, s, r) {
        return Err(Refusal::Broken);
    }
    let freed = read_word(s.cap, next_freed(area, s, r))?;
    Ok(Taken {
        at: r,
        mark: high,
        freed,
    })
}

// "if none, the one above the high-water mark"
#[tactic(auto, unfolding(spec::specs::Detail::take_above), using(spec::specs::Follow::goes, spec::specs::Follow::stops))]
fn take_above(area: &[u16], s: Shape, high: u16) -> Result<Taken, Refusal>
    ensures { result ≡ take_above s area.now high }
{
    if s.cap <= high {
        return Err(Refusal::SetFull);
    }
    let at = (high as u32) + 1;
    if live(area, s, at) {
        return Err(Refusal::Broken);
    }
    Ok(Taken {
        at,
        mark: high + 1,
        freed: 0,
    })
}

#[tactic(auto, unfolding(spec::specs::Detail::take_record), using(spec::specs::Follow::goes, spec::specs::Follow::stops))]
pub fn take_record(area: &[u16], s: Shape) -> Result<Taken, Refusal>
    ensures { result ≡ take_record s area.now }
{
    let high = read_word(s.cap, mark(area, s))?;
    let r = read_word(s.cap, freed(area, s))?;
    if r == 0 {
        take_above(area, s, high)
    } else {
        take_freed(area, s, high, r as u32)
    }
}

// "an automatic master gets it if absent" (i is the path's number)
#[tactic(auto, unfolding(spec::specs::Detail::missing, crate::specs::Answers::entry_room), using(journal::specs::BackLaws::back_none))]
fn missing(jr: &mut Journal, p: SoundPath, i: u8, key: &Entry) -> Result<u32, Refusal>
    ensures is { put_out result jr.new.area.now ≡ missing p i jr.old.area.now key.now }
    ensures back { Back jr.old (entry_room p (length key.now)) jr.new }
{
    if p.plain.to.auto {
        put_entry(jr, p.to(), Refusal::MasterFull(i), key)
    } else {
        Err(Refusal::NoEntry(i))
    }
}

// "find the master entry"
#[tactic(auto, unfolding(spec::specs::Detail::master_entry, crate::specs::Answers::entry_room), using(spec::specs::Follow::goes, spec::specs::Follow::stops, journal::specs::BackLaws::back_none))]
fn master_entry(jr: &mut Journal, p: SoundPath, i: u8, key: &Entry) -> Result<u32, Refusal>
    ensures is { put_out result jr.new.area.now ≡ master_entry p i jr.old.area.now key.now }
    ensures back { Back jr.old (entry_room p (length key.now)) jr.new }
{
    let k = find_key(jr.area(), p.to(), key.words)?;
    if k == 0 {
        missing(jr, p, i, key)
    } else {
        Ok(k)
    }
}

// The line behind line r, where r sorts later than v and is passed; none where the new line stands after r.
#[tactic(auto, unfolding(crate::specs::Answers::looked), using(spec::specs::Follow::goes, spec::specs::Follow::stops))]
fn look_at(area: &[u16], d: Shape, p: Path, v: &[u16], r: u32) -> Result<Option<u32>, Refusal>
    ensures { result ≡ looked d p area.now v.now r }
{
    follow(area, d, r)?;
    if greater(value_at(area, d, p.sort, r), v) {
        Ok(Some(read_links(area, d, r, p.links)?.back))
    } else {
        Ok(None)
    }
}

// After the last line, with none passed.
fn last_spot(last: u32) -> Spot
    ensures { result ≡ last_spot last }
{
    Spot {
        behind: last,
        ahead: 0,
        passed: 0,
    }
}

// "Sorted: from the last line backward, pass each line whose sort value is greater than the new one, and stand after the first
// that isn't."
#[tactic(auto, using(crate::proofs::Laws::walk_end, crate::proofs::Laws::walk_long, crate::proofs::Laws::walk_stands, crate::proofs::Laws::walk_passes))]
fn pass(area: &[u16], d: Shape, p: Path, v: &[u16], last: u32) -> Result<Spot, Refusal>
    ensures { result ≡ pass d p area.now v.now d.cap (last_spot last) }
{
    let mut t = last_spot(last);
    for _ in 0..d.cap {
        if t.behind == 0 {
            return Ok(t);
        }
        match look_at(area, d, p, v, t.behind)? {
            Some(back) => {
                t = Spot {
                    behind: back,
                    ahead: t.behind,
                    passed: t.passed + 1,
                };
            }
            None => return Ok(t),
        }
    }
    if t.behind == 0 {
        Ok(t)
    } else {
        Err(Refusal::Broken)
    }
}

// "place the line"; "Unsorted: at the end."
#[tactic(auto, unfolding(spec::specs::Detail::spot_for, spec::specs::Detail::at_end), using(spec::specs::Follow::goes, spec::specs::Follow::stops))]
fn spot_for(area: &[u16], d: Shape, p: Path, entry: &Entry, last: u32) -> Result<Spot, Refusal>
    ensures { result ≡ spot_for d p area.now entry.now last }
{
    if p.sorted {
        let v = entry.value(p.sort);
        pass(area, d, p, v.words, last)
    } else {
        follow(area, d, last)?;
        Ok(last_spot(last))
    }
}

// An end of a head, at a place in record k of the master, where there is no neighbour on that side.
#[tactic(auto, unfolding(crate::specs::Answers::end_set), using(journal::specs::BackLaws::back_none))]
pub fn set_end(jr: &mut Journal, s: Shape, k: u32, at: u16, neighbour: u32, v: u32)
    ensures is { jr.new.area.now ≡ end_set s jr.old.area.now k at neighbour v }
    ensures back { Back jr.old 2 jr.new }
{
    if neighbour == 0 {
        poke_link(jr, s, k, at, v);
    }
}

// "with 0 on a side, the head's first or last is the new line"
#[tactic(auto, unfolding(spec::specs::Detail::new_ends, spec::specs::Area::set_last, spec::specs::Area::set_first, crate::specs::Answers::end_set), using(journal::specs::BackLaws::back_two))]
fn new_ends(jr: &mut Journal, p: SoundPath, k: u32, r: u32, t: Spot)
    ensures is { jr.new.area.now ≡ new_ends p jr.old.area.now k r t }
    ensures back { Back jr.old 4 jr.new }
{
    set_end(jr, p.plain.to.shape, k, p.plain.head + LAST_AT, t.ahead, r);
    set_end(
        jr,
        p.plain.to.shape,
        k,
        p.plain.head + FIRST_AT,
        t.behind,
        r,
    );
}

// The neighbours' links to the new line r.
#[tactic(auto, unfolding(spec::specs::Detail::link_neighbours), using(journal::specs::BackLaws::back_two))]
fn neighbours(jr: &mut Journal, d: Shape, p: SoundPath, r: u32, t: Spot)
    ensures is { jr.new.area.now ≡ link_neighbours d p jr.old.area.now r t }
    ensures back { Back jr.old 4 jr.new }
{
    mend_fore(jr, d, t.behind, p.plain.links, r);
    mend_back(jr, d, t.ahead, p.plain.links, r);
}

// The new line's own links.
#[tactic(auto, unfolding(spec::specs::Detail::link_own), using(journal::specs::BackLaws::back_two))]
fn own_links(jr: &mut Journal, d: Shape, p: SoundPath, r: u32, t: Spot)
    ensures is { jr.new.area.now ≡ link_own d p jr.old.area.now r t }
    ensures back { Back jr.old 4 jr.new }
{
    mend_back(jr, d, r, p.plain.links, t.behind);
    mend_fore(jr, d, r, p.plain.links, t.ahead);
}

// The head of the chain in record k: its count raised, and its ends. (It was read whole, so it can be raised: see `master_put`.)
#[tactic(auto, using(journal::specs::BackLaws::back_two))]
fn raise_head(jr: &mut Journal, p: SoundPath, k: u32, count: u16, r: u32, t: Spot)
    requires { count ≤ 65000 }
    ensures is { jr.new.area.now ≡ new_ends p (set_head_count p.to.shape jr.old.area.now k p.head (count + 1)) k r t }
    ensures back { Back jr.old 5 jr.new }
{
    set_head_count(jr, p.plain.to.shape, k, p.plain.head, count + 1);
    new_ends(jr, p, k, r, t);
}

// "The new links are that line and the one passed last": behind, ahead, head, own record.
#[tactic(auto, unfolding(spec::specs::Detail::link_in), using(journal::specs::BackLaws::back_three))]
fn link_in(jr: &mut Journal, d: Shape, p: SoundPath, k: u32, h: Head, r: u32, t: Spot)
    requires { h.count ≤ 65000 }
    ensures is { jr.new.area.now ≡ link_in d p jr.old.area.now k h r t }
    ensures back { Back jr.old 13 jr.new }
{
    neighbours(jr, d, p, r, t);
    raise_head(jr, p, k, h.count, r, t);
    own_links(jr, d, p, r, t);
}

// The chain's head in record k of the master, the line's place, and its links. (The detail's capacity bounds the count that is
// raised.)
#[tactic(auto, unfolding(spec::specs::Detail::place_line, spec::specs::Detail::head_at), using(spec::specs::Follow::goes, spec::specs::Follow::stops, journal::specs::BackLaws::back_none))]
fn place_line(
    jr: &mut Journal,
    d: SoundDetail,
    p: SoundPath,
    k: u32,
    r: u32,
    entry: &Entry,
) -> Result<u16, Refusal>
    ensures is { placed_out result jr.new.area.now ≡ place_line d p jr.old.area.now k r entry.now }
    ensures back { Back jr.old 13 jr.new }
{
    let h = read_head(jr.area(), d.plain.cap, p.plain.to.shape, k, p.plain.head)?;
    let t = spot_for(jr.area(), d.plain, p.plain, entry, h.back)?;
    link_in(jr, d.plain, p, k, h, r, t);
    Ok(t.passed)
}

// One path's turn.
#[tactic(auto, unfolding(spec::specs::Detail::put_path), using(spec::specs::Follow::goes, spec::specs::Follow::stops, crate::proofs::Laws::room_turn, crate::proofs::Laws::room_refused))]
pub fn put_path(
    jr: &mut Journal,
    d: SoundDetail,
    p: SoundPath,
    i: u8,
    r: u32,
    entry: &Entry,
) -> Result<u16, Refusal>
    ensures is { placed_out result jr.new.area.now ≡ put_path d p i jr.old.area.now r entry.now }
    ensures back { Back jr.old (path_room p) jr.new }
{
    let key = entry.value(p.plain.search);
    let k = master_entry(jr, p, i, &key)?;
    place_line(jr, d, p, k, r, entry)
}
