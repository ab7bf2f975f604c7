// "Detail steps", put: the line's record, its paths in turn, and the record itself. A refusal on any path leads back by the
// journal.
#![tactic(auto)]

ghost use Rattle.std.specs.Prelude.{◌≡◌, IfOk, IfErr, ◌*◌, ◌≤◌, length};
ghost use Rattle.spec.specs.Root.{path_count};
ghost use Rattle.spec.specs.Layout.{detail_of};
ghost use Rattle.spec.specs.Detail.{put_paths, none_passed, settle, put_taken, put_line};
ghost use Rattle.journal.specs.Journal.{Back};
ghost use Rattle.placing.specs.Answers.{placed_out};
ghost use Rattle.detail_put.specs.Answers.{lined_out, line_out, path_at};

use area::{go_live, put_entry_at, set_freed, set_mark};
use journal::Journal;
use layout::{DetailSet, SetPath};
use placing::{put_path, take_record};
use sound::Entry;
use spec::{Refusal, Shape, Taken};

// The line that was put: its record, and the lines passed on each path.
#[derive(Clone, Copy)]
pub struct Line {
    pub at: u32,
    pub passed: [u16; 4],
}

// A path's turn.
#[tactic(auto, unfolding(crate::specs::Answers::path_at), using(crate::proofs::Laws::at_room))]
fn put_at(path: &SetPath, jr: &mut Journal, r: u32, entry: &Entry) -> Result<u16, Refusal>
    ensures is { placed_out result jr.new.area.now ≡ path_at path.now.set.now.root.now.words.now path.now.set.now.number path.now.number jr.old.area.now r entry.now }
    ensures back { Back jr.old 173 jr.new }
{
    put_path(
        jr,
        path.set.sound(),
        path.path(),
        path.number as u8,
        r,
        entry,
    )
}

// "Then paths 1 upward": the lines passed on each. (Counted, here and in a delete and an update: the definitions count by a path's number.)
#[tactic(auto, using(journal::specs::BackLaws::back_none, turns::specs::Turns::back_next, crate::proofs::Laws::paths_start, crate::proofs::Laws::paths_next, crate::proofs::Laws::paths_end))]
fn put_paths(d: &DetailSet, jr: &mut Journal, r: u32, entry: &Entry) -> Result<[u16; 4], Refusal>
    ensures is { lined_out result jr.new.area.now ≡ put_paths (detail_of d.now.root.now.words.now d.now.number) entry.now r (path_count d.now.root.now.words.now d.now.number) 1 (record { area = jr.old.area.now; passed = none_passed }) }
    ensures back { Back jr.old (173 * path_count d.now.root.now.words.now d.now.number) jr.new }
{
    let mut passed = [0u16; 4];
    for i in 0..d.path_count() {
        passed[i as usize] = put_at(&d.path(i + 1), jr, r, entry)?;
    }
    Ok(passed)
}

// The leading words, the entry, and last the map: nothing refuses any more.
#[tactic(auto, unfolding(spec::specs::Detail::settle))]
fn settle(jr: &mut Journal, s: Shape, t: Taken, entry: &Entry)
    ensures lent { jr.new.area.ghost_name ≡ jr.old.area.ghost_name }
    ensures is { jr.new.area.now ≡ settle s jr.old.area.now t entry.now }
{
    set_mark(jr, s, t.mark);
    set_freed(jr, s, t.freed);
    put_entry_at(jr, s, t.at, entry);
    go_live(jr, s, t.at);
}

// A line is put into the set, or the area is as it was. A path puts down at most 173 words; a room for two paths is cleared in
// half the time. (A delete chooses its room alike, and both say of it that it is enough for the paths: what they do by the journal is told
// by contracts of their own, which a closure would have to name.)
#[tactic(auto, unfolding(spec::specs::Detail::put_line, spec::specs::Layout::detail_of), using(spec::specs::Follow::goes, spec::specs::Follow::stops))]
pub fn put_line(d: &DetailSet, area: &mut [u16], entry: &Entry) -> Result<Line, Refusal>
    ensures is { line_out result area.new ≡ put_line (detail_of d.now.root.now.words.now d.now.number) area.old entry.now }
    ensures kept { IfErr result (λ _. area.new ≡ area.old) }
{
    let t = take_record(area, d.shape)?;
    if d.path_count() <= 2 {
        put_within::<346>(d, area, t, entry)
    } else {
        put_within::<692>(d, area, t, entry)
    }
}

// The same with the record taken, in a room of N words. (Not inlined: a frame has one room, and not both.)
#[inline(never)]
fn put_within<const N: usize>(
    d: &DetailSet,
    area: &mut [u16],
    t: Taken,
    entry: &Entry,
) -> Result<Line, Refusal>
    requires enough { 173 * path_count d.now.root.now.words.now d.now.number ≤ N }
    requires few { N ≤ 692 }
    ensures is { line_out result area.new ≡ put_taken (detail_of d.now.root.now.words.now d.now.number) t area.old entry.now }
    ensures kept { IfErr result (λ _. area.new ≡ area.old) }
{
    put_taken(d, area, &mut [0; N], t, entry)
}

// The same by a journal over a room that is lent.
#[tactic(auto, unfolding(spec::specs::Detail::put_taken, spec::specs::Layout::detail_of), using(spec::specs::Follow::goes, spec::specs::Follow::stops, journal::specs::BackLaws::back_start))]
fn put_taken(
    d: &DetailSet,
    area: &mut [u16],
    room: &mut [u64],
    t: Taken,
    entry: &Entry,
) -> Result<Line, Refusal>
    requires { 173 * path_count d.now.root.now.words.now d.now.number ≤ length room.old }
    ensures is { line_out result area.new ≡ put_taken (detail_of d.now.root.now.words.now d.now.number) t area.old entry.now }
    ensures kept { IfErr result (λ _. area.new ≡ area.old) }
{
    let mut jr = Journal::over(area, room);
    match put_paths(d, &mut jr, t.at, entry) {
        Ok(passed) => {
            settle(&mut jr, d.shape, t, entry);
            Ok(Line { at: t.at, passed })
        }
        Err(why) => {
            jr.rewind();
            Err(why)
        }
    }
}
