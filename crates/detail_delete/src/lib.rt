// "Detail steps", delete: the line leaves its paths in turn, automatic entries without lines are dropped, and the record is the
// first freed. A refusal on any path leads back by the journal.
#![tactic(auto)]

ghost use Rattle.std.specs.Prelude.{◌≡◌, IfErr, ◌*◌, ◌≤◌, length};
ghost use Rattle.spec.specs.Root.{path_count, path_master};
ghost use Rattle.spec.specs.Layout.{detail_of, heads_of};
ghost use Rattle.spec.specs.Detail.{drop_automatic, unhang, delete_paths, free_record, delete_line};
ghost use Rattle.journal.specs.Journal.{Back};
ghost use Rattle.master_put.specs.Answers.{area_out};
ghost use Rattle.detail_delete.specs.Answers.{drop_room, path_room, path_at};

use area::{blank, freed, go_unused, read_word, set_freed, set_next_freed, value_at};
use find::find_key;
use journal::Journal;
use layout::{DetailSet, SetPath};
use leaving::{drop_empty, hung_on, link_out};
use sound::{SoundMaster, SoundPath};
use spec::{Refusal, Shape};

// The entry of a path's master is dropped where that is automatic and the entry has no lines left.
#[tactic(auto, unfolding(spec::specs::Detail::drop_automatic, crate::specs::Answers::drop_room), using(journal::specs::BackLaws::back_none))]
fn drop_automatic(path: &SetPath, jr: &mut Journal, to: SoundMaster, k: u32) -> Result<(), Refusal>
    ensures is { area_out result jr.new.area.now ≡ drop_automatic to (heads_of path.now.set.now.root.now.words.now (path_master path.now.set.now.root.now.words.now path.now.set.now.number path.now.number)) jr.old.area.now k }
    ensures back { Back jr.old (drop_room to) jr.new }
{
    if to.plain.auto {
        let heads = path.heads();
        drop_empty(jr, to, heads.as_slice(), k)
    } else {
        Ok(())
    }
}

// Line r is taken off the chain of record k on a path, which is p.
#[tactic(auto, unfolding(spec::specs::Detail::unhang, crate::specs::Answers::path_room), using(spec::specs::Follow::goes, spec::specs::Follow::stops, journal::specs::BackLaws::back_then, journal::specs::BackLaws::back_none))]
fn unhang(path: &SetPath, jr: &mut Journal, p: SoundPath, k: u32, r: u32) -> Result<(), Refusal>
    ensures is { area_out result jr.new.area.now ≡ unhang path.now.set.now.shape p (heads_of path.now.set.now.root.now.words.now (path_master path.now.set.now.root.now.words.now path.now.set.now.number path.now.number)) jr.old.area.now k r }
    ensures back { Back jr.old (path_room p) jr.new }
{
    let g = hung_on(jr.area(), path.set.shape, p.plain, k, r)?;
    link_out(jr, path.set.shape, p.placed(), k, g.head, g.links);
    drop_automatic(path, jr, p.to(), k)
}

// A path's turn.
#[tactic(auto, unfolding(crate::specs::Answers::path_at, spec::specs::Detail::delete_path), using(spec::specs::Follow::goes, spec::specs::Follow::stops, crate::proofs::Laws::at_room, journal::specs::BackLaws::back_none))]
fn delete_path(path: &SetPath, jr: &mut Journal, r: u32) -> Result<(), Refusal>
    ensures is { area_out result jr.new.area.now ≡ path_at path.now.set.now.root.now.words.now path.now.set.now.number path.now.number jr.old.area.now r }
    ensures back { Back jr.old 173 jr.new }
{
    let p = path.path();
    let key = value_at(jr.area(), path.set.shape, p.plain.search, r);
    let k = find_key(jr.area(), p.to(), key)?;
    if k == 0 {
        return Err(Refusal::Broken);
    }
    unhang(path, jr, p, k, r)
}

// "paths 1 upward"
#[tactic(auto, using(journal::specs::BackLaws::back_none, turns::specs::Turns::back_next, crate::proofs::Laws::paths_start, crate::proofs::Laws::paths_next, crate::proofs::Laws::paths_end))]
fn delete_paths(d: &DetailSet, jr: &mut Journal, r: u32) -> Result<(), Refusal>
    ensures is { area_out result jr.new.area.now ≡ delete_paths (detail_of d.now.root.now.words.now d.now.number) r (path_count d.now.root.now.words.now d.now.number) 1 jr.old.area.now }
    ensures back { Back jr.old (173 * path_count d.now.root.now.words.now d.now.number) jr.new }
{
    for i in 0..d.path_count() {
        delete_path(&(&*d).path(i + 1), jr, r)?;
    }
    Ok(())
}

// "the record becomes the first freed": nothing refuses any more.
#[tactic(auto, unfolding(spec::specs::Detail::free_record))]
fn free_record(jr: &mut Journal, s: Shape, r: u16, next: u16)
    ensures lent { jr.new.area.ghost_name ≡ jr.old.area.ghost_name }
    ensures is { jr.new.area.now ≡ free_record s jr.old.area.now r next }
{
    let at = r as u32;
    blank(jr, s, at, 0, s.width);
    set_next_freed(jr, s, at, next);
    set_freed(jr, s, r);
    go_unused(jr, s, at);
}

// Line r goes; where it can't, the journal leads back.
#[tactic(auto, unfolding(spec::specs::Detail::delete_line, spec::specs::Layout::detail_of), using(spec::specs::Follow::goes, spec::specs::Follow::stops))]
fn unline(d: &DetailSet, jr: &mut Journal, r: u16) -> Result<(), Refusal>
    ensures lent { jr.new.area.ghost_name ≡ jr.old.area.ghost_name }
    ensures is { area_out result jr.new.area.now ≡ delete_line (detail_of d.now.root.now.words.now d.now.number) jr.old.area.now r }
    ensures back { IfErr result (λ _. Back jr.old (173 * path_count d.now.root.now.words.now d.now.number) jr.new) }
{
    delete_paths(d, jr, r as u32)?;
    let next = read_word(d.shape.cap, freed(jr.area(), d.shape))?;
    free_record(jr, d.shape, r, next);
    Ok(())
}

// Line r of the set is deleted, or the area is as it was. A path puts down at most 173 words; a room for two paths is cleared in
// half the time. (A put chooses its room alike: see there.)
pub fn delete_line(d: &DetailSet, area: &mut [u16], r: u16) -> Result<(), Refusal>
    ensures is { area_out result area.new ≡ delete_line (detail_of d.now.root.now.words.now d.now.number) area.old r }
    ensures kept { IfErr result (λ _. area.new ≡ area.old) }
{
    if d.path_count() <= 2 {
        delete_within::<346>(d, area, r)
    } else {
        delete_within::<692>(d, area, r)
    }
}

// The same in a room of N words. (Not inlined: a frame has one room, and not both.)
#[inline(never)]
fn delete_within<const N: usize>(d: &DetailSet, area: &mut [u16], r: u16) -> Result<(), Refusal>
    requires enough { 173 * path_count d.now.root.now.words.now d.now.number ≤ N }
    requires few { N ≤ 692 }
    ensures is { area_out result area.new ≡ delete_line (detail_of d.now.root.now.words.now d.now.number) area.old r }
    ensures kept { IfErr result (λ _. area.new ≡ area.old) }
{
    delete_by(d, area, &mut [0; N], r)
}

// The same by a journal over a room that is lent.
#[tactic(auto, using(journal::specs::BackLaws::back_start))]
fn delete_by(d: &DetailSet, area: &mut [u16], room: &mut [u64], r: u16) -> Result<(), Refusal>
    requires { 173 * path_count d.now.root.now.words.now d.now.number ≤ length room.old }
    ensures is { area_out result area.new ≡ delete_line (detail_of d.now.root.now.words.now d.now.number) area.old r }
    ensures kept { IfErr result (λ _. area.new ≡ area.old) }
{
    let mut jr = Journal::over(area, room);
    match unline(d, &mut jr, r) {
        Ok(()) => Ok(()),
        Err(why) => {
            jr.rewind();
            Err(why)
        }
    }
}
