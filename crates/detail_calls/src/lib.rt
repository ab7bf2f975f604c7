// Put, update and delete on a detail set with its cursor, up to their outcome. Where the outcome is a refusal, the area is as it
// was. (Area, cursor and entry are what the definitions take.)
#![tactic(auto)]

ghost use Rattle.std.specs.Prelude.{◌≡◌, [], IfErr, ◌≤◌, ◌&&◌};
ghost use Rattle.spec.specs.Root.{path_count};
ghost use Rattle.spec.specs.Layout.{a_detail, detail_of, path_of};
ghost use Rattle.spec.specs.Cursor.{saved_links};
ghost use Rattle.spec.specs.Calls.{put_on, keeps, keeps_paths, update_on, delete_on};
ghost use Rattle.session.specs.Answers.{done_out};

use area::peek_links;
use detail_delete::delete_line;
use detail_put::put_line;
use layout::{DetailSet, SetPath};
use master_calls::{changed, keeps, write_over};
use named::current_record;
use session::Good;
use sound::Entry;
use spec::{Cursor, LINE_WORDS, Links, Refusal, Shape};

// A line's links on a path, as they stand (a get reads them whole); none on path 0. (The path is that of a cursor that fits: see
// `named`.)
#[tactic(auto, unfolding(spec::specs::Cursor::saved_links, spec::specs::Layout::links_of))]
fn saved_links(area: &[u16], d: Shape, path: u32, r: u32) -> Links
    requires { path ≤ 4 }
    ensures { result ≡ saved_links d area.now path r }
{
    if path == 0 {
        Links::default()
    } else {
        peek_links(area, d, r, LINE_WORDS * (path as u16 - 1))
    }
}

// −95, then the put.
#[tactic(auto, unfolding(spec::specs::Calls::put_on, spec::specs::Calls::open_to_change, spec::specs::Calls::put_in, spec::specs::Cursor::seen, spec::specs::Layout::view_shape, spec::specs::Layout::detail_of), using(spec::specs::Follow::goes, spec::specs::Follow::stops))]
pub fn put_detail(
    d: &DetailSet,
    area: &mut [u16],
    c: Cursor,
    entry: &[u16],
) -> Result<Good, Refusal>
    requires { c.path ≤ 4 }
    ensures is { done_out result area.new [] ≡ put_on (a_detail (detail_of d.now.root.now.words.now d.now.number)) area.old c entry.now }
    ensures kept { IfErr result (λ _. area.new ≡ area.old) }
{
    if entry.len() != d.shape.entry as usize {
        return Err(Refusal::WrongLength);
    }
    let l = put_line(d, area, &Entry { words: entry })?;
    let passed = l.passed;
    let links = saved_links(area, d.shape, c.path, l.at);
    Ok(Good {
        size: d.shape.entry,
        at: l.at,
        number: 0,
        links,
        cursor: c.at_record(l.at, links),
        passed,
    })
}

// Whether the entry in hand has the search and the sort item of a path as record r has them.
#[tactic(auto, unfolding(spec::specs::Layout::path_of), using(crate::proofs::Laws::no_sort, crate::proofs::Laws::sort_is))]
fn keeps_path(path: &SetPath, area: &[u16], r: u32, entry: &[u16]) -> bool
    ensures { result ≡ (keeps path.now.set.now.shape area.now r entry.now (path_of path.now.set.now.root.now.words.now path.now.set.now.number path.now.number).search && keeps path.now.set.now.shape area.now r entry.now (path_of path.now.set.now.root.now.words.now path.now.set.now.number path.now.number).sort) }
{
    let kept = keeps(area, path.set.shape, r, entry, path.search());
    match path.sort() {
        Some(sort) => kept && keeps(area, path.set.shape, r, entry, sort),
        None => kept,
    }
}

// 41 asks it of every path.
#[tactic(auto, unfolding(spec::specs::Calls::keeps_paths), using(crate::proofs::Laws::kept_next, crate::proofs::Laws::kept_not))]
fn keeps_paths(d: &DetailSet, area: &[u16], r: u32, entry: &[u16]) -> bool
    ensures { result ≡ keeps_paths (detail_of d.now.root.now.words.now d.now.number) area.now r entry.now (path_count d.now.root.now.words.now d.now.number) }
{
    for i in 0..d.path_count() {
        if !keeps_path(&(&*d).path(i + 1), area, r, entry) {
            return false;
        }
    }
    true
}

// −95, 17, 41, then the update.
#[tactic(auto, unfolding(spec::specs::Calls::update_on, spec::specs::Calls::open_to_change, spec::specs::Calls::keeps_all, spec::specs::Layout::view_shape, spec::specs::Layout::detail_of, master_calls::specs::Answers::rewritten), using(spec::specs::Follow::goes, spec::specs::Follow::stops))]
pub fn update_detail(
    d: &DetailSet,
    area: &mut [u16],
    c: Cursor,
    entry: &[u16],
) -> Result<Good, Refusal>
    ensures is { done_out result area.new [] ≡ update_on (a_detail (detail_of d.now.root.now.words.now d.now.number)) area.old c entry.now }
    ensures kept { IfErr result (λ _. area.new ≡ area.old) }
{
    if entry.len() != d.shape.entry as usize {
        return Err(Refusal::WrongLength);
    }
    let r = current_record(area, d.shape, c)?;
    if !keeps_paths(d, area, r, entry) {
        return Err(Refusal::KeyChanged);
    }
    write_over(area, d.shape, r, &Entry { words: entry });
    Ok(changed(d.shape.entry, c))
}

// 17, then the delete. (That the record's number is a word is a clause: it is the cursor's, which fits its set: see `named`.)
#[tactic(auto, unfolding(spec::specs::Calls::delete_on, spec::specs::Calls::open_to_change, spec::specs::Calls::delete_in, spec::specs::Layout::view_shape, spec::specs::Layout::detail_of, master_calls::specs::Answers::rewritten), using(spec::specs::Follow::goes, spec::specs::Follow::stops))]
pub fn delete_detail(d: &DetailSet, area: &mut [u16], c: Cursor) -> Result<Good, Refusal>
    requires { c.current ≤ 65535 }
    ensures is { done_out result area.new [] ≡ delete_on (a_detail (detail_of d.now.root.now.words.now d.now.number)) area.old c }
    ensures kept { IfErr result (λ _. area.new ≡ area.old) }
{
    let r = current_record(area, d.shape, c)?;
    delete_line(d, area, r as u16)?;
    Ok(changed(0, c))
}
