// Put, update and delete on a master set with its cursor, up to their outcome. Where the outcome is a refusal, the area is as it
// was: each step reads before it writes, so no journal is kept (one without room is lent). (Area, cursor and entry are what the definitions
// take.)
#![tactic(auto)]

ghost use Rattle.std.specs.Prelude.{◌≡◌, [], IfErr};
ghost use Rattle.spec.specs.Layout.{a_master, master_of, heads_of};
ghost use Rattle.spec.specs.Area.{put_entry_at};
ghost use Rattle.spec.specs.Calls.{put_master as put_whole, put_on, keeps, update_on, delete_master as delete_whole, delete_on};
ghost use Rattle.session.specs.Answers.{done_out};
ghost use Rattle.master_put.specs.Answers.{area_out, Unwritten};
ghost use Rattle.master_calls.specs.Answers.{line_out, told, rewritten};

use area::{put_entry_at, synonym_count, value_at};
use find::{find_key, no_lines};
use journal::Journal;
use layout::MasterSet;
use master_delete::remove_entry;
use master_put::put_entry;
use named::current_record;
use session::Good;
use sound::{Entry, SoundMaster};
use spec::{Cursor, Field, Links, Master, Refusal, Shape};
use words::{part, same};

// What is told of the entry in record r, which is new.
#[tactic(auto, unfolding(crate::specs::Answers::told))]
fn tell(area: &[u16], m: Master, c: Cursor, r: u32) -> Good
    ensures { result ≡ told m area.now c r }
{
    let links = Links::default();
    Good {
        size: m.shape.entry,
        at: r,
        number: synonym_count(area, m.shape, r) as u32,
        links,
        cursor: c.at_record(r, links),
        passed: [0; 4],
    }
}

// 43, then 16: "master put: key present; no unused record".
#[tactic(auto, unfolding(spec::specs::Calls::put_master), using(spec::specs::Follow::goes, spec::specs::Follow::stops))]
fn enter(area: &mut [u16], m: SoundMaster, entry: &Entry) -> Result<u32, Refusal>
    ensures is { line_out result area.new ≡ put_whole m area.old entry.now }
    ensures kept { Unwritten result area.old area.new }
{
    let key = entry.value(m.plain.key);
    if find_key(area, m, key.words)? != 0 {
        return Err(Refusal::KeyPresent);
    }
    put_entry(
        &mut Journal::over(area, &mut []),
        m,
        Refusal::SetFull,
        entry,
    )
}

// −24, −95, then the put.
#[tactic(auto, unfolding(spec::specs::Calls::put_on, spec::specs::Calls::open_to_change, spec::specs::Calls::put_in, spec::specs::Layout::view_shape, spec::specs::Cursor::seen, crate::specs::Answers::told), using(spec::specs::Follow::goes, spec::specs::Follow::stops))]
pub fn put_master(
    m: &MasterSet,
    area: &mut [u16],
    c: Cursor,
    entry: &[u16],
) -> Result<Good, Refusal>
    ensures is { done_out result area.new [] ≡ put_on (a_master (master_of m.now.root.now.words.now m.now.number) (heads_of m.now.root.now.words.now m.now.number)) area.old c entry.now }
    ensures kept { IfErr result (λ _. area.new ≡ area.old) }
{
    if m.master.auto {
        return Err(Refusal::NotByCall);
    }
    if entry.len() != m.master.shape.entry as usize {
        return Err(Refusal::WrongLength);
    }
    let r = enter(area, m.sound(), &Entry { words: entry })?;
    Ok(tell(area, m.master, c, r))
}

// Whether the entry in hand has an item as record r has it.
#[tactic(auto, unfolding(spec::specs::Calls::keeps))]
pub fn keeps(area: &[u16], s: Shape, r: u32, entry: &[u16], f: Field) -> bool
    ensures { result ≡ keeps s area.now r entry.now f }
{
    let stored = value_at(area, s, f, r);
    let given = part(entry, f.at as usize, f.size as usize);
    same(stored, given)
}

// The entry's words, and no other.
pub fn write_over(area: &mut [u16], s: Shape, r: u32, entry: &Entry)
    ensures { area.new ≡ put_entry_at s area.old r entry.now }
{
    put_entry_at(&mut Journal::over(area, &mut []), s, r, entry);
}

// "After update and delete, words 3 to 10 are 0 (H)"; "Update and delete leave the cursor"
#[tactic(auto, unfolding(crate::specs::Answers::rewritten))]
pub fn changed(size: u16, c: Cursor) -> Good
    ensures { result ≡ rewritten size c }
{
    Good {
        size,
        at: 0,
        number: 0,
        links: Links::default(),
        cursor: c,
        passed: [0; 4],
    }
}

// −24, −95, 17, 41, then the update.
#[tactic(auto, unfolding(spec::specs::Calls::update_on, spec::specs::Calls::open_to_change, spec::specs::Calls::keeps_all, spec::specs::Layout::view_shape, crate::specs::Answers::rewritten), using(spec::specs::Follow::goes, spec::specs::Follow::stops))]
pub fn update_master(
    m: &MasterSet,
    area: &mut [u16],
    c: Cursor,
    entry: &[u16],
) -> Result<Good, Refusal>
    ensures is { done_out result area.new [] ≡ update_on (a_master (master_of m.now.root.now.words.now m.now.number) (heads_of m.now.root.now.words.now m.now.number)) area.old c entry.now }
    ensures kept { IfErr result (λ _. area.new ≡ area.old) }
{
    let shape = m.master.shape;
    if m.master.auto {
        return Err(Refusal::NotByCall);
    }
    if entry.len() != shape.entry as usize {
        return Err(Refusal::WrongLength);
    }
    let r = current_record(area, shape, c)?;
    if !keeps(area, shape, r, entry, m.master.key) {
        return Err(Refusal::KeyChanged);
    }
    write_over(area, shape, r, &Entry { words: entry });
    Ok(changed(shape.entry, c))
}

// 44, then the delete of the entry in record r.
#[tactic(auto, unfolding(spec::specs::Calls::delete_master, spec::specs::Master::without_lines), using(spec::specs::Follow::goes, spec::specs::Follow::stops))]
fn remove(m: &MasterSet, area: &mut [u16], r: u32) -> Result<(), Refusal>
    ensures is { area_out result area.new ≡ delete_whole m.now.master (heads_of m.now.root.now.words.now m.now.number) area.old r }
    ensures kept { Unwritten result area.old area.new }
{
    let heads = m.heads();
    if !no_lines(area, m.master.shape, r, heads.as_slice())? {
        return Err(Refusal::HasLines);
    }
    remove_entry(&mut Journal::over(area, &mut []), m.sound(), r)
}

// −24, 17, 44, then the delete.
#[tactic(auto, unfolding(spec::specs::Calls::delete_on, spec::specs::Calls::open_to_change, spec::specs::Calls::delete_in, spec::specs::Layout::view_shape, crate::specs::Answers::rewritten), using(spec::specs::Follow::goes, spec::specs::Follow::stops))]
pub fn delete_master(m: &MasterSet, area: &mut [u16], c: Cursor) -> Result<Good, Refusal>
    ensures is { done_out result area.new [] ≡ delete_on (a_master (master_of m.now.root.now.words.now m.now.number) (heads_of m.now.root.now.words.now m.now.number)) area.old c }
    ensures kept { IfErr result (λ _. area.new ≡ area.old) }
{
    if m.master.auto {
        return Err(Refusal::NotByCall);
    }
    let r = current_record(area, m.master.shape, c)?;
    remove(m, area, r)?;
    Ok(changed(0, c))
}
