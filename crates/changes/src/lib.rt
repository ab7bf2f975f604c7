// The changing calls, put, update and delete, up to their outcome. Where the outcome is a refusal, the area is as it was. (Each begins
// by the same three lines; one function that takes the rest as closures would be longer than the three. What they take is what the
// calls take, and a set's number is promised.)
#![tactic(auto)]

ghost use Rattle.std.specs.Prelude.{◌≡◌, [], ◌≤◌, IfOk, IfErr};
ghost use Rattle.spec.specs.Calls.{put_steps, update_steps, delete_steps};
ghost use Rattle.session.specs.Answers.{done_out};

use detail_calls::{delete_detail, put_detail, update_detail};
use layout::known;
use master_calls::{delete_master, put_master, update_master};
use named::{Named, name_cursor};
use root::Plan;
use session::{Good, Session};
use spec::Refusal;

#[tactic(auto, unfolding(spec::specs::Calls::put_steps, spec::specs::Calls::named_set, named::specs::Named::set_named, named::specs::Named::cursor_named), using(layout::specs::Known::known_by_length))]
pub fn put_steps(
    words: &[u16],
    area: &mut [u16],
    session: &Session,
    set: u16,
    entry: &[u16],
) -> Result<Good, Refusal>
    ensures is { done_out result area.new [] ≡ put_steps words.now area.old session.now.cursors set entry.now }
    ensures kept { IfErr result (λ _. area.new ≡ area.old) }
    ensures set { IfOk result (λ _. (1 ≤ set) × (set ≤ 16)) }
{
    let mut plan = Plan::ROOM;
    let root = known(words, area.len(), &mut plan)?;
    let (named, c) = name_cursor(&root, session, set)?;
    match named {
        Named::Master(m) => put_master(&m, area, c, entry),
        Named::Detail(d) => put_detail(&d, area, c, entry),
    }
}

#[tactic(auto, unfolding(spec::specs::Calls::update_steps, spec::specs::Calls::named_set, named::specs::Named::set_named, named::specs::Named::cursor_named), using(layout::specs::Known::known_by_length))]
pub fn update_steps(
    words: &[u16],
    area: &mut [u16],
    session: &Session,
    set: u16,
    entry: &[u16],
) -> Result<Good, Refusal>
    ensures is { done_out result area.new [] ≡ update_steps words.now area.old session.now.cursors set entry.now }
    ensures kept { IfErr result (λ _. area.new ≡ area.old) }
    ensures set { IfOk result (λ _. (1 ≤ set) × (set ≤ 16)) }
{
    let mut plan = Plan::ROOM;
    let root = known(words, area.len(), &mut plan)?;
    let (named, c) = name_cursor(&root, session, set)?;
    match named {
        Named::Master(m) => update_master(&m, area, c, entry),
        Named::Detail(d) => update_detail(&d, area, c, entry),
    }
}

#[tactic(auto, unfolding(spec::specs::Calls::delete_steps, spec::specs::Calls::named_set, named::specs::Named::set_named, named::specs::Named::cursor_named), using(layout::specs::Known::known_by_length))]
pub fn delete_steps(
    words: &[u16],
    area: &mut [u16],
    session: &Session,
    set: u16,
) -> Result<Good, Refusal>
    ensures is { done_out result area.new [] ≡ delete_steps words.now area.old session.now.cursors set }
    ensures kept { IfErr result (λ _. area.new ≡ area.old) }
    ensures set { IfOk result (λ _. (1 ≤ set) × (set ≤ 16)) }
{
    let mut plan = Plan::ROOM;
    let root = known(words, area.len(), &mut plan)?;
    let (named, c) = name_cursor(&root, session, set)?;
    match named {
        Named::Master(m) => delete_master(&m, area, c),
        Named::Detail(d) => delete_detail(&d, area, c),
    }
}
