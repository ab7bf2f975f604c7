// What the contracts of the six calls say, taken together. Each function here is a call of the engine, nothing more: its own contract
// is the record of specs/OneOutcome.antt that the theorems of specs/ are about, and is proved from the call's `ensures`. So those
// theorems speak of the calls themselves.
#![tactic(auto)]

ghost use Rattle.contracts.specs.OneOutcome.{Makes, Finds, Gets, Puts, Updates, Deletes};

use session::{Answer, Session};

pub fn make(root: &[u16], area: &mut [u16]) -> [u16; 10]
    ensures { Makes root.now area.old (record { status = result; area = area.new }) }
{
    engine::make(root, area)
}

pub fn find(
    root: &[u16],
    area: &[u16],
    session: Session,
    set: u16,
    item: u16,
    value: &[u16],
) -> Answer
    ensures { Finds root.now area.now session.cursors set item value.now (record { status = result.status; cursors = result.session.cursors; passed = result.passed }) }
{
    engine::find(root, area, session, set, item, value)
}

pub fn get(
    root: &[u16],
    area: &[u16],
    session: Session,
    set: u16,
    mode: u16,
    number: u32,
    value: &[u16],
    buffer: &mut [u16],
) -> Answer
    ensures { Gets root.now area.now session.cursors set mode number value.now buffer.old (record { status = result.status; cursors = result.session.cursors; passed = result.passed; buffer = buffer.new }) }
{
    engine::get(root, area, session, set, mode, number, value, buffer)
}

#[tactic(auto, unfolding(crate::specs::OneOutcome::Puts))]
pub fn put(root: &[u16], area: &mut [u16], session: Session, set: u16, entry: &[u16]) -> Answer
    ensures { Puts root.now area.old session.cursors set entry.now (record { status = result.status; cursors = result.session.cursors; passed = result.passed; area = area.new }) }
{
    engine::put(root, area, session, set, entry)
}

#[tactic(auto, unfolding(crate::specs::OneOutcome::Updates))]
pub fn update(root: &[u16], area: &mut [u16], session: Session, set: u16, entry: &[u16]) -> Answer
    ensures { Updates root.now area.old session.cursors set entry.now (record { status = result.status; cursors = result.session.cursors; passed = result.passed; area = area.new }) }
{
    engine::update(root, area, session, set, entry)
}

#[tactic(auto, unfolding(crate::specs::OneOutcome::Deletes))]
pub fn delete(root: &[u16], area: &mut [u16], session: Session, set: u16) -> Answer
    ensures { Deletes root.now area.old session.cursors set (record { status = result.status; cursors = result.session.cursors; passed = result.passed; area = area.new }) }
{
    engine::delete(root, area, session, set)
}
