// The six calls. Each answers, for arbitrary words of root, area, cursors, entry and value, exactly what its definition in the
// crate spec works out from them; none has a `requires`, and none leaves room for a second answer. (What they take, a mode as a
// number among it, is what they promise to take.)
#![tactic(auto)]

ghost use Rattle.std.specs.Prelude.{◌≡◌};
ghost use Rattle.spec.specs.Calls.{make, find, get, put, update, delete};

use changes::{delete_steps, put_steps, update_steps};
use layout::known;
use reads::{find_steps, get_steps};
use root::Plan;
use session::{Answer, Session, answer_of, refused_status};
use words::{lay, lay_zeros};

// "Making a base takes only root and area and answers the status."
#[tactic(auto, unfolding(spec::specs::Calls::make, spec::specs::Calls::made), using(layout::specs::Known::known_by_length, crate::proofs::Laws::cleared))]
pub fn make(root: &[u16], area: &mut [u16]) -> [u16; 10]
    ensures status { result ≡ (make root.now area.old).status }
    ensures area { area.new ≡ (make root.now area.old).area }
{
    let mut plan = Plan::ROOM;
    match known(root, area.len(), &mut plan) {
        Ok(_) => {
            // "A new base is all zeros." (`lay_zeros`, and no `fill`: a wrong program changes its place.)
            lay_zeros(area, 0, area.len());
            [0; 10]
        }
        Err(why) => refused_status(why),
    }
}

#[tactic(auto, unfolding(spec::specs::Calls::find, spec::specs::Calls::answer))]
pub fn find(
    root: &[u16],
    area: &[u16],
    session: Session,
    set: u16,
    item: u16,
    value: &[u16],
) -> Answer
    ensures status { result.status ≡ (find root.now area.now session.cursors set item value.now).status }
    ensures cursors { result.session.cursors ≡ (find root.now area.now session.cursors set item value.now).cursors }
    ensures passed { result.passed ≡ (find root.now area.now session.cursors set item value.now).passed }
{
    let found = find_steps(root, area, &session, set, item, value);
    answer_of(found, session, set)
}

// "A get buffer keeps every word after the entry."
#[tactic(auto, unfolding(spec::specs::Calls::get, spec::specs::Calls::answer))]
pub fn get(
    root: &[u16],
    area: &[u16],
    session: Session,
    set: u16,
    mode: u16,
    number: u32,
    value: &[u16],
    buffer: &mut [u16],
) -> Answer
    ensures status { result.status ≡ (get root.now area.now session.cursors set mode number value.now buffer.old).status }
    ensures cursors { result.session.cursors ≡ (get root.now area.now session.cursors set mode number value.now buffer.old).cursors }
    ensures passed { result.passed ≡ (get root.now area.now session.cursors set mode number value.now buffer.old).passed }
    ensures buffer { buffer.new ≡ (get root.now area.now session.cursors set mode number value.now buffer.old).buffer }
{
    match get_steps(root, area, &session, set, mode, number, value, buffer.len()) {
        Ok(got) => {
            lay(buffer, 0, got.entry(area));
            answer_of(Ok(got.good), session, set)
        }
        Err(why) => answer_of(Err(why), session, set),
    }
}

#[tactic(auto, unfolding(spec::specs::Calls::put, spec::specs::Calls::answer))]
pub fn put(root: &[u16], area: &mut [u16], session: Session, set: u16, entry: &[u16]) -> Answer
    ensures status { result.status ≡ (put root.now area.old session.cursors set entry.now).status }
    ensures cursors { result.session.cursors ≡ (put root.now area.old session.cursors set entry.now).cursors }
    ensures passed { result.passed ≡ (put root.now area.old session.cursors set entry.now).passed }
    ensures area { area.new ≡ (put root.now area.old session.cursors set entry.now).area }
{
    let put = put_steps(root, area, &session, set, entry);
    answer_of(put, session, set)
}

#[tactic(auto, unfolding(spec::specs::Calls::update, spec::specs::Calls::answer))]
pub fn update(root: &[u16], area: &mut [u16], session: Session, set: u16, entry: &[u16]) -> Answer
    ensures status { result.status ≡ (update root.now area.old session.cursors set entry.now).status }
    ensures cursors { result.session.cursors ≡ (update root.now area.old session.cursors set entry.now).cursors }
    ensures passed { result.passed ≡ (update root.now area.old session.cursors set entry.now).passed }
    ensures area { area.new ≡ (update root.now area.old session.cursors set entry.now).area }
{
    let updated = update_steps(root, area, &session, set, entry);
    answer_of(updated, session, set)
}

#[tactic(auto, unfolding(spec::specs::Calls::delete, spec::specs::Calls::answer))]
pub fn delete(root: &[u16], area: &mut [u16], session: Session, set: u16) -> Answer
    ensures status { result.status ≡ (delete root.now area.old session.cursors set).status }
    ensures cursors { result.session.cursors ≡ (delete root.now area.old session.cursors set).cursors }
    ensures passed { result.passed ≡ (delete root.now area.old session.cursors set).passed }
    ensures area { area.new ≡ (delete root.now area.old session.cursors set).area }
{
    let deleted = delete_steps(root, area, &session, set);
    answer_of(deleted, session, set)
}
