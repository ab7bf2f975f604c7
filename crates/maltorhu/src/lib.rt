// The C interface, which fixes each function's arguments: cursors and status, one beside the other, as slices. A slice passes as
// a pointer and a count; cursors are 64 numbers, four a set; status has ten words. A function returns 0 if the call was worked
// (the status tells how it went) and 1 if cursors, status or passed do not have their lengths: then nothing is written. (Five calls have
// the same steps, test, session, call, words back: a function over the call would have its contract name what a closure answered.)
#![tactic(auto)]

ghost use Rattle.std.specs.Prelude.{◌≡◌, length};
ghost use Rattle.spec.specs.Calls.{make as make_base, find as find_chain, get as get_entry, put as put_entry, update as update_entry, delete as delete_entry};
ghost use Rattle.lent.specs.Lent.{cursors_of, session_words};
ghost use Rattle.maltorhu.specs.Interface.{right, make_lent, find_lent, get_lent, put_lent, update_lent, delete_lent, pack_lent, unpack_lent};

use engine::{delete, find, get, make, put, update};
use lent::{pack, put_session, session_of, unpack};
use session::Answer;

#[unsafe(no_mangle)]
#[tactic(auto, using(crate::proofs::Laws::make_told, crate::proofs::Laws::make_untold))]
pub extern "C" fn dbmake(root: &[u16], area: &mut [u16], status: &mut [u16]) -> u16
    ensures code { result ≡ (make_lent root.now area.old status.old).code }
    ensures area { area.new ≡ (make_lent root.now area.old status.old).area }
    ensures status { status.new ≡ (make_lent root.now area.old status.old).status }
{
    if status.len() != 10 {
        return 1;
    }
    status.copy_from_slice(&make(root, area));
    0
}

// Whether cursors and status have their lengths.
#[tactic(auto, unfolding(crate::specs::Interface::right))]
fn is_right(cursors: &[u32], status: &[u16]) -> bool
    ensures { result ≡ right cursors.now status.now }
{
    cursors.len() == 64 && status.len() == 10
}

// The cursors and the status that a call answers. Inlined, the answer is not copied once more.
// The lengths are `requires`: the host's slices stay slices here, as an array made of one is not proved to write back to it.
#[inline(always)]
fn give_back(cursors: &mut [u32], status: &mut [u16], a: Answer)
    requires { (64 ≡ length cursors.old) × (10 ≡ length status.old) }
    ensures cursors { cursors.new ≡ session_words a.session.cursors }
    ensures status { status.new ≡ a.status }
{
    put_session(cursors, a.session);
    status.copy_from_slice(&a.status);
}

#[unsafe(no_mangle)]
#[tactic(auto, using(crate::proofs::Laws::right_lengths, crate::proofs::Laws::find_told, crate::proofs::Laws::find_untold))]
pub extern "C" fn dbfind(
    root: &[u16],
    area: &[u16],
    cursors: &mut [u32],
    set: u16,
    item: u16,
    value: &[u16],
    status: &mut [u16],
) -> u16
    ensures code { result ≡ (find_lent root.now area.now cursors.old set item value.now status.old).code }
    ensures cursors { cursors.new ≡ (find_lent root.now area.now cursors.old set item value.now status.old).cursors }
    ensures status { status.new ≡ (find_lent root.now area.now cursors.old set item value.now status.old).status }
{
    if !is_right(cursors, status) {
        return 1;
    }
    let session = session_of(cursors);
    let answer = find(root, area, session, set, item, value);
    give_back(cursors, status, answer);
    0
}

#[unsafe(no_mangle)]
#[tactic(auto, using(crate::proofs::Laws::right_lengths, crate::proofs::Laws::get_told, crate::proofs::Laws::get_untold))]
pub extern "C" fn dbget(
    root: &[u16],
    area: &[u16],
    cursors: &mut [u32],
    set: u16,
    mode: u16,
    number: u32,
    value: &[u16],
    buffer: &mut [u16],
    status: &mut [u16],
) -> u16
    ensures code { result ≡ (get_lent root.now area.now cursors.old set mode number value.now buffer.old status.old).code }
    ensures cursors { cursors.new ≡ (get_lent root.now area.now cursors.old set mode number value.now buffer.old status.old).cursors }
    ensures buffer { buffer.new ≡ (get_lent root.now area.now cursors.old set mode number value.now buffer.old status.old).buffer }
    ensures status { status.new ≡ (get_lent root.now area.now cursors.old set mode number value.now buffer.old status.old).status }
{
    if !is_right(cursors, status) {
        return 1;
    }
    let session = session_of(cursors);
    let answer = get(root, area, session, set, mode, number, value, buffer);
    give_back(cursors, status, answer);
    0
}

#[unsafe(no_mangle)]
#[tactic(auto, using(crate::proofs::Laws::right_lengths, crate::proofs::Laws::put_told, crate::proofs::Laws::put_untold, crate::proofs::Laws::put_unpassed))]
pub extern "C" fn dbput(
    root: &[u16],
    area: &mut [u16],
    cursors: &mut [u32],
    set: u16,
    entry: &[u16],
    status: &mut [u16],
    passed: &mut [u16],
) -> u16
    ensures code { result ≡ (put_lent root.now area.old cursors.old set entry.now status.old passed.old).code }
    ensures area { area.new ≡ (put_lent root.now area.old cursors.old set entry.now status.old passed.old).area }
    ensures cursors { cursors.new ≡ (put_lent root.now area.old cursors.old set entry.now status.old passed.old).cursors }
    ensures status { status.new ≡ (put_lent root.now area.old cursors.old set entry.now status.old passed.old).status }
    ensures passed { passed.new ≡ (put_lent root.now area.old cursors.old set entry.now status.old passed.old).passed }
{
    if !is_right(cursors, status) || passed.len() != 4 {
        return 1;
    }
    let session = session_of(cursors);
    let answer = put(root, area, session, set, entry);
    passed.copy_from_slice(&answer.passed);
    give_back(cursors, status, answer);
    0
}

#[unsafe(no_mangle)]
#[tactic(auto, using(crate::proofs::Laws::right_lengths, crate::proofs::Laws::update_told, crate::proofs::Laws::update_untold))]
pub extern "C" fn dbupdate(
    root: &[u16],
    area: &mut [u16],
    cursors: &mut [u32],
    set: u16,
    entry: &[u16],
    status: &mut [u16],
) -> u16
    ensures code { result ≡ (update_lent root.now area.old cursors.old set entry.now status.old).code }
    ensures area { area.new ≡ (update_lent root.now area.old cursors.old set entry.now status.old).area }
    ensures cursors { cursors.new ≡ (update_lent root.now area.old cursors.old set entry.now status.old).cursors }
    ensures status { status.new ≡ (update_lent root.now area.old cursors.old set entry.now status.old).status }
{
    if !is_right(cursors, status) {
        return 1;
    }
    let session = session_of(cursors);
    let answer = update(root, area, session, set, entry);
    give_back(cursors, status, answer);
    0
}

#[unsafe(no_mangle)]
#[tactic(auto, using(crate::proofs::Laws::right_lengths, crate::proofs::Laws::delete_told, crate::proofs::Laws::delete_untold))]
pub extern "C" fn dbdelete(
    root: &[u16],
    area: &mut [u16],
    cursors: &mut [u32],
    set: u16,
    status: &mut [u16],
) -> u16
    ensures code { result ≡ (delete_lent root.now area.old cursors.old set status.old).code }
    ensures area { area.new ≡ (delete_lent root.now area.old cursors.old set status.old).area }
    ensures cursors { cursors.new ≡ (delete_lent root.now area.old cursors.old set status.old).cursors }
    ensures status { status.new ≡ (delete_lent root.now area.old cursors.old set status.old).status }
{
    if !is_right(cursors, status) {
        return 1;
    }
    let session = session_of(cursors);
    let answer = delete(root, area, session, set);
    give_back(cursors, status, answer);
    0
}

// Characters into words, the first of two in the high byte, blanks past the text's end.
#[unsafe(no_mangle)]
#[tactic(auto, using(crate::proofs::Laws::pack_code, crate::proofs::Laws::pack_result, crate::proofs::Laws::no_pack_code, crate::proofs::Laws::no_pack_result))]
pub extern "C" fn dbpack(text: &[u8], words: &mut [u16]) -> u16
    ensures code { result ≡ (pack_lent text.now words.old).code }
    ensures words { words.new ≡ (pack_lent text.now words.old).result }
{
    if words.len() < 2305843009213693952 {
        pack(text, words);
        0
    } else {
        1
    }
}

// Words into characters; characters past them stay.
#[unsafe(no_mangle)]
#[tactic(auto, using(crate::proofs::Laws::unpack_code, crate::proofs::Laws::unpack_result, crate::proofs::Laws::no_unpack_code, crate::proofs::Laws::no_unpack_result))]
pub extern "C" fn dbunpack(words: &[u16], text: &mut [u8]) -> u16
    ensures code { result ≡ (unpack_lent words.now text.old).code }
    ensures text { text.new ≡ (unpack_lent words.now text.old).result }
{
    if words.len() <= text.len() / 2 {
        unpack(words, text);
        0
    } else {
        1
    }
}
