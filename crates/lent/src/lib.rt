// What a host lends: sixteen cursors as 64 numbers; and characters packed into words.
#![tactic(auto)]

ghost use Rattle.std.specs.Prelude.{◌≡◌, ◌+◌, ◌*◌, ◌≤◌, ◌<◌, length, get_or};
ghost use Rattle.std.proofs.lemmas.List.Edits.{sets};
ghost use Rattle.lent.specs.Lent.{cursor_at, cursors_of, cursor_words, session_words, packed, unpacked};

use session::Session;
use spec::Cursor;

// The cursor whose four numbers begin at a place.
#[tactic(auto, unfolding(crate::specs::Lent::cursor_at))]
fn cursor_of_words(words: &[u32], at: usize) -> Cursor
    requires { at + 4 ≤ length words.now }
    ensures { result ≡ cursor_at words.now at }
{
    Cursor {
        current: words[at],
        path: words[at + 1],
        back: words[at + 2],
        fore: words[at + 3],
    }
}

// "for each of 16 sets current record, current path, saved back, saved forward"
// A slice, as `put_session` takes it: an array here alone would be one more conversion at each of five calls.
#[tactic(auto, using(crate::proofs::Laws::cursors_start, crate::proofs::Laws::cursors_more, crate::proofs::Laws::cursors_end))]
pub fn session_of(words: &[u32]) -> Session
    requires { 64 ≡ length words.now }
    ensures { result.cursors ≡ cursors_of words.now }
{
    let mut session = Session::default();
    // By the place: in a `zip` with the parts of `words` the proof does not learn what `iter_mut` lends to be written.
    for (i, cursor) in session.cursors.iter_mut().enumerate() {
        *cursor = cursor_of_words(words, 4 * i);
    }
    session
}

// A cursor's four numbers at a place.
#[tactic(auto, using(crate::proofs::Laws::four))]
fn put_cursor(words: &mut [u32], at: usize, c: Cursor)
    requires { at + 4 ≤ length words.old }
    ensures { words.new ≡ sets words.old at (cursor_words c) }
{
    // Four stores: `copy_from_slice` of the four asks each time whether the two overlap, 3 in 100 of what a call takes.
    words[at] = c.current;
    words[at + 1] = c.path;
    words[at + 2] = c.back;
    words[at + 3] = c.fore;
}

// A slice: what is written through a `&mut [u32; 64]` made of one is not proved to be in the slice.
#[tactic(auto, using(crate::proofs::Laws::session_start, crate::proofs::Laws::session_more, crate::proofs::Laws::session_end))]
pub fn put_session(words: &mut [u32], s: Session)
    requires { 64 ≡ length words.old }
    ensures { words.new ≡ session_words s.cursors }
{
    // By the place: through `chunks_exact_mut` the proof does not learn which elements were written.
    for (i, cursor) in s.cursors.iter().enumerate() {
        put_cursor(words, 4 * i, *cursor);
    }
}

// The character at a place; a blank past the end.
fn character(text: &[u8], i: usize) -> u8
    ensures { result ≡ get_or text.now i 32 }
{
    text.get(i).copied().unwrap_or(b' ')
}

// Characters into words, the first in the high byte, filled up with blanks.
#[tactic(auto, using(crate::proofs::Laws::pack_start, crate::proofs::Laws::pack_more, crate::proofs::Laws::pack_end))]
pub fn pack(text: &[u8], words: &mut [u16])
    requires { length words.old < 2305843009213693952 }
    ensures { words.new ≡ packed (length words.old) text.now }
{
    // By the place: a `zip` with the text's pairs ends at the text's end, and leaves no blanks past it.
    for (i, word) in words.iter_mut().enumerate() {
        let high = character(text, 2 * i);
        let low = character(text, 2 * i + 1);
        *word = u16::from_be_bytes([high, low]);
    }
}

// Words into characters; characters past them stay.
#[tactic(auto, using(crate::proofs::Laws::unpack_start, crate::proofs::Laws::unpack_more, crate::proofs::Laws::unpack_end))]
pub fn unpack(words: &[u16], text: &mut [u8])
    requires { 2 * length words.now ≤ length text.old }
    ensures { text.new ≡ unpacked words.now text.old }
{
    // By the place: through `chunks_exact_mut` the proof does not learn which elements were written.
    for (i, word) in words.iter().enumerate() {
        let [high, low] = word.to_be_bytes();
        text[2 * i] = high;
        text[2 * i + 1] = low;
    }
}
