// Words of a lent slice, read and written at any place, and what the definitions compute of them: two-word numbers, runs of
// words compared, bits of a map, and the word that stores a signed condition.
#![tactic(auto)]

ghost use Rattle.std.specs.Prelude.{◌≡◌, ℕ, ◌/◌, ◌%◌, ◌<◌, ◌^◌, length, get_or, set, take, drop, replicate, eqb};
ghost use Rattle.std.proofs.lemmas.List.Edits.{sets};
ghost use Rattle.spec.specs.Outcome.{twos};
ghost use Rattle.spec.specs.Words.{long, same as same_words, greater as greater_words};
ghost use Rattle.spec.specs.Area.{bit_of, with_bit, without_bit};

use std::marker::Model;

// The word at i; 0 past the end.
pub fn word(a: &[u16], i: usize) -> u16
    ensures { result ≡ get_or a.now i 0 }
{
    a.get(i).copied().unwrap_or(0)
}

// The word at i becomes v; nothing past the end.
pub fn put_word(a: &mut [u16], i: usize, v: u16)
    ensures { a.new ≡ set a.old i v }
{
    // No `get_mut`: std says nothing of what the slice ends as.
    if i < a.len() {
        a[i] = v;
    }
}

// The n words from a place on, as many of them as there are.
pub fn part(s: &[u16], at: usize, n: usize) -> &[u16]
    ensures { result.now ≡ take n (drop at s.now) }
{
    let rest = &s[at.min(s.len())..];
    &rest[..n.min(rest.len())]
}

// "every two-word number has its high word first"
#[tactic(auto, unfolding(spec::specs::Words::long))]
pub fn long_at(a: &[u16], i: usize) -> u32
    requires { i < 2 ^ 63 }
    ensures { result ≡ long a.now i }
{
    u32::from(word(a, i)) * 65536 + u32::from(word(a, i + 1))
}

pub fn high(n: u32) -> u16
    ensures { result ≡ n / 65536 % 65536 }
{
    (n >> 16) as u16
}

pub fn low(n: u32) -> u16
    ensures { result ≡ n % 65536 }
{
    (n % 65536) as u16
}

// Whether two runs of words are the same. (`==` under the definitions' name, so that a clause that says `same` needs no law.)
#[tactic(auto, using(crate::proofs::Laws::same_compared))]
pub fn same(a: &[u16], b: &[u16]) -> bool
    ensures { result ≡ same_words a.now b.now }
{
    a == b
}

// "words compared unsigned, first word first": whether the first run is greater. (`>` under the definitions' name.)
#[tactic(auto, using(crate::proofs::Laws::greater_compared))]
pub fn greater(a: &[u16], b: &[u16]) -> bool
    ensures { result ≡ greater_words a.now b.now }
{
    a > b
}

// A run of words is laid over those from a place on, as far as there are any: the part that it covers is lent on to be
// written.
#[tactic(auto, using(crate::proofs::Laws::laid))]
pub fn lay(a: &mut [u16], at: usize, vs: &[u16])
    ensures { a.new ≡ sets a.old at vs.now }
{
    let start = at.min(a.len());
    let n = vs.len().min(a.len() - start);
    a[start..start + n].copy_from_slice(&vs[..n]);
}

// The n words from a place on become 0, as far as there are any. (It begins as `lay` does: a function that gives the part lent to be
// written would have to say what the whole then is.)
#[tactic(auto, using(crate::proofs::Laws::laid_zeros))]
pub fn lay_zeros(a: &mut [u16], at: usize, n: usize)
    ensures { a.new ≡ sets a.old at (replicate n 0) }
{
    let start = at.min(a.len());
    let n = n.min(a.len() - start);
    a[start..start + n].fill(0);
}

// A bit's place in a word: 0 the lowest, 15 the highest.
#[derive(Clone, Copy)]
pub struct Bit {
    pub place: u16,
}

impl Model for Bit {
    ghost Value = { ℕ };

    ghost view = { λ p. p.place };

    ghost invariant = { λ p. p.place < 16 };

    ghost inverse = { λ n. record { place = n } };
}

// Whether a bit of a word is 1.
#[tactic(auto, unfolding(spec::specs::Area::bit_of))]
pub fn bit_set(w: u16, p: Bit) -> bool
    ensures { result ≡ eqb (bit_of w p) 1 }
{
    (w >> p.place) % 2 == 1
}

// The word whose only one is bit p.
fn one(p: Bit) -> u16
    ensures { result ≡ 2 ^ p }
{
    1 << p.place
}

#[tactic(auto, unfolding(spec::specs::Area::with_bit))]
pub fn bit_on(w: u16, p: Bit) -> u16
    ensures { result ≡ with_bit w p }
{
    w | one(p)
}

#[tactic(auto, using(crate::proofs::Bits::cleared), unfolding(spec::specs::Area::without_bit))]
pub fn bit_off(w: u16, p: Bit) -> u16
    ensures { result ≡ without_bit w p }
{
    w & !one(p)
}

// "The word is signed, stored as two's complement."
#[tactic(auto, using(crate::proofs::Twos::twos_cast))]
pub fn status_word(c: i16) -> u16
    ensures { result ≡ twos c }
{
    c.cast_unsigned()
}
