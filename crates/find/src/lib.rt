// "Master steps", the readings: the primary address, find along the synonym chain, the search for an unused record, and what a
// put and a delete read before they write.
#![tactic(auto)]

ghost use Rattle.std.specs.Prelude.{◌≡◌, true, cond, IfOk, ◌+◌, ◌-◌, ◌*◌, ◌%◌, ◌≤◌, ◌<◌, ◌^◌, length};
ghost use Rattle.spec.specs.Words.{same};
ghost use Rattle.spec.specs.Master.{key_number, address, key_at, primary_of, find_along, find_primary, find_key, next_up, unused_from, last_primary, named_by, no_lines, lowered};
ghost use Rattle.find.specs.Answers.{Full};

use area::{follow, live, read_head, synonyms, value_at, word_alike};
use sound::SoundMaster;
use spec::{HEAD_WORDS, Head, Lowered, Master, Refusal, SYNONYM_WORDS, Shape};
use words::same;

// "(257v + w) mod 2^31", with 65536 for 257 where the key is a number.
fn one_more(by: u32, v: u32, w: u16) -> u32
    ensures { (result ≡ (by * v + w) % 2 ^ 31) × (result < 2 ^ 31) }
{
    let t = (by as u64) * (v as u64);
    ((t + (w as u64)) % 2147483648) as u32
}

// The number of a key's words.
#[tactic(auto, using(crate::proofs::Laws::number_turn, crate::proofs::Laws::number_end))]
fn number_by(by: u32, key: &[u16]) -> u32
    ensures { (result ≡ key_number by 0 key.now) × (result < 2 ^ 31) }
{
    let mut v: u32 = 0;
    for w in key {
        v = one_more(by, v, *w);
    }
    v
}

// 257 for X, 65536 for I and K.
fn base(text: bool) -> u32
    ensures { result ≡ cond text 257 65536 }
{
    if text { 257 } else { 65536 }
}

// "((v + C − 1) mod C) + 1"
#[tactic(auto, unfolding(spec::specs::Master::address, spec::specs::Master::address_in), using(crate::specs::FindLaws::wrapped_high))]
pub fn address(m: SoundMaster, key: &[u16]) -> u32
    ensures is { result ≡ address m key.now }
    ensures within { (1 ≤ result) × (result ≤ m.shape.cap) }
{
    let v = number_by(base(m.plain.text), key);
    let c = m.plain.shape.cap as u32;
    (v + c - 1) % c + 1
}

#[tactic(auto, unfolding(spec::specs::Master::key_at))]
pub fn key_at(area: &[u16], m: Master, r: u32) -> &[u16]
    ensures { result.now ≡ key_at m area.now r }
{
    value_at(area, m.shape, m.key, r)
}

// Whether the entry in record r has the key.
fn has_key(area: &[u16], m: Master, r: u32, key: &[u16]) -> bool
    ensures { result ≡ same (key_at m area.now r) key.now }
{
    same(key_at(area, m, r), key)
}

// "a secondary's primary is found from its key; that address counts as a link"
#[tactic(auto, unfolding(spec::specs::Master::primary_of), using(spec::specs::Follow::goes, spec::specs::Follow::stops))]
fn primary_of(area: &[u16], m: SoundMaster, r: u32) -> Result<u32, Refusal>
    ensures { result ≡ primary_of m area.now r }
{
    let p = address(m, key_at(area, m.plain, r));
    if p == r {
        return Err(Refusal::Broken);
    }
    follow(area, m.plain.shape, p)?;
    Ok(p)
}

// Along the synonym chain from record r on, at most n records; 0 where none has the key (here and below the definitions have it so).
#[tactic(auto, using(crate::proofs::Laws::walk_end, crate::proofs::Laws::walk_long, crate::proofs::Laws::walk_here, crate::proofs::Laws::walk_next))]
fn find_along(area: &[u16], m: Master, key: &[u16], n: u16, r: u32) -> Result<u32, Refusal>
    ensures { result ≡ find_along m area.now key.now n r }
{
    let mut at = r;
    for _ in 0..n {
        if at == 0 {
            return Ok(0);
        }
        follow(area, m.shape, at)?;
        if has_key(area, m, at, key) {
            return Ok(at);
        }
        at = synonyms(area, m.shape, at)?.fore;
    }
    if at == 0 { Ok(0) } else { Err(Refusal::Broken) }
}

#[tactic(auto, unfolding(spec::specs::Master::find_primary), using(spec::specs::Follow::goes, spec::specs::Follow::stops))]
fn find_primary(area: &[u16], m: SoundMaster, key: &[u16], h: u32) -> Result<u32, Refusal>
    ensures { result ≡ find_primary m area.now key.now h }
{
    let y = synonyms(area, m.plain.shape, h)?;
    if y.count == 0 {
        Ok(0)
    } else if has_key(area, m.plain, h, key) {
        Ok(h)
    } else {
        find_along(area, m.plain, key, m.plain.shape.cap - 1, y.fore)
    }
}

// "Find: look at the primary address; unused, or held by a secondary, means absent; otherwise compare along the synonym chain."
// The record that has the key, 0 where none has (its clause's definition has it so).
#[tactic(auto, unfolding(spec::specs::Master::find_key))]
pub fn find_key(area: &[u16], m: SoundMaster, key: &[u16]) -> Result<u32, Refusal>
    ensures { result ≡ find_key m area.now key.now }
{
    let h = address(m, key);
    if live(area, m.plain.shape, h) {
        find_primary(area, m, key, h)
    } else {
        Ok(0)
    }
}

// "wrapping past C to 1"
fn next_up(cap: u16, r: u32) -> u32
    ensures { result ≡ next_up cap r }
{
    if r < (cap as u32) { r + 1 } else { 1 }
}

// Whether the n records from r on begin with a word of the map, all of them within the capacity and live. (A read asks the same of
// unused ones: it counts no records down, and stops at the capacity where a put wraps.)
fn word_full(area: &[u16], s: Shape, n: u16, r: u32) -> bool
    ensures { result ≡ true → Full s area.now n r }
{
    if n < 16 {
        return false;
    }
    if (s.cap as u64) < (r as u64) + 15 {
        return false;
    }
    word_alike(area, s, r, true)
}

// "the first unused record going up from h, wrapping past C to 1"; 0 where none of n is unused (the definition has it so). A full
// word of the map is passed at once: a nearly full master has long runs of them. (A while loop: its steps are of 1 and of 16
// records.)
#[tactic(auto, using(crate::proofs::Laws::unused_word, crate::proofs::Laws::unused_none, crate::proofs::Laws::unused_here, crate::proofs::Laws::unused_next))]
pub fn unused_from(area: &[u16], s: Shape, n: u16, r: u32) -> u32
    ensures { result ≡ unused_from s area.now n r }
{
    let mut left = n;
    let mut at = r;
    while left != 0 {
        if word_full(area, s, left, at) {
            at = next_up(s.cap, at + 15);
            left -= 16;
        } else if live(area, s, at) {
            at = next_up(s.cap, at);
            left -= 1;
        } else {
            return at;
        }
    }
    0
}

// "and, if its last changes, primary"
#[tactic(auto, unfolding(spec::specs::Master::last_primary), using(spec::specs::Follow::goes, spec::specs::Follow::stops))]
fn last_primary(area: &[u16], m: SoundMaster, h: u32) -> Result<u32, Refusal>
    ensures { result ≡ last_primary m area.now h }
{
    let p = primary_of(area, m, h)?;
    synonyms(area, m.plain.shape, p)?;
    Ok(p)
}

// The record whose link back names the one at h: its next, or its primary.
#[tactic(auto, unfolding(spec::specs::Master::named_by))]
pub fn named_by(area: &[u16], m: SoundMaster, h: u32, y: Head) -> Result<u32, Refusal>
    ensures { result ≡ named_by m area.now h y }
{
    if y.fore == 0 {
        last_primary(area, m, h)
    } else {
        Ok(y.fore)
    }
}

// "Heads are read one by one, and a delete stops reading them at the first count that isn't 0": whether all are 0. (Of a
// slice, which is the definition's list: of an ArrayVec the clause would name the inside.)
#[tactic(auto, using(crate::proofs::Laws::heads_end, crate::proofs::Laws::heads_some))]
pub fn no_lines(area: &[u16], s: Shape, r: u32, heads: &[u16]) -> Result<bool, Refusal>
    requires { length heads.now ≤ 8 }
    ensures { result ≡ no_lines s area.now r heads.now 0 }
{
    for (j, cap) in heads.iter().enumerate() {
        if read_head(area, *cap, s, r, SYNONYM_WORDS + HEAD_WORDS * (j as u16))?.count != 0 {
            return Ok(false);
        }
    }
    Ok(true)
}

// The primary of the secondary r, found from its key and read whole; its count is lowered and so is not 0.
#[tactic(auto, unfolding(spec::specs::Master::lowered), using(spec::specs::Follow::goes, spec::specs::Follow::stops))]
pub fn lowered(area: &[u16], m: SoundMaster, r: u32) -> Result<Lowered, Refusal>
    ensures { result ≡ lowered m area.now r }
{
    let at = primary_of(area, m, r)?;
    let z = synonyms(area, m.plain.shape, at)?;
    if z.count == 0 {
        return Err(Refusal::Broken);
    }
    Ok(Lowered {
        at,
        count: z.count - 1,
    })
}
