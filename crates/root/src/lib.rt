// The words of the root, each read as its definition says; what is known of a good root is in specs/.
#![tactic(auto)]

mod codes;

ghost use Rattle.std.specs.Prelude.{◌≡◌, ◌+◌, ◌*◌, ◌≤◌, ◌<◌, ℕ, List, length, get_or};
ghost use Rattle.root.specs.Inside.{counts_inside, item_inside, set_inside};
ghost use Rattle.spec.specs.Root.{items, sets, item_type, item_length, description, kind, capacity, item_count, key_item, path_count, set_item, path_master, path_search, path_sort, search_path, root_length};

pub use codes::{ItemType, Kind, UnknownCode};
use spec::SET_WORDS;
use std::alloc::Allocator;

// The words of a root, and which of them may be asked for.
pub trait Readable: Drop {
    ghost words: { Self → List ℕ };

    // The places that may be read, the items and sets that may be asked for, and the places within a set's 33 words. (Each reader
    // asks it of its number: item and place come anew at each reading; a set's number goes with its root in the types above this crate.)
    ghost has_word: { Self → ℕ → Type 0 };

    ghost has_item: { Self → ℕ → Type 0 };

    ghost has_set: { Self → ℕ → Type 0 };

    ghost has_place: { Self → ℕ → Type 0 };

    fn word(&self, i: usize) -> u16
        requires { has_word self.now i }
        ensures { result ≡ get_or (words self.now) i 0 };

    ghost counts: { (r : Self) → has_word r 0 × has_word r 1 };

    ghost of_item: { (r : Self) (i : ℕ) → has_item r i → has_word r (2 * i) × has_word r (2 * i + 1) };

    ghost of_set: { (r : Self) (s k : ℕ) → has_set r s → has_place r k → has_word r (description (words r) s + k) };

    ghost places: { (r : Self) (k : ℕ) → k < 33 → has_place r k };

    ghost from_one: { (r : Self) (s : ℕ) → has_set r s → 1 ≤ s };
}

// Any words: 0 past the end.
impl<'a> Readable for &'a [u16] {
    ghost words = { λ r. r.now };

    ghost has_word = { λ r i. Unit {0} };

    ghost has_item = { λ r i. Unit {0} };

    ghost has_set = { λ r s. 1 ≤ s };

    ghost has_place = { λ r k. Unit {0} };

    ghost counts = { λ r. (tt, tt) };

    ghost of_item = { λ r i h. (tt, tt) };

    ghost of_set = { λ r s k h p. tt };

    ghost places = { λ r k h. tt };

    ghost from_one = { λ r s h. h };

    fn word(&self, i: usize) -> u16 {
        words::word(self, i)
    }
}

// The same of words that are lent to be written, of a list and of an array. (Where any words are taken a caller reached `&[u16]` from
// these by a coercion, which a generic function doesn't make, and they are promised to be taken. The members are the same four times: a
// trait's law can have no default that rests on a member's.)
impl<'a> Readable for &'a mut [u16] {
    ghost words = { λ r. r.now };

    ghost has_word = { λ r i. Unit {0} };

    ghost has_item = { λ r i. Unit {0} };

    ghost has_set = { λ r s. 1 ≤ s };

    ghost has_place = { λ r k. Unit {0} };

    ghost counts = { λ r. (tt, tt) };

    ghost of_item = { λ r i h. (tt, tt) };

    ghost of_set = { λ r s k h p. tt };

    ghost places = { λ r k h. tt };

    ghost from_one = { λ r s h. h };

    fn word(&self, i: usize) -> u16 {
        words::word(&self[..], i)
    }
}

impl<A: Allocator> Readable for Vec<u16, A> {
    ghost words = { λ r. r.items };

    ghost has_word = { λ r i. Unit {0} };

    ghost has_item = { λ r i. Unit {0} };

    ghost has_set = { λ r s. 1 ≤ s };

    ghost has_place = { λ r k. Unit {0} };

    ghost counts = { λ r. (tt, tt) };

    ghost of_item = { λ r i h. (tt, tt) };

    ghost of_set = { λ r s k h p. tt };

    ghost places = { λ r k h. tt };

    ghost from_one = { λ r s h. h };

    fn word(&self, i: usize) -> u16 {
        words::word(self.as_slice(), i)
    }
}

impl<const N: usize> Readable for [u16; N] {
    ghost words = { λ r. r };

    ghost has_word = { λ r i. Unit {0} };

    ghost has_item = { λ r i. Unit {0} };

    ghost has_set = { λ r s. 1 ≤ s };

    ghost has_place = { λ r k. Unit {0} };

    ghost counts = { λ r. (tt, tt) };

    ghost of_item = { λ r i h. (tt, tt) };

    ghost of_set = { λ r s k h p. tt };

    ghost places = { λ r k h. tt };

    ghost from_one = { λ r s h. h };

    fn word(&self, i: usize) -> u16 {
        self.get(i).copied().unwrap_or(0)
    }
}

// The same words by reference.
impl<'a, R: Readable> Readable for &'a R {
    ghost words = { λ r. R.words r.now };

    ghost has_word = { λ r. R.has_word r.now };

    ghost has_item = { λ r. R.has_item r.now };

    ghost has_set = { λ r. R.has_set r.now };

    ghost has_place = { λ r. R.has_place r.now };

    ghost counts = { λ r. R.counts r.now };

    ghost of_item = { λ r. R.of_item r.now };

    ghost of_set = { λ r. R.of_set r.now };

    ghost places = { λ r. R.places r.now };

    ghost from_one = { λ r. R.from_one r.now };

    fn word(&self, i: usize) -> u16 {
        R::word(*self, i)
    }
}

impl<'a, R: Readable> Readable for &'a mut R {
    ghost words = { λ r. R.words r.now };

    ghost has_word = { λ r. R.has_word r.now };

    ghost has_item = { λ r. R.has_item r.now };

    ghost has_set = { λ r. R.has_set r.now };

    ghost has_place = { λ r. R.has_place r.now };

    ghost counts = { λ r. R.counts r.now };

    ghost of_item = { λ r. R.of_item r.now };

    ghost of_set = { λ r. R.of_set r.now };

    ghost places = { λ r. R.places r.now };

    ghost from_one = { λ r. R.from_one r.now };

    fn word(&self, i: usize) -> u16 {
        (**self).word(i)
    }
}

// A root that is as long as its counts say: its words are read with no test of the place.
#[derive(Clone, Copy)]
pub struct Stated<'a> {
    pub words: &'a [u16],
    pub ghost whole: { length words.now ≡ root_length words.now },
}

impl<'a> Readable for Stated<'a> {
    ghost words = { λ r. r.words.now };

    ghost has_word = { λ r i. i < length r.words.now };

    ghost has_item = { λ r i. i ≤ items r.words.now };

    ghost has_set = { λ r s. (1 ≤ s) × (s ≤ sets r.words.now) };

    ghost has_place = { λ r k. k < 33 };

    ghost counts = { λ r. counts_inside r.words.now r.whole };

    ghost of_item = { λ r. item_inside r.words.now r.whole };

    ghost of_set = { λ r. set_inside r.words.now r.whole };

    ghost places = { λ r k h. h };

    ghost from_one = { λ r s h. h.0 };

    fn word(&self, i: usize) -> u16 {
        self.words[i]
    }
}

// (One reader for each word, under its definition's name: one reader of a place would leave the names to be written over it again.)

// "Word 1: items, 1..64."
#[tactic(auto, unfolding(spec::specs::Root::items))]
pub fn items<R: Readable>(root: R) -> u16
    ensures { result ≡ items (R.words root) }
{
    root.word(0)
}

// "Word 2: sets, 1..16."
#[tactic(auto, unfolding(spec::specs::Root::sets))]
pub fn sets<R: Readable>(root: R) -> u16
    ensures { result ≡ sets (R.words root) }
{
    root.word(1)
}

// "Then two words per item: type .. and length in words": the type of item i.
#[tactic(auto, unfolding(spec::specs::Root::item_type))]
pub fn item_type<R: Readable>(root: R, i: u16) -> u16
    requires { R.has_item root i }
    ensures { result ≡ item_type (R.words root) i }
{
    root.word(2 * (i as usize))
}

// The length of item i in words.
#[tactic(auto, unfolding(spec::specs::Root::item_length))]
pub fn item_length<R: Readable>(root: R, i: u16) -> u16
    requires { R.has_item root i }
    ensures { result ≡ item_length (R.words root) i }
{
    root.word(2 * (i as usize) + 1)
}

// "Then 33 words per set": where those of set s begin.
#[tactic(auto, unfolding(spec::specs::Root::description))]
pub fn description<R: Readable>(root: R, s: u16) -> usize
    requires { R.has_set root s }
    ensures value { result ≡ description (R.words root) s }
    ensures places { (k : ℕ) → R.has_place root k → R.has_word root (result + k) }
    ensures upper_bound { result < 4294967296 }
{
    let n = items(root);
    2 + 2 * (n as usize) + SET_WORDS * ((s as usize) - 1)
}

// "kind (1 manual master, 2 automatic master, 3 detail)"
#[tactic(auto, unfolding(spec::specs::Root::kind))]
pub fn kind<R: Readable>(root: R, s: u16) -> u16
    requires { R.has_set root s }
    ensures { result ≡ kind (R.words root) s }
{
    root.word(description(&root, s))
}

// "capacity 1..4,095"
#[tactic(auto, unfolding(spec::specs::Root::capacity))]
pub fn capacity<R: Readable>(root: R, s: u16) -> u16
    requires { R.has_set root s }
    ensures { result ≡ capacity (R.words root) s }
{
    root.word(description(&root, s) + 1)
}

// "item count 1..16"
#[tactic(auto, unfolding(spec::specs::Root::item_count))]
pub fn item_count<R: Readable>(root: R, s: u16) -> u16
    requires { R.has_set root s }
    ensures { result ≡ item_count (R.words root) s }
{
    root.word(description(&root, s) + 2)
}

// "key item number (0 for a detail)"
#[tactic(auto, unfolding(spec::specs::Root::key_item))]
pub fn key_item<R: Readable>(root: R, s: u16) -> u16
    requires { R.has_set root s }
    ensures { result ≡ key_item (R.words root) s }
{
    root.word(description(&root, s) + 3)
}

// "path count 0..4 (0 for a master)"
#[tactic(auto, unfolding(spec::specs::Root::path_count))]
pub fn path_count<R: Readable>(root: R, s: u16) -> u16
    requires { R.has_set root s }
    ensures { result ≡ path_count (R.words root) s }
{
    root.word(description(&root, s) + 4)
}

// The j-th item of set s.
#[tactic(auto, unfolding(spec::specs::Root::set_item))]
pub fn set_item<R: Readable>(root: R, s: u16, j: u16) -> u16
    requires set { R.has_set root s }
    requires place { R.has_place root (4 + j) }
    ensures { result ≡ set_item (R.words root) s j }
{
    root.word(description(&root, s) + 4 + (j as usize))
}

// "four triples of master set, search item, sort item (0: none)": of path p of set s the master, the search item, the sort item.
#[tactic(auto, unfolding(spec::specs::Root::path_master))]
pub fn path_master<R: Readable>(root: R, s: u16, p: u16) -> u16
    requires set { R.has_set root s }
    requires place { R.has_place root (18 + 3 * p) }
    ensures { result ≡ path_master (R.words root) s p }
{
    root.word(description(&root, s) + 18 + 3 * (p as usize))
}

#[tactic(auto, unfolding(spec::specs::Root::path_search))]
pub fn path_search<R: Readable>(root: R, s: u16, p: u16) -> u16
    requires set { R.has_set root s }
    requires place { R.has_place root (19 + 3 * p) }
    ensures { result ≡ path_search (R.words root) s p }
{
    root.word(description(&root, s) + 19 + 3 * (p as usize))
}

#[tactic(auto, unfolding(spec::specs::Root::path_sort))]
pub fn path_sort<R: Readable>(root: R, s: u16, p: u16) -> u16
    requires set { R.has_set root s }
    requires place { R.has_place root (20 + 3 * p) }
    ensures { result ≡ path_sort (R.words root) s p }
{
    root.word(description(&root, s) + 20 + 3 * (p as usize))
}

// What is counted from a root once, in a room that a call makes and lends. For set s, at s - 1: the paths leading to it, the words of
// its entry, and its start in the area. For path p of set s, at 4 (s - 1) + p - 1: the number of its head among those of its master.
// (Four arrays: a set's paths are counted while other sets are judged, and its start when all are, so an array of records would be
// filled a field at a time. The paths' is flat, as the list that `Slots` speaks of.)
#[derive(Clone, Copy)]
pub struct Plan {
    pub leads: [u16; 16],
    pub slots: [u16; 64],
    pub entries: [u16; 16],
    pub starts: [u32; 16],
}

impl Plan {
    // Room for a plan, of which nothing is counted yet.
    pub const ROOM: Plan = Plan {
        leads: [0; 16],
        slots: [0; 64],
        entries: [0; 16],
        starts: [0; 16],
    };
}

// The path of set s whose search item is a given one; 0 where there is none (its clause's definition has it so).
#[tactic(auto, using(std::proofs::lemmas::Bool::Decides::nat_tests), unfolding(spec::specs::Root::search_path, crate::specs::Ranges::last_of, spec::specs::Words::latest))]
pub fn search_path<R: Readable>(root: R, s: u16, item: u16) -> u16
    requires set { R.has_set root s }
    requires places { (p : ℕ) → 1 ≤ p → p ≤ path_count (R.words root) s → R.has_place root (19 + 3 * p) }
    ensures { result ≡ search_path (R.words root) s item }
{
    for p in (1..=path_count(&root, s)).rev() {
        if path_search(&root, s, p) == item {
            return p;
        }
    }
    0
}
