// "Each call is worked as if on a copy: a refusal at any step leaves the original." Every word that a step overwrites is put
// down in a journal first, and a refused call is rewound.
#![tactic(auto)]

ghost use Rattle.std.specs.Prelude.{◌≡◌, ◌∷◌, [], ◌+◌, ◌-◌, ◌*◌, ◌≤◌, ◌<◌, ◌^◌, length, take, drop, set, replicate};
ghost use Rattle.std.proofs.lemmas.List.Edits.{sets};
ghost use Rattle.spec.specs.Words.{long_words};

use sound::{Entry, Place};
use words::{high, lay, lay_zeros, low, part, put_word, word};

// The area that a call writes as if on a copy, and what the call overwrote, in a lent room: for each word its place and what stood
// there, as one number, and how many of them there are. A journal that has no room left takes no more, and then can't be rewound (a
// call that refuses before it writes lends an empty room). The room is lent, and no ArrayVec: its size would
// stand in the type of every step. (An entry is one number of 64 bits, as the definitions have it: a struct of place and word would be
// twice as long, and the room is cleared for each line.)
#[derive(Drop)]
pub struct Journal<'a> {
    area: &'a mut [u16],
    room: &'a mut [u64],
    count: usize,
}

impl<'a> Journal<'a> {
    ghost use Rattle.journal.specs.Journal.{rewound, written, Noted, Back, Kept};

    // A journal with nothing put down yet. (`lent` and `held`, here and where a journal is handed on: a caller knows by these clauses
    // alone that its area is the one that was written, and its room the one that was filled.)
    pub fn over(area: &'a mut [u16], room: &'a mut [u64]) -> Journal<'a>
        ensures lent { result.area.ghost_name ≡ area.entry.ghost_name }
        ensures held { result.room.ghost_name ≡ room.entry.ghost_name }
        ensures area { result.area.now ≡ area.old }
        ensures empty { result.count ≡ 0 }
        ensures room { result.room.now ≡ room.old }
    {
        Journal::resumed(area, room, 0)
    }

    // A journal that has so many entries already; more than its room holds are a full room. (This and `count` are for a caller that has
    // area, room and count by themselves.)
    pub fn resumed(area: &'a mut [u16], room: &'a mut [u64], count: usize) -> Journal<'a>
        ensures lent { result.area.ghost_name ≡ area.entry.ghost_name }
        ensures held { result.room.ghost_name ≡ room.entry.ghost_name }
        ensures area { result.area.now ≡ area.old }
        ensures count { result.count ≡ count }
        ensures room { result.room.now ≡ room.old }
    {
        Journal { area, room, count }
    }

    // How many entries it has.
    pub fn count(&self) -> usize
        ensures { result ≡ self.now.count }
    {
        let Journal { count, .. } = self;
        *count
    }

    // The area as the call has written it so far.
    pub fn area(&self) -> &[u16]
        ensures { result.now ≡ self.now.area.now }
    {
        self.area
    }

    // One entry: a place and the word that stands there.
    fn note(&mut self, i: usize, old: u16)
        requires { i < 2 ^ 48 }
        ensures { Noted self.old i old self.new }
    {
        if self.count < self.room.len() {
            self.room[self.count] = (i as u64) * 65536 + (old as u64);
            self.count += 1;
        }
    }

    // A word is replaced, at any place that an entry has bits for.
    #[tactic(auto, using(crate::proofs::Laws::set_there))]
    pub fn store_at(&mut self, i: usize, v: u16)
        requires { i < 2 ^ 48 }
        ensures is { self.new.area.now ≡ set self.old.area.now i v }
        ensures back { Back self.old 1 self.new }
    {
        let old = word(self.area(), i);
        self.note(i, old);
        put_word(self.area, i, v);
    }

    // The same, at a sound place. (Two, since the other's bound is promised.)
    pub fn store(&mut self, p: Place, v: u16)
        ensures is { self.new.area.now ≡ set self.old.area.now p v }
        ensures back { Back self.old 1 self.new }
    {
        self.store_at(p.at, v);
    }

    // A two-word number is replaced.
    #[tactic(auto, using(crate::proofs::Laws::stored_long))]
    pub fn store_long(&mut self, p: Place, v: u32)
        ensures is { self.new.area.now ≡ sets self.old.area.now p (long_words v) }
        ensures back { Back self.old 2 self.new }
    {
        self.keep(p.at, 2);
        put_word(self.area, p.at, high(v));
        put_word(self.area, p.at + 1, low(v));
    }

    // The len words from a place on are put down, before that part is lent to be written.
    #[tactic(auto, using(crate::proofs::Laws::keep_none, crate::proofs::Laws::keep_more, crate::proofs::Laws::kept))]
    fn keep(&mut self, at: usize, len: usize)
        requires { at + len < 2 ^ 48 }
        ensures { Kept self.old at len self.new }
    {
        for i in at..at + len {
            let stood = word(self.area(), i);
            self.note(i, stood);
        }
    }

    // Words are laid over those from a place on.
    pub fn store_words(&mut self, at: usize, vs: &[u16])
        requires { at + length vs.now < 2 ^ 48 }
        ensures is { self.new.area.now ≡ sets self.old.area.now at vs.now }
        ensures back { Back self.old (length vs.now) self.new }
    {
        self.keep(at, vs.len());
        lay(self.area, at, vs);
    }

    // An entry's words are laid over those from a place on.
    pub fn store_run(&mut self, p: Place, vs: &Entry)
        ensures is { self.new.area.now ≡ sets self.old.area.now p vs.now }
        ensures back { Back self.old (length vs.now) self.new }
    {
        self.store_words(p.at, vs.words);
    }

    // The len words from a place on become 0, be they more than a Place has behind it.
    pub fn store_zeros(&mut self, at: usize, len: usize)
        requires { at + len < 2 ^ 48 }
        ensures is { self.new.area.now ≡ sets self.old.area.now at (replicate len 0) }
        ensures back { Back self.old len self.new }
    {
        self.keep(at, len);
        lay_zeros(self.area, at, len);
    }

    // The words of a run are laid over those from another place on, up to the last place that an entry has bits for. The longest
    // record has 557 words: five synonym words, eight heads, and sixteen items of 32 words.
    pub fn store_moved(&mut self, from: usize, to: usize, len: usize)
        requires { (len ≤ 557) × (to + len < 2 ^ 48) }
        ensures is { self.new.area.now ≡ sets self.old.area.now to (take len (drop from self.old.area.now)) }
        ensures back { Back self.old len self.new }
    {
        let mut room = [0u16; 557];
        let run = part(self.area(), from, len);
        let taken = &mut room[..run.len()];
        taken.copy_from_slice(run);
        self.store_words(to, taken);
    }

    // The area as it was before the stores that the journal has; the journal stays as it is.
    #[tactic(auto, using(std::proofs::lemmas::List::take_min, crate::proofs::Laws::rewind_end, crate::proofs::Laws::rewind_turn))]
    pub fn rewind(&mut self)
        ensures lent { self.new.area.ghost_name ≡ self.old.area.ghost_name }
        ensures held { self.new.room.ghost_name ≡ self.old.room.ghost_name }
        ensures is { self.new.area.now ≡ rewound (written self.old) self.old.area.now }
        ensures room { self.new.room.now ≡ self.old.room.now }
        ensures count { self.new.count ≡ self.old.count }
    {
        for k in (0..self.count.min(self.room.len())).rev() {
            let e = self.room[k];
            put_word(self.area, (e / 65536) as usize, (e % 65536) as u16);
        }
    }
}
