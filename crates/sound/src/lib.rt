// What the steps of a call are handed, sound as a good root has them: a master, a detail, a path of it, or its places alone, an entry,
// and a place in the area. (Four of them hold a plain value alone: each has its own invariant, and a type generic over it would need a
// trait to name it.)
#![tactic(auto)]

ghost use Rattle.std.specs.Prelude.{◌≡◌, ◌+◌, ◌≤◌, ◌<◌, ◌^◌, ℕ, List, length};
ghost use Rattle.spec.specs.Area.{value};
ghost use Rattle.spec.specs.declared.Master.{Master as MasterValue};
ghost use Rattle.spec.specs.declared.Path.{Path as PathValue};
ghost use Rattle.spec.specs.declared.Shape.{Shape as ShapeValue};
ghost use Rattle.sound.specs.Sound.{SoundShape, SoundPlaces, Placed};

use spec::{Field, Master, Path, Shape};
use std::marker::Model;
use words::part;

// A master: it has records, no more than 4,095; each begins with five synonym words, and has no more than 557 words.
#[derive(Clone, Copy)]
pub struct SoundMaster {
    pub plain: Master,
}

impl Model for SoundMaster {
    ghost Value = { MasterValue };

    ghost view = { λ s. s.plain };

    ghost invariant = { λ s. SoundShape s.plain.shape };

    ghost inverse = { λ m. record { plain = m } };
}

// A detail: it has no more than 4,095 records.
#[derive(Clone, Copy)]
pub struct SoundDetail {
    pub plain: Shape,
}

impl Model for SoundDetail {
    ghost Value = { ShapeValue };

    ghost view = { λ s. s.plain };

    ghost invariant = { λ s. s.plain.cap ≤ 4095 };

    ghost inverse = { λ s. record { plain = s } };
}

// A path: its master is sound, and the words of a head and of a pair of links stand at places that one word numbers.
#[derive(Clone, Copy)]
pub struct SoundPath {
    pub plain: Path,
}

impl Model for SoundPath {
    ghost Value = { PathValue };

    ghost view = { λ s. s.plain };

    ghost invariant = { λ s. SoundPlaces s.plain };

    ghost inverse = { λ p. record { plain = p } };
}

impl SoundPath {
    // The master that it leads to.
    pub fn to(self) -> SoundMaster
        ensures { result ≡ self.to }
    {
        SoundMaster {
            plain: self.plain.to,
        }
    }

    // Its places alone.
    pub fn placed(self) -> PlacedPath
        ensures { result ≡ self }
    {
        PlacedPath { plain: self.plain }
    }
}

// A path by its places alone, whatever its master is: the words of a head and of a pair of links stand at places that one word numbers.
#[derive(Clone, Copy)]
pub struct PlacedPath {
    pub plain: Path,
}

impl Model for PlacedPath {
    ghost Value = { PathValue };

    ghost view = { λ s. s.plain };

    ghost invariant = { λ s. Placed s.plain };

    ghost inverse = { λ p. record { plain = p } };
}

// The words of an entry or a key: no more of them than one word can count.
#[derive(Drop)]
pub struct Entry<'a> {
    pub words: &'a [u16],
}

impl<'a> Model for Entry<'a> {
    ghost Value = { List ℕ };

    ghost view = { λ e. e.words.now };

    ghost invariant = { λ e. length e.words.now ≤ 65535 };
}

impl<'a> Entry<'a> {
    // The value of an item in it.
    pub fn value(&self, f: Field) -> Entry<'a>
        ensures { result ≡ value f self.now }
    {
        Entry {
            words: part(self.words, f.at as usize, f.size as usize),
        }
    }
}

// A place in the area: it and as many places behind it as one word can count have numbers of 48 bits.
#[derive(Clone, Copy)]
pub struct Place {
    pub at: usize,
}

impl Model for Place {
    ghost Value = { ℕ };

    ghost view = { λ p. p.at };

    ghost invariant = { λ p. p.at + 65535 < 2 ^ 48 };

    ghost inverse = { λ n. record { at = n } };
}
