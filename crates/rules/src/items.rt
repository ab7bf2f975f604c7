// Item numbers in the bits of a word.
ghost use Rattle.std.specs.Prelude.{◌≡◌, true, ◌&&◌, ◌||◌, not, ℕ, eqb, ◌≤◌};
ghost use Rattle.rules.specs.Rules.{held};

// Items by their numbers, each up to 64: item i is bit i - 1.
#[derive(Clone, Copy)]
pub struct ItemSet {
    pub bits: u64,
}

impl ItemSet {
    pub const NONE: ItemSet = ItemSet { bits: 0 };

    // Whether item i is among them.
    #[tactic(auto, using(std::proofs::lemmas::Bool::Decides::nat_tests), unfolding(crate::specs::Rules::held))]
    pub fn has(self, i: u16) -> bool
        requires { (1 ≤ i) × (i ≤ 64) }
        ensures { result ≡ held self.bits i }
    {
        (self.bits >> (i - 1)) % 2 == 1
    }

    // Whether a number is that of one of them.
    #[tactic(auto, using(std::proofs::lemmas::Bool::Decides::nat_tests), unfolding(crate::specs::Rules::held))]
    pub fn has_number(self, n: u16) -> bool
        ensures { result ≡ held self.bits n }
    {
        1 <= n && n <= 64 && self.has(n)
    }

    // These and item i.
    #[tactic(auto, using(crate::proofs::Bits::one_bit, crate::proofs::Bits::held_with))]
    pub fn with(self, i: u16) -> ItemSet
        requires { (1 ≤ i) × (i ≤ 64) }
        ensures { (x : ℕ) → held result.bits x ≡ held self.bits x || eqb i x }
    {
        ItemSet {
            bits: self.bits | 1 << (i - 1),
        }
    }

    // These but for item i, which is among them.
    #[tactic(auto, using(std::proofs::lemmas::Bool::Decides::nat_tests, crate::proofs::Bits::one_bit, crate::proofs::Bits::held_without), unfolding(crate::specs::Rules::held))]
    pub fn without(self, i: u16) -> ItemSet
        requires { held self.bits i ≡ true }
        ensures { (x : ℕ) → held result.bits x ≡ held self.bits x && not (eqb i x) }
    {
        ItemSet {
            bits: self.bits ^ 1 << (i - 1),
        }
    }
}
