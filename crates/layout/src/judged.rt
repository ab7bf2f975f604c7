// Whether root and area go together (−91, −92): how long the sets of a good root are, and where each begins.
#![tactic(auto, using(crate::proofs::Good::good_root))]

ghost use Rattle.std.specs.Prelude.{◌≡◌, true, ◌≤◌, IfOk, IfSome, is_some};
ghost use Rattle.spec.specs.Root.{items, sets, item_type, kind, leading, root_good};
ghost use Rattle.spec.specs.Layout.{front_words, map_words, size_of};
ghost use Rattle.root.specs.Codes.{kind_code, type_code};
ghost use Rattle.root.specs.Plan.{Starts};
ghost use Rattle.layout.specs.Views.{Counted};
ghost use Rattle.layout.specs.Known.{known_out, known_by};
ghost use Rattle.std.proofs.Props.{props};

use crate::sets::Root;
use root::{ItemType, Kind, Plan, Stated};
use spec::{HEAD_WORDS, LEAD_WORDS, LINE_WORDS, Refusal, SYNONYM_WORDS};

// A root that keeps its rules, with what its judging counted.
#[derive(Clone, Copy)]
struct Judged<'a> {
    root: Stated<'a>,
    plan: &'a Plan,
    ghost counted: { Counted root.words.now plan.now } by { Prim.hlevel props },
}

// A set of a root that keeps its rules, by its number: what its words say. (The one of `rules` is of a root
// that is still judged; `Set` has its root's plan, of which there is none yet here.)
#[derive(Clone, Copy)]
pub struct RuledSet<'a> {
    pub root: Stated<'a>,
    pub number: u16,
    pub ghost good: { root_good root.words.now ≡ true },
    pub ghost there: { (1 ≤ number) × (number ≤ sets root.words.now) },
}

// "Map: one bit per record": its words.
pub fn map_words(cap: u32) -> u32
    requires { cap ≤ 65535 }
    ensures { result ≡ map_words cap }
{
    (cap + 15) / 16
}

impl<'a> RuledSet<'a> {
    // "kind (1 manual master, 2 automatic master, 3 detail)"; a good root has no other.
    pub fn kind(&self) -> Kind
        ensures { kind_code result ≡ kind self.now.root.words.now self.now.number }
    {
        match Kind::try_from(root::kind(self.root, self.number)) {
            Ok(kind) => kind,
            Err(_) => unreachable!(),
        }
    }

    // "type (1 = I signed, 2 = K unsigned, 3 = X characters)"; an item of a good root has no other.
    pub fn type_of(&self, item: u16) -> ItemType
        requires { (1 ≤ item) × (item ≤ items self.now.root.words.now) }
        ensures { type_code result ≡ item_type self.now.root.words.now item }
    {
        match ItemType::try_from(root::item_type(self.root, item)) {
            Ok(item_type) => item_type,
            Err(_) => unreachable!(),
        }
    }

    // "Detail record: for each path a backward and a forward link"; "Master record: five synonym words; five words of chain head
    // for each path leading here"
    pub fn front_words(&self, lead: u16) -> u16
        requires { lead ≡ leading self.now.root.words.now self.now.number (sets self.now.root.words.now) }
        ensures { result ≡ front_words self.now.root.words.now self.now.number }
    {
        match self.kind() {
            Kind::Detail => LINE_WORDS * root::path_count(self.root, self.number),
            _ => SYNONYM_WORDS + HEAD_WORDS * lead,
        }
    }
}

impl<'a> Judged<'a> {
    // The words of set s: "two words .., then the map, then the records".
    fn size_of(&self, s: u16) -> u32
        requires { (1 ≤ s) × (s ≤ sets self.now.root.words.now) }
        ensures { result ≡ size_of self.now.root.words.now s }
    {
        let k = s as usize - 1;
        let cap = root::capacity(self.root, s) as u32;
        let set = RuledSet {
            root: self.root,
            number: s,
        };
        let width = set.front_words(self.plan.leads[k]) + self.plan.entries[k];
        u32::from(LEAD_WORDS) + map_words(cap) + cap * width as u32
    }

    // "Sets follow one another.": the start of each. (By the place: the sum that is stored goes on from set to set.)
    #[tactic(auto, unfolding(root::specs::Plan::Starts), using(crate::proofs::Good::good_root, crate::proofs::Starts::start_first, crate::proofs::Starts::start_more))]
    fn starts(&self) -> [u32; 16]
        ensures { Starts self.now.root.words.now result }
    {
        let mut starts = [0u32; 16];
        let mut at = 0;
        for k in 0..root::sets(self.root) {
            starts[k as usize] = at;
            at += self.size_of(k + 1);
        }
        starts
    }
}

// −91: the root, if it keeps its rules. What is counted from it goes into the plan that is lent.
#[tactic(auto, unfolding(root::specs::Plan::Leads, root::specs::Plan::Slots, root::specs::Plan::Entries, root::specs::Plan::Starts), using(crate::proofs::Good::good_root))]
pub fn ruled<'a>(words: &'a [u16], plan: &'a mut Plan) -> Option<Root<'a>>
    ensures good { is_some result ≡ root_good words.now }
    ensures words { IfSome result (λ root. root.words.now ≡ words.now) }
{
    let root = rules::root_judged(words, plan)?;
    let starts = Judged { root, plan }.starts();
    plan.starts = starts;
    Some(Root { words, plan })
}

// −91, −92: the root, if it keeps its rules and the area is as long as it means.
#[tactic(auto, unfolding(crate::specs::Known::known_by))]
pub fn known<'a>(words: &'a [u16], area: usize, plan: &'a mut Plan) -> Result<Root<'a>, Refusal>
    ensures words { IfOk result (λ root. root.words.now ≡ words.now) }
    ensures is { known_out result ≡ known_by words.now area }
{
    let Some(root) = ruled(words, plan) else {
        return Err(Refusal::BadRoot);
    };
    if area == root.area_length() as usize {
        Ok(root)
    } else {
        Err(Refusal::BadLength)
    }
}
