// The rules of a root's sets and of their paths.
ghost use Rattle.std.specs.Prelude.{◌≡◌, true, ◌||◌, ◌+◌, ◌-◌, ◌*◌, ◌^◌, ◌≤◌, ◌<◌, length, is_some, IfSome};
ghost use Rattle.std.proofs.Props.{props};
ghost use Rattle.spec.specs.Words.{all};
ghost use Rattle.spec.specs.Root.{items, sets, item_type, description, item_count, key_item, path_count, set_item, is_unsigned, is_text, item_listed, kind_good, set_good, names_master, fits_key, sort_good, path_good, leading, leading_good};
ghost use Rattle.spec.specs.Layout.{items_length, entry_length};
ghost use Rattle.root.specs.Plan.{Leads, Slots, Entries, Filled};
ghost use Rattle.rules.specs.Rules.{unused, items_good, set_judged, Holds, Holds-prop, Spare, Counted, HeadGood};

use crate::items::ItemSet;
use root::{ItemType, Kind, Plan, Stated};
use spec::{MAX_CAPACITY, MAX_PATHS, MAX_SET_ITEMS};

// A root with its counts in their limits and its length as they say, whose items keep their rules.
#[derive(Clone, Copy)]
pub struct Head<'a> {
    pub root: Stated<'a>,
    pub ghost good: { HeadGood root.words.now } by { Prim.hlevel props },
}

// A set of such a root, by its number.
#[derive(Clone, Copy)]
pub struct Set<'a> {
    pub root: Stated<'a>,
    pub number: u16,
    pub ghost head: { HeadGood root.words.now } by { Prim.hlevel props },
    pub ghost there: { (1 ≤ number) × (number ≤ sets root.words.now) },
}

// The first items of a set: their numbers, which differ, and their words together.
#[derive(Clone, Copy)]
struct Listed {
    items: ItemSet,
    length: u16,
}

// A set that keeps the rules about it alone, with its items and the words of its entry.
#[derive(Clone, Copy)]
struct GoodSet<'a> {
    set: Set<'a>,
    items: ItemSet,
    length: u16,
    ghost good: { set_good set.root.words.now set.number ≡ true },
    ghost few_paths: { path_count set.root.words.now set.number ≤ 4 },
    ghost holds: { Holds set.root.words.now set.number (item_count set.root.words.now set.number) items.bits } by { Holds-prop _ _ _ _ },
    ghost measured: { length ≡ entry_length set.root.words.now set.number },
}

// "Unused places are 0": the n words after a place, all looked at.
#[tactic(auto, using(crate::proofs::Steps::steps, crate::proofs::Unused::zeros_turn))]
fn zeros(root: Stated, at: usize, n: usize) -> bool
    requires n_in_bounds { at + n < length root.words.now }
    requires n_bound { at + n < 2 ^ 62 }
    ensures { result ≡ all n (unused root.entry.words.now at) }
{
    let mut seen = 0;
    for word in &root.words[at + 1..at + 1 + n] {
        seen |= *word;
    }
    seen == 0
}

// The same. From eight words on they are two runs of eight, which share what is less than sixteen: a run of a fixed
// length has no loop.
#[tactic(auto, using(crate::proofs::Unused::blank_twice))]
fn blank(root: Stated, at: usize, n: usize) -> bool
    requires n_in_bounds { at + n < length root.words.now }
    requires n_bound { at + n < 2 ^ 62 }
    requires n_bound_2 { n ≤ 16 }
    ensures { result ≡ all n (unused root.entry.words.now at) }
{
    if n < 8 {
        zeros(root, at, n)
    } else {
        zeros(root, at, 8) && zeros(root, at + (n - 8), 8)
    }
}

// (The stages of a root's judging are types: `Head`, `Set`, `GoodSet`. What is known of the items and paths seen so far is told by
// clauses: a type of it would be made anew at each turn.)
impl<'a> Set<'a> {
    // "a set's items exist and differ": the j-th, if it does, beside those before it.
    #[tactic(auto, using(std::proofs::lemmas::Bool::Decides::nat_tests), unfolding(spec::specs::Root::item_listed, crate::specs::Rules::Holds))]
    fn item_listed(&self, j: u16, before: ItemSet) -> Option<u16>
        requires j_bound { j ≤ 16 }
        requires holds { Holds self.now.root.words.now self.now.number (j - 1) before.bits }
        ensures value { is_some result ≡ item_listed self.now.root.words.now self.now.number j }
        ensures item { IfSome result (λ x. (x ≡ set_item self.now.root.words.now self.now.number j) × (1 ≤ x) × (x ≤ items self.now.root.words.now)) }
    {
        let x = root::set_item(self.root, self.number, j);
        (1 <= x && x <= root::items(self.root) && !before.has(x)).then_some(x)
    }

    // The first n items.
    #[tactic(auto, using(crate::proofs::Steps::steps, crate::proofs::Steps::all_ends, crate::proofs::RootRules::short, crate::proofs::Bits::held_none), unfolding(spec::specs::Layout::items_length, spec::specs::Root::among, crate::specs::Rules::Holds))]
    fn first_items(&self, n: u16) -> Option<Listed>
        requires n_bound { n ≤ 16 }
        ensures value { is_some result ≡ all n (item_listed self.now.root.words.now self.now.number) }
        ensures holds { IfSome result (λ l. Holds self.now.root.words.now self.now.number n l.items.bits) }
        ensures length_value { IfSome result (λ l. l.length ≡ items_length self.now.root.words.now self.now.number n) }
    {
        let mut items = ItemSet::NONE;
        let mut length = 0;
        for j in 1..n + 1 {
            let x = self.item_listed(j, items)?;
            items = items.with(x);
            length += root::item_length(self.root, x);
        }
        Some(Listed { items, length })
    }

    // "item count 1..16", and the 16 item numbers: the listed ones, and 0 after them.
    #[tactic(auto, using(std::proofs::lemmas::Bool::Decides::nat_tests, crate::proofs::Unused::items_parts), unfolding(crate::specs::Rules::items_good, spec::specs::Layout::entry_length))]
    fn items_good(&self) -> Option<Listed>
        ensures value { is_some result ≡ items_good self.now.root.words.now self.now.number }
        ensures holds { IfSome result (λ l. Holds self.now.root.words.now self.now.number (item_count self.now.root.words.now self.now.number) l.items.bits) }
        ensures length_value { IfSome result (λ l. l.length ≡ entry_length self.now.root.words.now self.now.number) }
    {
        let n = root::item_count(self.root, self.number);
        if n < 1 || MAX_SET_ITEMS < n {
            return None;
        }
        let list = self.first_items(n)?;
        let at = root::description(self.root, self.number) + 4 + (n as usize);
        blank(self.root, at, (MAX_SET_ITEMS - n) as usize).then_some(list)
    }

    // "key item number (0 for a detail); path count 0..4 (0 for a master)", "a master's key is among them"
    #[tactic(auto, using(std::proofs::lemmas::Bool::Decides::nat_tests), unfolding(spec::specs::Root::kind_good, crate::specs::Rules::Holds))]
    fn kind_good(&self, items: ItemSet) -> bool
        requires holds { Holds self.now.root.words.now self.now.number (item_count self.now.root.words.now self.now.number) items.bits }
        ensures { result ≡ kind_good self.now.root.words.now self.now.number }
    {
        let key = root::key_item(self.root, self.number);
        let n = root::path_count(self.root, self.number);
        match Kind::try_from(root::kind(self.root, self.number)) {
            Ok(Kind::Detail) => key == 0 && n <= MAX_PATHS,
            Ok(_) => n == 0 && items.has_number(key),
            Err(_) => false,
        }
    }

    // The rules of the set by itself.
    #[tactic(auto, using(std::proofs::lemmas::Bool::Decides::nat_tests, root::specs::Good::paths_few), unfolding(spec::specs::Root::set_good, crate::specs::Rules::items_good))]
    fn good(&self) -> Option<GoodSet<'a>>
        ensures value { is_some result ≡ set_good self.now.root.words.now self.now.number }
        ensures same { IfSome result (λ s. s.set ≡ self.now) }
    {
        let capacity = root::capacity(self.root, self.number);
        if capacity < 1 || MAX_CAPACITY < capacity {
            return None;
        }
        let Listed { items, length } = self.items_good()?;
        if self.kind_good(items) {
            Some(GoodSet {
                set: *self,
                items,
                length,
            })
        } else {
            None
        }
    }

    // The set judged, but for the paths that lead to it, its entry measured, and its own paths counted.
    #[tactic(auto, using(crate::proofs::Unused::paths_parts, crate::proofs::Counting::counted_set), unfolding(crate::specs::Rules::set_judged))]
    fn judged(&self, plan: &mut Plan) -> bool
        requires counted { Counted self.now.root.words.now self.now.number 0 plan.old.leads plan.old.slots }
        requires filled { Filled (entry_length self.now.root.words.now) self.now.number plan.old.entries }
        ensures value { result ≡ set_judged self.now.root.words.now self.now.number }
        ensures counted_2 { result ≡ true → Counted self.now.root.words.now (self.now.number + 1) 0 plan.new.leads plan.new.slots }
        ensures filled_2 { result ≡ true → Filled (entry_length self.now.root.words.now) (self.now.number + 1) plan.new.entries }
    {
        let Some(set) = self.good() else {
            return false;
        };
        plan.entries[(self.number as usize) - 1] = set.length;
        set.paths_good(plan) && set.rest_unused()
    }

    // "an automatic master has only its key and at least one path leading to it; at most 8 paths lead to a master"
    #[tactic(auto, using(std::proofs::lemmas::Bool::Decides::nat_tests), unfolding(spec::specs::Root::leading_good))]
    fn leading_good(&self, lead: u16) -> bool
        requires { lead ≡ leading self.now.root.words.now self.now.number (sets self.now.root.words.now) }
        ensures { result ≡ leading_good self.now.root.words.now self.now.number }
    {
        match Kind::try_from(root::kind(self.root, self.number)) {
            Ok(Kind::Detail) => true,
            Ok(Kind::Manual) => lead <= 8,
            _ => root::item_count(self.root, self.number) == 1 && 1 <= lead && lead <= 8,
        }
    }
}

// "A path names a master set"
#[tactic(auto, using(std::proofs::lemmas::Bool::Decides::nat_tests), unfolding(spec::specs::Root::names_master))]
fn names_master(root: Stated, m: u16) -> bool
    ensures { result ≡ names_master root.entry.words.now m }
{
    1 <= m
        && m <= root::sets(root)
        && matches!(
            Kind::try_from(root::kind(root, m)),
            Ok(Kind::Manual | Kind::Automatic)
        )
}

// "a search item has its master's key type and length"
#[tactic(auto, using(std::proofs::lemmas::Bool::Decides::nat_tests), unfolding(spec::specs::Root::fits_key))]
fn fits_key(root: Stated, i: u16, m: u16) -> bool
    requires i_bound { i ≤ items root.words.now }
    requires m_bound { (1 ≤ m) × (m ≤ sets root.words.now) }
    ensures { result ≡ fits_key root.entry.words.now i (key_item root.entry.words.now m) }
{
    let k = root::key_item(root, m);
    root::item_type(root, i) == root::item_type(root.words, k)
        && root::item_length(root, i) == root::item_length(root.words, k)
}

// "a sort item is K or X"
fn sortable(root: Stated, i: u16) -> bool
    requires { i ≤ items root.words.now }
    ensures { result ≡ (is_unsigned (item_type root.entry.words.now i) || is_text (item_type root.entry.words.now i)) }
{
    matches!(
        ItemType::try_from(root::item_type(root, i)),
        Ok(ItemType::Unsigned | ItemType::Text)
    )
}

// (A path goes by its number, at most 4: of a set that is still judged a path may be no good one, so a type of it would say no more.)
impl<'a> GoodSet<'a> {
    // "its items are among its own set's items", "a sort item is K or X and isn't that path's search item" (0: none)
    #[tactic(auto, using(std::proofs::lemmas::Bool::Decides::nat_tests, crate::proofs::Paths::exists), unfolding(spec::specs::Root::sort_good, crate::specs::Rules::Holds))]
    fn sort_good(&self, p: u16) -> bool
        requires { p ≤ 4 }
        ensures { result ≡ sort_good self.now.set.root.words.now self.now.set.number p }
    {
        let i = root::path_sort(self.set.root, self.set.number, p);
        let search = root::path_search(self.set.root, self.set.number, p);
        i == 0 || i != search && self.items.has_number(i) && sortable(self.set.root, i)
    }

    // The rules of path p. One test of the items left says both "its items are among its own set's items" and "search items
    // of one set differ".
    #[tactic(auto, using(std::proofs::lemmas::Bool::Decides::nat_tests, crate::proofs::Paths::exists), unfolding(spec::specs::Root::path_good, spec::specs::Root::search_good, spec::specs::Root::names_master, crate::specs::Rules::Spare))]
    fn path_good(&self, p: u16, spare: ItemSet) -> bool
        requires p_bound { p ≤ 4 }
        requires spare { Spare self.now.set.root.words.now self.now.set.number (p - 1) spare.bits }
        ensures { result ≡ path_good self.now.set.root.words.now self.now.set.number p }
    {
        let m = root::path_master(self.set.root, self.set.number, p);
        let i = root::path_search(self.set.root, self.set.number, p);
        names_master(self.set.root, m)
            && spare.has_number(i)
            && fits_key(self.set.root, i, m)
            && self.sort_good(p)
    }

    // The search item of path p leaves the spare ones.
    #[tactic(auto, using(crate::proofs::Paths::spare_held, crate::proofs::Paths::spare_turn))]
    fn searched(&self, p: u16, spare: ItemSet) -> ItemSet
        requires p_bound { (1 ≤ p) × (p ≤ 4) }
        requires p_value { path_good self.now.set.root.words.now self.now.set.number p ≡ true }
        requires spare { Spare self.now.set.root.words.now self.now.set.number (p - 1) spare.bits }
        ensures { Spare self.now.set.root.words.now self.now.set.number p result.bits }
    {
        spare.without(root::path_search(self.set.root, self.set.number, p))
    }

    // Path p takes the next head of its master.
    #[tactic(auto, using(crate::proofs::Paths::to_low, crate::proofs::Paths::to_place))]
    fn count(&self, p: u16, plan: &mut Plan)
        requires p_bound { (1 ≤ p) × (p ≤ 4) }
        requires p_value { path_good self.now.set.root.words.now self.now.set.number p ≡ true }
        requires counted { Counted self.now.set.root.words.now self.now.set.number (p - 1) plan.old.leads plan.old.slots }
        ensures counted_2 { Counted self.now.set.root.words.now self.now.set.number p plan.new.leads plan.new.slots }
        ensures same { plan.new.entries ≡ plan.old.entries }
    {
        let master = (root::path_master(self.set.root, self.set.number, p) as usize) - 1;
        let path = 4 * ((self.set.number as usize) - 1) + ((p as usize) - 1);
        plan.slots[path] = plan.leads[master];
        plan.leads[master] += 1;
    }

    // The paths of the set, judged and counted.
    #[tactic(auto, using(crate::proofs::Steps::steps, crate::proofs::Paths::spare_start))]
    fn paths_good(&self, plan: &mut Plan) -> bool
        requires counted { Counted self.now.set.root.words.now self.now.set.number 0 plan.old.leads plan.old.slots }
        ensures value { result ≡ all (path_count self.now.set.root.words.now self.now.set.number) (path_good self.now.set.root.words.now self.now.set.number) }
        ensures counted_2 { result ≡ true → Counted self.now.set.root.words.now self.now.set.number (path_count self.now.set.root.words.now self.now.set.number) plan.new.leads plan.new.slots }
        ensures same { plan.new.entries ≡ plan.old.entries }
    {
        let mut spare = self.items;
        for p in 1..root::path_count(self.set.root, self.set.number) + 1 {
            if !self.path_good(p, spare) {
                return false;
            }
            spare = self.searched(p, spare);
            self.count(p, plan);
        }
        true
    }

    // "Unused places are 0": the triples after the path count.
    fn rest_unused(&self) -> bool
        ensures { result ≡ all (12 - 3 * path_count self.now.set.root.words.now self.now.set.number) (unused self.now.set.root.words.now (description self.now.set.root.words.now self.now.set.number + 20 + 3 * path_count self.now.set.root.words.now self.now.set.number)) }
    {
        let n = root::path_count(self.set.root, self.set.number) as usize;
        let at = root::description(self.set.root, self.set.number) + 20 + 3 * n;
        blank(self.set.root, at, 12 - 3 * n)
    }
}

impl<'a> Head<'a> {
    // Set s.
    fn set(&self, s: u16) -> Set<'a>
        requires { (1 ≤ s) × (s ≤ sets self.now.root.words.now) }
        ensures root { result.root ≡ self.now.root }
        ensures number { result.number ≡ s }
    {
        Set {
            root: self.root,
            number: s,
        }
    }

    // The sets judged, but for the paths that lead to them, their entries measured, and all paths counted.
    #[tactic(auto, using(crate::proofs::Steps::steps, crate::proofs::Steps::all_ends, crate::proofs::Counting::leads_whole, crate::proofs::Counting::slots_whole), unfolding(root::specs::Plan::Entries))]
    pub fn sets_judged(&self, plan: &mut Plan) -> bool
        ensures value { result ≡ all (sets self.now.root.words.now) (set_judged self.now.root.words.now) }
        ensures leads { result ≡ true → Leads self.now.root.words.now plan.new.leads }
        ensures slots { result ≡ true → Slots self.now.root.words.now plan.new.slots }
        ensures entries { result ≡ true → Entries self.now.root.words.now plan.new.entries }
    {
        plan.leads = [0; 16];
        for s in 1..root::sets(self.root) + 1 {
            if !self.set(s).judged(plan) {
                return false;
            }
        }
        true
    }

    // Each set, by the paths counted.
    #[tactic(auto, using(crate::proofs::Steps::steps, crate::proofs::Steps::all_ends), unfolding(root::specs::Plan::Leads))]
    pub fn all_leading_good(&self, plan: &Plan) -> bool
        requires { Leads self.now.root.words.now plan.now.leads }
        ensures { result ≡ all (sets self.now.root.words.now) (leading_good self.now.root.words.now) }
    {
        for s in 1..root::sets(self.root) + 1 {
            if !self.set(s).leading_good(plan.leads[(s as usize) - 1]) {
                return false;
            }
        }
        true
    }
}
