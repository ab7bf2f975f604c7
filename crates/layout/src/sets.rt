// The sets of a good root as plain numbers: where each stands, a master's key and heads, a detail's paths.
#![tactic(auto, using(crate::proofs::Good::good_root))]

ghost use Rattle.std.specs.Prelude.{◌≡◌, true, ◌+◌, ◌-◌, ◌*◌, ◌≤◌, IfSome, IfNone};
ghost use Rattle.spec.specs.Root.{sets, kind, path_count, path_master, path_search, path_sort, leading, has_item, search_path};
ghost use Rattle.spec.specs.Layout.{entry_length, field_of, head_of, sort_of, heads_of, start_of, area_length};
ghost use Rattle.root.specs.Codes.{kind_code};
ghost use Rattle.root.specs.Plan.{Planned};
ghost use Rattle.layout.specs.Views.{Shaped, Mastered, Sorted, Pathed};
ghost use Rattle.std.proofs.Props.{props};

use crate::judged::{RuledSet, map_words};
use arrayvec::ArrayVec;
use root::{ItemType, Kind, Plan, Stated};
use sound::{SoundDetail, SoundMaster, SoundPath};
use spec::{
    Field, HEAD_WORDS, LEAD_WORDS, LINE_WORDS, MAX_SET_ITEMS, Master, Path, SYNONYM_WORDS, Shape,
};

// A root that keeps its rules, with what is counted from it once. (`Stated { words: .. }` stands where it is read: with a method that
// gives it the proofs don't close.)
#[derive(Clone, Copy)]
pub struct Root<'a> {
    pub words: &'a [u16],
    pub plan: &'a Plan,
    pub ghost planned: { Planned words.now plan.now } by { Prim.hlevel props },
}

// A set of a good root, by its number. (Root, number and `there` stand in the next two as well: with a set within them every clause that
// names the root would go one step further. `RuledSet` is made where a set of a root is asked for its words: it stands below the plan.)
#[derive(Clone, Copy)]
pub struct Set<'a> {
    pub root: &'a Root<'a>,
    pub number: u16,
    pub ghost there: { (1 ≤ number) × (number ≤ sets root.now.words.now) },
}

// A master set of a good root, by its number.
#[derive(Clone, Copy)]
pub struct MasterSet<'a> {
    pub root: &'a Root<'a>,
    pub number: u16,
    pub master: Master,
    pub ghost there: { (1 ≤ number) × (number ≤ sets root.now.words.now) },
    pub ghost no_detail: { kind root.now.words.now number ≡ 3 → ⊥ },
    pub ghost mastered: { Mastered root.now.words.now number master } by { Prim.hlevel props },
}

// A detail set of a good root, by its number.
#[derive(Clone, Copy)]
pub struct DetailSet<'a> {
    pub root: &'a Root<'a>,
    pub number: u16,
    pub shape: Shape,
    pub ghost there: { (1 ≤ number) × (number ≤ sets root.now.words.now) },
    pub ghost detail: { kind root.now.words.now number ≡ 3 },
    pub ghost shaped: { Shaped root.now.words.now number shape } by { Prim.hlevel props },
}

// A path of a detail set, by its number.
#[derive(Clone, Copy)]
pub struct SetPath<'a> {
    pub set: &'a DetailSet<'a>,
    pub number: u16,
    pub ghost there: { (1 ≤ number) × (number ≤ path_count set.now.root.now.words.now set.now.number) },
    pub ghost few: { number ≤ 4 },
}

impl<'a> Root<'a> {
    // The set with a number, if there is one.
    pub fn set(&'a self, number: u16) -> Option<Set<'a>>
        ensures some { IfSome result (λ set. (set.root.now ≡ self.now) × (set.number ≡ number) × (1 ≤ number) × (number ≤ sets self.now.words.now)) }
        ensures none { IfNone result ((1 ≤ number) × (number ≤ sets self.now.words.now) → ⊥) }
    {
        if number == 0 || root::sets(self.words) < number {
            return None;
        }
        Some(Set { root: self, number })
    }

    // The words of the area that it means: "Sets follow one another.", so it ends with the last.
    #[tactic(auto, using(crate::proofs::Good::good_root, crate::proofs::Starts::area_ends, crate::proofs::Starts::area_word))]
    pub fn area_length(&self) -> u32
        ensures { result ≡ area_length self.now.words.now }
    {
        let number = root::sets(Stated { words: self.words });
        let last = Set { root: self, number }.shape();
        last.records + last.cap as u32 * last.width as u32
    }

    // The capacities that the heads of master m are held against, "by detail set number, then path number".
    #[tactic(auto, unfolding(spec::specs::Layout::heads_of), using(crate::proofs::Good::good_root, crate::proofs::Heads::headed))]
    pub fn heads_of(&self, m: u16) -> ArrayVec<u16, 8>
        ensures { result.items ≡ heads_of self.now.words.now m }
    {
        let root = Stated { words: self.words };
        let mut caps = ArrayVec::new();
        for k in 0..root::sets(root) {
            let s = k + 1;
            for p in 0..root::path_count(root, s) {
                if root::path_master(root, s, p + 1) == m {
                    caps.push(root::capacity(root, s));
                }
            }
        }
        caps
    }
}

impl<'a> Set<'a> {
    // "kind (1 manual master, 2 automatic master, 3 detail)"
    pub fn kind(&self) -> Kind
        ensures { kind_code result ≡ kind self.now.root.now.words.now self.now.number }
    {
        let ruled = RuledSet {
            root: Stated {
                words: self.root.words,
            },
            number: self.number,
        };
        ruled.kind()
    }

    // How many paths lead to it.
    fn lead(&self) -> u16
        ensures { result ≡ leading self.now.root.now.words.now self.now.number (sets self.now.root.now.words.now) }
    {
        self.root.plan.leads[self.number as usize - 1]
    }

    // Where it stands.
    #[tactic(auto, unfolding(spec::specs::Layout::shape_of, spec::specs::Layout::record_words), using(crate::proofs::Good::good_root, crate::proofs::Good::cap_low, crate::proofs::Good::cap_high, root::specs::Sizes::record_fits))]
    pub fn shape(&self) -> Shape
        ensures { Shaped self.now.root.now.words.now self.now.number result }
    {
        let root = Stated {
            words: self.root.words,
        };
        let start = self.root.plan.starts[self.number as usize - 1];
        let ruled = RuledSet {
            root,
            number: self.number,
        };
        let cap = root::capacity(root, self.number);
        let front = ruled.front_words(self.lead());
        let entry = self.root.plan.entries[self.number as usize - 1];
        Shape {
            set: self.number,
            start,
            map: start + u32::from(LEAD_WORDS),
            records: start + u32::from(LEAD_WORDS) + map_words(cap as u32),
            cap,
            width: front + entry,
            front,
            entry,
        }
    }

    // The place of one of its items in the entry: behind the items before it. Items differ, so the first that is found is the
    // only one. (That it is within the entry's length is told by a clause: a Field can't name that length.)
    #[tactic(auto, unfolding(spec::specs::Layout::field_of), using(crate::proofs::Good::good_root, root::specs::Sizes::items_fit, root::specs::Sizes::field_inside, root::specs::Good::item_of, crate::proofs::ViewRules::number_low, crate::proofs::ViewRules::number_high, crate::proofs::ViewRules::number_few, crate::proofs::ViewRules::number_past, crate::proofs::ViewRules::number_only, crate::proofs::ViewRules::item_short, crate::proofs::ViewRules::items_none, crate::proofs::ViewRules::items_more))]
    fn field_of(&self, item: u16) -> Field
        requires { has_item self.now.root.now.words.now self.now.number item ≡ true }
        ensures value { result ≡ field_of self.now.root.now.words.now self.now.number item }
        ensures size_bound { result.at + result.size ≤ entry_length self.now.root.now.words.now self.now.number }
    {
        let root = Stated {
            words: self.root.words,
        };
        let mut at = 0;
        for j in 1..=MAX_SET_ITEMS {
            let x = root::set_item(root, self.number, j);
            let size = root::item_length(root, x);
            if x == item {
                return Field { at, size };
            }
            at += size;
        }
        unreachable!()
    }

    // Any set that is no detail is a master.
    #[tactic(auto, unfolding(spec::specs::Layout::master_of, spec::specs::Layout::shape_of), using(crate::proofs::Good::good_root, root::specs::Sizes::entry_alone))]
    fn master_of(&self) -> Master
        requires { kind self.now.root.now.words.now self.now.number ≡ 3 → ⊥ }
        ensures { Mastered self.now.root.now.words.now self.now.number result }
    {
        let root = Stated {
            words: self.root.words,
        };
        let ruled = RuledSet {
            root,
            number: self.number,
        };
        let item = root::key_item(root, self.number);
        Master {
            shape: self.shape(),
            auto: self.kind() == Kind::Automatic,
            text: ruled.type_of(item) == ItemType::Text,
            key: self.field_of(item),
            leads: self.lead(),
        }
    }

    // As a master set, worked out once.
    pub fn master(&self) -> MasterSet<'a>
        requires { kind self.now.root.now.words.now self.now.number ≡ 3 → ⊥ }
        ensures root { result.root.now ≡ self.now.root.now }
        ensures number { result.number ≡ self.now.number }
    {
        MasterSet {
            root: self.root,
            number: self.number,
            master: self.master_of(),
        }
    }

    // As a detail set, worked out once.
    pub fn detail(&self) -> DetailSet<'a>
        requires { kind self.now.root.now.words.now self.now.number ≡ 3 }
        ensures root { result.root.now ≡ self.now.root.now }
        ensures number { result.number ≡ self.now.number }
    {
        let shape = self.shape();
        DetailSet {
            root: self.root,
            number: self.number,
            shape,
        }
    }
}

impl<'a> MasterSet<'a> {
    // What its steps are handed.
    pub fn sound(&self) -> SoundMaster
        ensures { result ≡ self.now.master }
    {
        SoundMaster { plain: self.master }
    }

    // The capacities that its heads are held against.
    pub fn heads(&self) -> ArrayVec<u16, 8>
        ensures { result.items ≡ heads_of self.now.root.now.words.now self.now.number }
    {
        self.root.heads_of(self.number)
    }
}

impl<'a> DetailSet<'a> {
    // "path count 0..4"
    pub fn path_count(&self) -> u16
        ensures value { result ≡ path_count self.now.root.now.words.now self.now.number }
        ensures bound { result ≤ 4 }
    {
        let root = Stated {
            words: self.root.words,
        };
        root::path_count(root, self.number)
    }

    // Its path i.
    pub fn path(&'a self, i: u16) -> SetPath<'a>
        requires { (1 ≤ i) × (i ≤ path_count self.now.root.now.words.now self.now.number) }
        ensures set { result.set.now ≡ self.now }
        ensures number { result.number ≡ i }
    {
        SetPath {
            set: self,
            number: i,
        }
    }

    // The path whose search item is this one, if there is one.
    #[tactic(auto, using(crate::proofs::Good::good_root, crate::proofs::ViewRules::search_high))]
    pub fn search_path(&'a self, item: u16) -> Option<SetPath<'a>>
        ensures some { IfSome result (λ path. (path.set.now ≡ self.now) × (path.number ≡ search_path self.now.root.now.words.now self.now.number item)) }
        ensures none { IfNone result (search_path self.now.root.now.words.now self.now.number item ≡ 0) }
    {
        let root = Stated {
            words: self.root.words,
        };
        let p = root::search_path(root, self.number, item);
        if p == 0 {
            return None;
        }
        Some(SetPath {
            set: self,
            number: p,
        })
    }

    // What its steps are handed.
    pub fn sound(&self) -> SoundDetail
        ensures { result ≡ self.now.shape }
    {
        SoundDetail { plain: self.shape }
    }

    // As a set of whatever kind.
    fn plain(&self) -> Set<'a>
        ensures root { result.root.now ≡ self.now.root.now }
        ensures number { result.number ≡ self.now.number }
    {
        Set {
            root: self.root,
            number: self.number,
        }
    }
}

impl<'a> SetPath<'a> {
    // The number of the master that it leads to.
    fn master_number(&self) -> u16
        ensures { result ≡ path_master self.now.set.now.root.now.words.now self.now.set.now.number self.now.number }
    {
        let root = Stated {
            words: self.set.root.words,
        };
        root::path_master(root, self.set.number, self.number)
    }

    // The master that it leads to.
    fn master(&self) -> Master
        ensures { Mastered self.now.set.now.root.now.words.now (path_master self.now.set.now.root.now.words.now self.now.set.now.number self.now.number) result }
    {
        let set = Set {
            root: self.set.root,
            number: self.master_number(),
        };
        set.master_of()
    }

    // The capacities that the heads of its master are held against.
    pub fn heads(&self) -> ArrayVec<u16, 8>
        ensures { result.items ≡ heads_of self.now.set.now.root.now.words.now (path_master self.now.set.now.root.now.words.now self.now.set.now.number self.now.number) }
    {
        self.set.root.heads_of(self.master_number())
    }

    // Where its head stands in a record of its master.
    #[tactic(auto, using(crate::proofs::Good::good_root), unfolding(spec::specs::Layout::head_of))]
    fn head(&self) -> u16
        ensures { result ≡ head_of self.now.set.now.root.now.words.now self.now.set.now.number self.now.number }
    {
        SYNONYM_WORDS
            + HEAD_WORDS
                * self.set.root.plan.slots[4 * (self.set.number as usize - 1)
                    + (self.number as usize - 1)]
    }

    // Where its search item stands in the entry.
    #[tactic(auto, unfolding(spec::specs::Layout::shape_of), using(crate::proofs::Good::good_root))]
    pub fn search(&self) -> Field
        ensures value { result ≡ field_of self.now.set.now.root.now.words.now self.now.set.now.number (path_search self.now.set.now.root.now.words.now self.now.set.now.number self.now.number) }
        ensures size_bound { result.at + result.size ≤ entry_length self.now.set.now.root.now.words.now self.now.set.now.number }
        ensures inside { result.at + result.size ≤ self.now.set.now.shape.entry }
    {
        let root = Stated {
            words: self.set.root.words,
        };
        self.set
            .plain()
            .field_of(root::path_search(root, self.set.number, self.number))
    }

    // "sort item (0: none)": where it stands in the entry.
    pub fn sort(&self) -> Option<Field>
        ensures { Sorted self.now.set.now.root.now.words.now self.now.set.now.number self.now.number result }
    {
        let root = Stated {
            words: self.set.root.words,
        };
        match root::path_sort(root, self.set.number, self.number) {
            0 => None,
            item => Some(self.set.plain().field_of(item)),
        }
    }

    // The path as plain numbers.
    #[tactic(auto, unfolding(spec::specs::Layout::path_of, spec::specs::Layout::master_of, spec::specs::Layout::field_of, spec::specs::Layout::head_of, spec::specs::Layout::sort_of), using(crate::proofs::Good::good_root, crate::proofs::Good::search_size))]
    pub fn path(&self) -> SoundPath
        ensures { Pathed self.now.set.now.root.now.words.now self.now.set.now.number self.now.number result }
    {
        let sort = self.sort();
        SoundPath {
            plain: Path {
                to: self.master(),
                head: self.head(),
                links: LINE_WORDS * (self.number - 1),
                search: self.search(),
                sorted: sort.is_some(),
                sort: sort.unwrap_or(Field { at: 0, size: 0 }),
            },
        }
    }
}
