// The rules of the root (−91), judged in one pass over its sets, with its paths counted on the way.
#![tactic(auto)]

mod items;
mod sets;

ghost use Rattle.std.specs.Prelude.{◌≡◌, ◌≤◌, is_some, IfSome};
ghost use Rattle.spec.specs.Words.{all};
ghost use Rattle.spec.specs.Root.{items, item_good, root_good};
ghost use Rattle.rules.specs.Rules.{framed, longest, head_good};
ghost use Rattle.root.specs.Plan.{Leads, Slots, Entries};

use root::{ItemType, Plan, Stated};
use sets::Head;
use spec::{MAX_ITEMS, MAX_SETS, SET_WORDS};

// The most words of an item by its type, "I and K: 1 or 2; X: 1..32"; 0 where there is no such type, and no Option: a limit in
// each case lets several items be looked at at once, and tests in each case cost an eighth more on a large root.
#[tactic(auto, using(std::proofs::lemmas::Bool::Decides::nat_tests), unfolding(crate::specs::Rules::longest))]
fn longest(t: u16) -> u16
    ensures { result ≡ longest t }
{
    match ItemType::try_from(t) {
        Ok(ItemType::Text) => 32,
        Ok(_) => 2,
        Err(_) => 0,
    }
}

// "type (1 = I signed, 2 = K unsigned, 3 = X characters) and length in words (I and K: 1 or 2; X: 1..32)"
#[tactic(auto, using(std::proofs::lemmas::Bool::Decides::nat_tests), unfolding(spec::specs::Root::item_good, crate::specs::Rules::longest))]
fn item_good(root: Stated, i: u16) -> bool
    requires { i ≤ items root.words.now }
    ensures { result ≡ item_good root.entry.words.now i }
{
    let top = longest(root::item_type(root, i));
    let n = root::item_length(root, i);
    1 <= n && n <= top
}

// Each item of the root. All are looked at, so that several can be at once.
#[tactic(auto, using(crate::proofs::Steps::steps))]
fn all_items_good(root: Stated) -> bool
    ensures { result ≡ all (items root.entry.words.now) (item_good root.entry.words.now) }
{
    let mut good = true;
    for i in 1..=root::items(root) {
        good &= item_good(root, i);
    }
    good
}

// "Word 1: items, 1..64. Word 2: sets, 1..16."; "nothing follows". Nothing else is read of a root of another length.
#[tactic(auto, using(std::proofs::lemmas::Bool::Decides::nat_tests), unfolding(crate::specs::Rules::framed, spec::specs::Root::root_length))]
fn framed(words: &[u16]) -> Option<Stated>
    ensures value { is_some result ≡ framed words.now }
    ensures same { IfSome result (λ r. r.words.now ≡ words.now) }
{
    let i = root::items(words);
    let n = root::sets(words);
    let whole = 2 + 2 * (i as usize) + SET_WORDS * (n as usize);
    if 1 <= i && i <= MAX_ITEMS && 1 <= n && n <= MAX_SETS && words.len() == whole {
        Some(Stated { words })
    } else {
        None
    }
}

// The counts and the length of the root, and its items.
#[tactic(auto, using(std::proofs::lemmas::Bool::Decides::nat_tests), unfolding(crate::specs::Rules::head_good, crate::specs::Rules::framed))]
fn head(words: &[u16]) -> Option<Head>
    ensures value { is_some result ≡ head_good words.now }
    ensures same { IfSome result (λ r. r.root.words.now ≡ words.now) }
{
    let root = framed(words)?;
    if all_items_good(root) {
        Some(Head { root })
    } else {
        None
    }
}

// The rules of the root, and what is counted of one that keeps them: all of the plan but where the sets start, which is known when
// all have been judged. (The plan is lent: handed on by value it would be copied at each step.)
#[tactic(auto, using(crate::proofs::RootRules::root_rules), unfolding(spec::specs::Root::root_good, crate::specs::Rules::head_good, crate::specs::Rules::framed))]
pub fn root_judged<'a>(words: &'a [u16], plan: &mut Plan) -> Option<Stated<'a>>
    ensures value { is_some result ≡ root_good words.now }
    ensures same { IfSome result (λ r. r.words.now ≡ words.now) }
    ensures leads { IfSome result (λ _. Leads words.now plan.new.leads) }
    ensures slots { IfSome result (λ _. Slots words.now plan.new.slots) }
    ensures entries { IfSome result (λ _. Entries words.now plan.new.entries) }
{
    let head = head(words)?;
    (head.sets_judged(plan) && head.all_leading_good(plan)).then_some(head.root)
}
