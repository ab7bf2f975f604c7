// The layout that a good root means (−92), and its sets, each worked out once from the root's words.
#![tactic(auto)]

mod judged;
mod sets;

pub use judged::{known, ruled};
pub use sets::{DetailSet, MasterSet, Root, Set, SetPath};
