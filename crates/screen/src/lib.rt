// What a person is shown: condition words told in a sentence, entries item by item, the sets of a root and how full they are,
// and maps.
#![tactic(auto)]

mod condition;
mod entry;
mod filled;

pub use condition::Refused;
pub use entry::{Item, ListedSet};
pub use filled::{map, sets};
