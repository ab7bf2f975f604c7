// What a command asks of the engine, read from its line and found good. (Root, rest of the line and words travel together, and are three:
// the root is the desk's and only read, the rest is read on by each question, and the words are room that it fills.)
ghost use Rattle.std.specs.Prelude.{◌≤◌, IsTrue};

use crate::failed::Failed;
use crate::rest::{Complaint, Rest};
use crate::values::take_value;
use screen::{Item, ListedSet};

// The chain that a find names: a set and its search item.
#[derive(Clone, Copy, Debug)]
pub struct Chain {
    pub set: u16,
    pub item: u16,
}

// What a get names: a set, a mode by its number, as the engine's get takes it, and for mode 4 a record.
#[derive(Clone, Copy, Debug)]
pub struct Get {
    pub set: u16,
    pub mode: u16,
    pub record: u32,
}

fn has_set(root: &[u16], s: u16) -> bool
    ensures { IsTrue result → 1 ≤ s }
{
    s != 0 && s <= root::sets(root)
}

fn has_item(root: &[u16], item: u16) -> bool {
    item != 0 && item <= root::items(root)
}

// SET
pub fn ask_set<'a>(mut rest: Rest<'a>) -> Result<u16, Complaint<'a>> {
    let set = rest.word("the set")?;
    rest.end()?;
    Ok(set)
}

// SET VALUE.., a value for each item of the set. For a set that the root doesn't have the line is left unread: the engine says
// so.
pub fn ask_entry<'a>(
    root: &[u16],
    mut rest: Rest<'a>,
    entry: &mut Vec<u16>,
) -> Result<u16, Failed<'a>> {
    entry.clear();
    let set = rest.word("the set")?;
    if has_set(root, set) {
        let listed = ListedSet { root, number: set };
        for j in 1..=root::item_count(root, set) {
            take_value(listed.item(j), &mut rest, entry)?;
        }
        rest.end()?;
    }
    Ok(set)
}

// The value of an item, and the end of the line; of an item that the root doesn't have no words: the engine says so.
fn ask_value<'a>(
    root: &[u16],
    item: u16,
    rest: &mut Rest<'a>,
    value: &mut Vec<u16>,
) -> Result<(), Failed<'a>> {
    if has_item(root, item) {
        take_value(Item::new(root, item), rest, value)?;
        rest.end()?;
    }
    Ok(())
}

// SET ITEM VALUE
pub fn ask_chain<'a>(
    root: &[u16],
    mut rest: Rest<'a>,
    value: &mut Vec<u16>,
) -> Result<Chain, Failed<'a>> {
    value.clear();
    let set = rest.word("the set")?;
    let item = rest.word("the search item")?;
    ask_value(root, item, &mut rest, value)?;
    Ok(Chain { set, item })
}

// The key item of set s; none for a set that the root doesn't have, and for a detail, whose word for it is 0.
fn key_of(root: &[u16], s: u16) -> Option<u16> {
    if has_set(root, s) {
        Some(root::key_item(root, s)).filter(|item| *item != 0)
    } else {
        None
    }
}

// SET MODE, then a record for mode 4, a key for mode 7, and nothing for the others
pub fn ask_get<'a>(
    root: &[u16],
    mut rest: Rest<'a>,
    key: &mut Vec<u16>,
) -> Result<Get, Failed<'a>> {
    key.clear();
    let set = rest.word("the set")?;
    let mode = rest.word("the mode")?;
    let mut record = 0;
    match mode {
        4 => {
            record = rest.long("the record")?;
            rest.end()?;
        }
        7 => {
            if let Some(item) = key_of(root, set) {
                ask_value(root, item, &mut rest, key)?;
            }
        }
        _ => rest.end()?,
    }
    Ok(Get { set, mode, record })
}
