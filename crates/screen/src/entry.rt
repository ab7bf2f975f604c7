// An entry, item by item.
ghost use Rattle.std.specs.Prelude.{◌≡◌, ◌≤◌};
ghost use Rattle.spec.specs.Root.{item_type, item_length, set_item};
ghost use Rattle.screen.specs.Item.{type_of};

use root::ItemType;
use std::io;
use std::io::Write;
use words::long_at;

// "type (1 = I signed, 2 = K unsigned, 3 = X characters)"; a good root has no other number.
#[tactic(auto, using(crate::proofs::Laws::typed))]
fn type_of(code: u16) -> ItemType
    ensures { result ≡ type_of code }
{
    ItemType::try_from(code).unwrap_or(ItemType::Text)
}

// An item of the root: its number, its type, and its length in words.
#[derive(Clone, Copy, Debug, PartialEq, Eq, Hash)]
pub struct Item {
    pub number: u16,
    pub kind: ItemType,
    pub size: u16,
}

impl Item {
    pub fn new(root: &[u16], number: u16) -> Item
        ensures number_value { result.number ≡ number }
        ensures kind_value { result.kind ≡ type_of (item_type root.now number) }
        ensures size_value { result.size ≡ item_length root.now number }
    {
        Item {
            number,
            kind: type_of(root::item_type(root, number)),
            size: root::item_length(root, number),
        }
    }
}

// A set of a root, whether that is good or not, by its number.
#[derive(Clone, Copy)]
pub struct ListedSet<'a> {
    pub root: &'a [u16],
    pub number: u16,
    pub ghost from_one: { 1 ≤ number },
}

impl<'a> ListedSet<'a> {
    // Its j-th item.
    pub fn item(&self, j: u16) -> Item
        ensures number_value { result.number ≡ set_item self.now.root.now self.now.number j }
        ensures kind_value { result.kind ≡ type_of (item_type self.now.root.now result.number) }
        ensures size_value { result.size ≡ item_length self.now.root.now result.number }
    {
        Item::new(self.root, root::set_item(self.root, self.number, j))
    }

    // An entry of it, its items one after another. No Display: its texts are written as bytes.
    pub fn say_entry<W: Write>(&self, writer: &mut W, entry: &[u16]) -> io::Result<()> {
        let mut rest = entry;
        for j in 1..=root::item_count(self.root, self.number) {
            let item = self.item(j);
            if 1 < j {
                write!(writer, " ")?;
            }
            let (words, after) = rest.split_at(rest.len().min(item.size as usize));
            say_value(writer, item.kind, words)?;
            rest = after;
        }
        Ok(())
    }
}

// A byte that a screen can show; a point for one that it can't.
fn shown(b: u8) -> u8 {
    match b {
        b' '..=b'~' => b,
        _ => b'.',
    }
}

// A text without the blanks at its end.
fn trimmed(text: &[u8]) -> &[u8] {
    let blanks = text.iter().rev().take_while(|b| **b == b' ').count();
    &text[..text.len() - blanks]
}

// An X item's words as its characters; the longest has 32 words. No Display: they are written as bytes.
fn say_text<W: Write>(writer: &mut W, words: &[u16]) -> io::Result<()> {
    if 32 < words.len() {
        return Ok(());
    }
    // `unpack` writes into room that it is lent; 64 bytes are the longest text.
    let mut room = [0u8; 64];
    lent::unpack(words, &mut room);
    for b in &mut room {
        *b = shown(*b);
    }
    writer.write_all(b"\"")?;
    writer.write_all(trimmed(&room[..2 * words.len()]))?;
    writer.write_all(b"\"")
}

// An item's words, by its type; a number has one word or two. No Display: a text is written as bytes.
fn say_value<W: Write>(writer: &mut W, kind: ItemType, words: &[u16]) -> io::Result<()> {
    match (kind, words) {
        (ItemType::Text, _) => say_text(writer, words),
        (ItemType::Signed, [word]) => write!(writer, "{}", word.cast_signed()),
        (ItemType::Signed, _) => write!(writer, "{}", long_at(words, 0).cast_signed()),
        (ItemType::Unsigned, [word]) => write!(writer, "{word}"),
        (ItemType::Unsigned, _) => write!(writer, "{}", long_at(words, 0)),
    }
}
