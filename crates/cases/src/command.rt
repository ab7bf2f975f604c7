// What a line of the script asks for: its first word, and the numbers after it.
ghost use Rattle.std.specs.Prelude.{◌≡◌, ◌++◌, IfOk, OnOk};

use lines::{is_word, number_of};
use std::alloc::{AllocError, AllocFailed, Global};
use std::io;
use std::num::TryFromIntError;

// A change of what the calls work on, or a call.
#[derive(Clone, Copy, Debug, PartialEq, Eq, Hash)]
pub enum Verb {
    Root,
    MoreRoot,
    RootWord,
    Zeros,
    AreaWord,
    Cursor,
    Buffer,
    Reset,
    New,
    Find,
    Get,
    Put,
    Update,
    Delete,
}

// (Looked through as `console` does its commands: three lines, over a table of another type.)
const NAMES: [(&str, Verb); 14] = [
    ("root", Verb::Root),
    ("root+", Verb::MoreRoot),
    ("root-poke", Verb::RootWord),
    ("zeros", Verb::Zeros),
    ("poke", Verb::AreaWord),
    ("cursor", Verb::Cursor),
    ("buffer", Verb::Buffer),
    ("reset", Verb::Reset),
    ("new", Verb::New),
    ("find", Verb::Find),
    ("get", Verb::Get),
    ("put", Verb::Put),
    ("update", Verb::Update),
    ("delete", Verb::Delete),
];

// The most numbers of a line, and the most words of a root or a buffer; the longest root of the script has 565 words.
pub const ROOM: usize = 1024;

// A line's numbers, and those of them that a call is lent as words. Every line fills the same two, so that none needs memory.
#[derive(Drop)]
pub struct Rooms {
    pub numbers: Vec<u32>,
    pub words: Vec<u16>,
}

impl Rooms {
    pub fn new(alloc: Global) -> Result<Rooms, AllocError> {
        Ok(Rooms {
            numbers: Vec::with_capacity(alloc, ROOM)?,
            words: Vec::with_capacity(alloc, ROOM)?,
        })
    }
}

// A line that can't be read, or what the system says.
#[derive(Drop)]
pub enum Failed {
    Unreadable,
    System(io::Error),
}

impl From<TryFromIntError> for Failed {
    fn from(_error: TryFromIntError) -> Failed {
        Failed::Unreadable
    }
}

impl<T: Drop> From<AllocFailed<T>> for Failed {
    fn from(error: AllocFailed<T>) -> Failed {
        Failed::System(io::Error::from(AllocError::from(error)))
    }
}

impl From<io::Error> for Failed {
    fn from(error: io::Error) -> Failed {
        Failed::System(error)
    }
}

// What a line asks for, with its numbers in their room; nothing where it is read for its own sake: blank, a comment, which begins
// with '#', or an answer worked out by hand, which begins with '='. The second program holds its own answer to that, here it is only
// written.
pub fn command_of(line: &[u8], numbers: &mut Vec<u32>) -> Result<Option<Verb>, Failed> {
    let mut words = lines::Words::new(line);
    let Some(name) = words.next() else {
        return Ok(None);
    };
    if name.starts_with(b"#") || name.starts_with(b"=") {
        return Ok(None);
    }
    let named = NAMES
        .iter()
        .find(|(text, _)| is_word(name, text.as_bytes()));
    let (_, verb) = named.ok_or(Failed::Unreadable)?;
    numbers.clear();
    for word in words {
        if numbers.len() == ROOM {
            return Err(Failed::Unreadable);
        }
        numbers.push(number_of(word).ok_or(Failed::Unreadable)?)?;
    }
    Ok(Some(*verb))
}

// Numbers that are words, after those that are there.
pub fn lay(numbers: &[u32], words: &mut Vec<u16>) -> Result<(), Failed>
    ensures { OnOk result (words.new.items ≡ words.old.items ++ numbers.now) }
{
    for n in numbers {
        if words.len() == ROOM {
            return Err(Failed::Unreadable);
        }
        words.push(u16::try_from(*n)?)?;
    }
    Ok(())
}

// Numbers that are words, in place of those that are there.
pub fn lay_anew(numbers: &[u32], words: &mut Vec<u16>) -> Result<(), Failed>
    ensures { OnOk result (words.new.items ≡ numbers.now) }
{
    words.clear();
    lay(numbers, words)
}

// Numbers as the words that a call is lent, in a room for them.
pub fn words_of<'a>(numbers: &[u32], room: &'a mut Vec<u16>) -> Result<&'a [u16], Failed>
    ensures { IfOk result (λ words. words.now ≡ numbers.now) }
{
    lay_anew(numbers, room)?;
    Ok(room.as_slice())
}
