// What of a command's line is still unread, and what a command wants next of it.
use lines::{Words, next_word, number_of, place_of};
use std::io;
use std::io::Write;

// What isn't there, or isn't what it should be.
#[derive(Clone, Copy, Debug)]
pub struct Complaint<'a> {
    pub what: &'static str,
    pub text: Option<&'a [u8]>,
    pub wanted: &'static str,
}

impl Complaint<'_> {
    // No Display: the person's word is shown byte by byte, and need not be text.
    pub fn tell<W: Write>(&self, writer: &mut W) -> io::Result<()> {
        write!(writer, "{}", self.what)?;
        match self.text {
            Some(text) => {
                write!(writer, " can't be ")?;
                writer.write_all(text)?;
            }
            None => write!(writer, " is missing")?,
        }
        writeln!(writer, ": {}; nothing was done", self.wanted)
    }
}

// A word as a number that fits two words.
fn long_of<'a>(what: &'static str, text: Option<&'a [u8]>) -> Result<u32, Complaint<'a>> {
    let wanted = "a number is wanted";
    text.and_then(|word| number_of(word))
        .ok_or(Complaint { what, text, wanted })
}

// A word as a number that fits a word. Not one function with `long_of` over the number's type: what is wanted is told otherwise, and
// would be handed in beside it.
pub fn word_of<'a>(what: &'static str, text: Option<&'a [u8]>) -> Result<u16, Complaint<'a>> {
    let wanted = "a number from 0 to 65535 is wanted";
    text.and_then(|word| number_of(word))
        .and_then(|n| u16::try_from(n).ok())
        .ok_or(Complaint { what, text, wanted })
}

// The rest of a line, a word after another.
#[derive(Clone, Copy, Debug)]
pub struct Rest<'a> {
    words: Words<'a>,
}

impl<'a> Rest<'a> {
    pub fn new(line: &'a [u8]) -> Rest<'a> {
        Rest {
            words: Words::new(line),
        }
    }

    pub fn next(&mut self) -> Option<&'a [u8]> {
        self.words.next()
    }

    pub fn long(&mut self, what: &'static str) -> Result<u32, Complaint<'a>> {
        long_of(what, self.next())
    }

    pub fn word(&mut self, what: &'static str) -> Result<u16, Complaint<'a>> {
        word_of(what, self.next())
    }

    // The characters between two double quotes, if such stand next.
    pub fn quoted(&mut self) -> Option<&'a [u8]> {
        let rest = self.words.rest;
        let (first, text) = rest[next_word(rest, 0).at..].split_first()?;
        if *first != b'"' {
            return None;
        }
        let end = place_of(text, 0, b'"');
        if end == text.len() {
            return None;
        }
        self.words = Words::new(&text[end + 1..]);
        Some(&text[..end])
    }

    // Nothing more, blanks aside.
    pub fn end(&mut self) -> Result<(), Complaint<'a>> {
        match self.next() {
            None => Ok(()),
            text => Err(Complaint {
                what: "the rest of the line",
                text,
                wanted: "nothing more is wanted",
            }),
        }
    }
}
