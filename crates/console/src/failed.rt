// Why a command came to nothing.
use crate::rest::Complaint;
use screen::Refused;
use std::alloc::AllocError;
use std::io::Write;
use std::{fmt, io};

// What is wrong with a file that a command names.
#[derive(Clone, Copy, Debug, PartialEq, Eq, Hash)]
pub enum Fault {
    NotOpened,
    NotWritten,
    NoGoodRoot,
    LargeRoot,
    Long,
    EndsInRoot,
    BadRoot,
    BadLength,
}

impl fmt::Display for Fault {
    fn fmt<W: fmt::Write>(&self, f: &mut fmt::Formatter<W>) -> fmt::Result {
        f.write_str(match self {
            Fault::NotOpened => "can't be opened",
            Fault::NotWritten => "can't be written",
            Fault::NoGoodRoot => "holds no good root (-91)",
            Fault::LargeRoot => "holds a root whose area is larger than the console's room",
            Fault::Long => "is no base: it is too long, or its last word lacks a byte",
            Fault::EndsInRoot => "is no base: it ends within its root",
            Fault::BadRoot => "is no base: its root breaks a rule",
            Fault::BadLength => "is no base: its area is not as long as its root says",
        })
    }
}

// A word that is no command, a line that isn't as its command wants it, a call that the engine refused, a file by its name, or
// what the system says.
#[derive(Drop)]
pub enum Failed<'a> {
    NoCommand(&'a [u8]),
    Asked(Complaint<'a>),
    Refused(Refused),
    File(&'a [u8], Fault),
    System(io::Error),
}

impl<'a> From<Complaint<'a>> for Failed<'a> {
    fn from(complaint: Complaint<'a>) -> Failed<'a> {
        Failed::Asked(complaint)
    }
}

impl<'a> From<Refused> for Failed<'a> {
    fn from(refused: Refused) -> Failed<'a> {
        Failed::Refused(refused)
    }
}

impl<'a> From<io::Error> for Failed<'a> {
    fn from(error: io::Error) -> Failed<'a> {
        Failed::System(error)
    }
}

impl<'a> From<AllocError> for Failed<'a> {
    fn from(error: AllocError) -> Failed<'a> {
        Failed::System(io::Error::from(error))
    }
}

impl Failed<'_> {
    // One line of it; what the system says ends the console. No Display: a person's word or file name need not be text.
    pub fn tell<W: Write>(self, writer: &mut W) -> io::Result<()> {
        match self {
            Failed::NoCommand(word) => {
                writer.write_all(word)?;
                writeln!(writer, " is no command; help tells them")
            }
            Failed::Asked(complaint) => complaint.tell(writer),
            Failed::Refused(refused) => writeln!(writer, "{refused}"),
            Failed::File(name, fault) => {
                writer.write_all(name)?;
                writeln!(writer, " {fault}; nothing was changed")
            }
            Failed::System(error) => Err(error),
        }
    }
}
