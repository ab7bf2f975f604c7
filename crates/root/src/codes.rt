// The number codes of a root: what a set is, and what an item is.
ghost use Rattle.root.specs.Codes.{KindOf, TypeOf};

use std::fmt;

// "kind (1 manual master, 2 automatic master, 3 detail)"
#[derive(Clone, Copy, Debug, PartialEq, Eq, Hash)]
pub enum Kind {
    Manual,
    Automatic,
    Detail,
}

// "type (1 = I signed, 2 = K unsigned, 3 = X characters)"
#[derive(Clone, Copy, Debug, PartialEq, Eq, Hash)]
pub enum ItemType {
    Signed,
    Unsigned,
    Text,
}

// A number that is no code.
#[derive(Clone, Copy, PartialEq, Eq)]
pub struct UnknownCode(pub u16);

impl TryFrom<u16> for Kind {
    type Error = UnknownCode;

    ghost try_from_gives = { KindOf };

    fn try_from(code: u16) -> Result<Self, UnknownCode> {
        match code {
            1 => Ok(Kind::Manual),
            2 => Ok(Kind::Automatic),
            3 => Ok(Kind::Detail),
            _ => Err(UnknownCode(code)),
        }
    }
}

impl TryFrom<u16> for ItemType {
    type Error = UnknownCode;

    ghost try_from_gives = { TypeOf };

    fn try_from(code: u16) -> Result<Self, UnknownCode> {
        match code {
            1 => Ok(ItemType::Signed),
            2 => Ok(ItemType::Unsigned),
            3 => Ok(ItemType::Text),
            _ => Err(UnknownCode(code)),
        }
    }
}

// As the manual names it.
impl fmt::Display for Kind {
    fn fmt<W: fmt::Write>(&self, f: &mut fmt::Formatter<W>) -> fmt::Result {
        f.write_str(match self {
            Kind::Manual => "manual master",
            Kind::Automatic => "automatic master",
            Kind::Detail => "detail",
        })
    }
}

// By its letter.
impl fmt::Display for ItemType {
    fn fmt<W: fmt::Write>(&self, f: &mut fmt::Formatter<W>) -> fmt::Result {
        f.write_str(match self {
            ItemType::Signed => "I",
            ItemType::Unsigned => "K",
            ItemType::Text => "X",
        })
    }
}
