// Each condition word's meaning in a sentence, from document 01's table.
use std::fmt;

// A call that was refused, by the condition word of its status: a number, since a call's answer has ten words and no `Refusal`.
#[derive(Clone, Copy, Debug, PartialEq, Eq, Hash)]
pub struct Refused(pub u16);

// The negative ones: what the caller's own words are refused for.
fn caller(number: i16) -> &'static str {
    match number {
        -91 => "the root breaks a rule",
        -92 => "the area is not as long as the root says",
        -21 => "there is no such set, or a find was asked of a master",
        -93 => "the set's cursor has a path above its paths or a record above its capacity",
        -24 => "entries of an automatic master come and go with their lines, not by a call",
        -31 => "get has the modes 1 to 7; 5 and 6 are for details, 7 is for masters",
        -52 => "this is not a search item of the set",
        -95 => "the entry or the value does not have its item's or its set's length",
        -94 => "no chain was found yet, so there is none to read along",
        _ => "a number that document 01 does not have",
    }
}

// Records and entries that are not there, or there already.
fn record(number: i16) -> &'static str {
    match number {
        10 => "no live record stands below the current one",
        11 => "no live record stands above the current one",
        12 => "records are numbered from 1, and 0 was asked for",
        13 => "the record asked for is above the set's capacity",
        14 => "the chain has no line further back",
        15 => "the chain has no line further on",
        16 => "the set has no unused record",
        17 => "there is no such entry, or the record is unused",
        18 => "the base is damaged: a link, a count or the map is not as it must be",
        41 => "an update must leave key, search and sort items as they are",
        43 => "the master has an entry with this key already",
        44 => "lines still hang on this entry",
        50 => "the buffer is shorter than the entry",
        _ => caller(number),
    }
}

// "The word is signed, stored as two's complement"; "then by path: no manual entry (100 + path), automatic master full
// (300 + path)"
impl fmt::Display for Refused {
    fn fmt<W: fmt::Write>(&self, f: &mut fmt::Formatter<W>) -> fmt::Result {
        let number = self.0.cast_signed();
        write!(f, "refused, {number}: ")?;
        match number {
            101..=104 => {
                let path = number - 100;
                write!(
                    f,
                    "on path {path} the manual master has no entry for this line"
                )
            }
            301..=304 => {
                let path = number - 300;
                write!(
                    f,
                    "on path {path} the automatic master has no room for this line's entry"
                )
            }
            _ => f.write_str(record(number)),
        }
    }
}
