// What the calls work on, and what a line of the script does to it.
use crate::command::{Failed, ROOM, Rooms, Verb, command_of, lay, lay_anew, words_of};
use crate::report;
use session::Session;
use spec::Cursor;
use std::alloc::{AllocError, Global};
use std::io;
use std::io::Write;
use words::put_word;

// The most words of an area; the largest of the script has 53,598.
const AREA_ROOM: usize = 65536;

// The words that the script has set are just those that a call is lent. Kept is what a call may change, as it was before.
#[derive(Drop)]
pub struct Stage {
    pub session: Session,
    pub root: Vec<u16>,
    pub area: Vec<u16>,
    pub buffer: Vec<u16>,
    pub kept: Vec<u16>,
}

// One word, if it is among those that are lent.
fn poke(words: &mut [u16], at: u32, word: u32) -> Result<(), Failed> {
    put_word(words, at as usize, u16::try_from(word)?);
    Ok(())
}

impl Stage {
    // Each room as large as it may get: no line needs more.
    pub fn new(alloc: Global) -> Result<Stage, AllocError> {
        Ok(Stage {
            session: Session::default(),
            root: Vec::with_capacity(alloc, ROOM)?,
            area: Vec::with_capacity(alloc, AREA_ROOM)?,
            buffer: Vec::with_capacity(alloc, ROOM)?,
            kept: Vec::with_capacity(alloc, AREA_ROOM)?,
        })
    }

    fn zeros(&mut self, n: u32) -> Result<(), Failed> {
        let n = n as usize;
        if AREA_ROOM < n {
            return Err(Failed::Unreadable);
        }
        self.area.clear();
        self.area.resize(n, 0).map_err(io::Error::from)?;
        Ok(())
    }

    // By the numbers as a report writes them.
    fn set_cursor(&mut self, set: u32, numbers: [u32; 4]) -> Result<(), Failed> {
        if set == 0 || 16 < set {
            return Err(Failed::Unreadable);
        }
        let [current, path, back, fore] = numbers;
        self.session.cursors[set as usize - 1] = Cursor {
            current,
            path,
            back,
            fore,
        };
        Ok(())
    }

    // A change of what the calls work on, or a call of the engine.
    fn work<W: Write>(
        &mut self,
        writer: &mut W,
        verb: Verb,
        numbers: &[u32],
        room: &mut Vec<u16>,
    ) -> Result<(), Failed> {
        match (verb, numbers) {
            (Verb::Root, words) => lay_anew(words, &mut self.root)?,
            (Verb::MoreRoot, words) => lay(words, &mut self.root)?,
            (Verb::RootWord, [at, word]) => poke(&mut self.root, *at, *word)?,
            (Verb::Zeros, [n]) => self.zeros(*n)?,
            (Verb::AreaWord, [at, word]) => poke(&mut self.area, *at, *word)?,
            (Verb::Cursor, [set, current, path, back, fore]) => {
                self.set_cursor(*set, [*current, *path, *back, *fore])?;
            }
            (Verb::Buffer, words) => lay_anew(words, &mut self.buffer)?,
            (Verb::Reset, []) => self.session = Session::default(),
            (Verb::New, []) => self.make(writer)?,
            (Verb::Find, [set, item, value @ ..]) => {
                let (set, item) = (u16::try_from(*set)?, u16::try_from(*item)?);
                self.find(writer, set, item, words_of(value, room)?)?;
            }
            (Verb::Get, [set, mode, number, value @ ..]) => {
                let (set, mode) = (u16::try_from(*set)?, u16::try_from(*mode)?);
                self.get(writer, set, mode, *number, words_of(value, room)?)?;
            }
            (Verb::Put, [set, entry @ ..]) => {
                self.put(writer, u16::try_from(*set)?, words_of(entry, room)?)?;
            }
            (Verb::Update, [set, entry @ ..]) => {
                self.update(writer, u16::try_from(*set)?, words_of(entry, room)?)?;
            }
            (Verb::Delete, [set]) => self.delete(writer, u16::try_from(*set)?)?,
            _ => return Err(Failed::Unreadable),
        }
        Ok(())
    }

    pub fn work_line<W: Write>(
        &mut self,
        writer: &mut W,
        line: &[u8],
        rooms: &mut Rooms,
    ) -> Result<(), Failed> {
        report::echo(writer, line)?;
        match command_of(line, &mut rooms.numbers)? {
            Some(verb) => self.work(writer, verb, &rooms.numbers, &mut rooms.words),
            None => Ok(()),
        }
    }
}
