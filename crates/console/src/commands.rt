// The commands: which one a word is, and what each does.
use crate::asked::ask_set;
use crate::calls::{BACKWARD, FORWARD};
use crate::desk::Desk;
use crate::failed::Failed;
use crate::rest::{Complaint, Rest};
use lines::is_word;
use std::io;
use std::io::Write;
use std::ops::ControlFlow;
use std::rt::Files;

#[derive(Clone, Copy, Debug, PartialEq, Eq, Hash)]
enum Command {
    Help,
    Sets,
    Map,
    Status,
    Cursors,
    Save,
    Find,
    Get,
    Forward,
    Backward,
    Put,
    Update,
    Delete,
    New,
    Root,
    Load,
    Quit,
}

// (Looked through as `cases` does its verbs: three lines, over a table of another type.)
const NAMES: [(&str, Command); 17] = [
    ("help", Command::Help),
    ("sets", Command::Sets),
    ("map", Command::Map),
    ("status", Command::Status),
    ("cursors", Command::Cursors),
    ("save", Command::Save),
    ("find", Command::Find),
    ("get", Command::Get),
    ("forward", Command::Forward),
    ("backward", Command::Backward),
    ("put", Command::Put),
    ("update", Command::Update),
    ("delete", Command::Delete),
    ("new", Command::New),
    ("root", Command::Root),
    ("load", Command::Load),
    ("quit", Command::Quit),
];

const HELP: &str = "\
VALUE is a number, or \"characters\" for an X item; VALUE.. is one for each item of the set.
  put SET VALUE..            put an entry
  find SET ITEM VALUE        find a chain of a detail set by a search item
  update SET VALUE..         write the current record's entry anew
  delete SET                 delete the current record
  get SET MODE               read: 1 again, 2 next, 3 previous, 5 along the chain, 6 back along it
  get SET 4 RECORD           read the record
  get SET 7 VALUE            read the master entry with this key
  forward SET ITEM VALUE     draw a chain from its first line on
  backward SET ITEM VALUE    draw a chain from its last line back
  sets                       every set: kind, fill, items, paths
  map SET                    which records are live
  status                     the last call's status words, told
  cursors                    where each set is being read
  new                        an empty base with this root
  root FILE                  an empty base with the root of a file of numbers
  save FILE, load FILE       the base into a file, and back from it
  quit
";

fn command_of(word: &[u8]) -> Option<Command> {
    let named = NAMES
        .iter()
        .find(|(name, _)| is_word(word, name.as_bytes()))?;
    Some(named.1)
}

// The file that a command names, and nothing more.
fn file_name<'a>(mut rest: Rest<'a>) -> Result<&'a [u8], Complaint<'a>> {
    let name = rest.next().ok_or(Complaint {
        what: "the file",
        text: None,
        wanted: "its name is wanted",
    })?;
    rest.end()?;
    Ok(name)
}

impl Desk {
    // What a line asks for: nothing, or a command. A line that begins with # is a remark.
    fn carry_out<'a, R: Files, W: Write>(
        &mut self,
        rt: &R,
        writer: &mut W,
        line: &'a [u8],
    ) -> Result<ControlFlow<()>, Failed<'a>> {
        let mut rest = Rest::new(line);
        let Some(word) = rest.next() else {
            return Ok(ControlFlow::Continue(()));
        };
        if word.starts_with(b"#") {
            return Ok(ControlFlow::Continue(()));
        }
        match command_of(word).ok_or(Failed::NoCommand(word))? {
            Command::Help => write!(writer, "{HELP}")?,
            Command::Sets => screen::sets(writer, &self.root, &self.area)?,
            Command::Map => screen::map(writer, &self.root, &self.area, ask_set(rest)?)?,
            Command::Status => writeln!(writer, "{}", self.status)?,
            Command::Cursors => self.say_cursors(writer)?,
            Command::Save => self.save(rt, writer, file_name(rest)?)?,
            Command::Find => self.find(writer, rest)?,
            Command::Get => self.get(writer, rest)?,
            Command::Forward => self.chain(writer, rest, FORWARD)?,
            Command::Backward => self.chain(writer, rest, BACKWARD)?,
            Command::Put => self.put(writer, rest)?,
            Command::Update => self.update(writer, rest)?,
            Command::Delete => self.delete(writer, rest)?,
            Command::New => self.make(writer)?,
            Command::Root => self.take_root(rt, writer, file_name(rest)?)?,
            Command::Load => self.load(rt, writer, file_name(rest)?)?,
            Command::Quit => return Ok(ControlFlow::Break(())),
        }
        Ok(ControlFlow::Continue(()))
    }

    // One line, carried out, or told why not; it breaks off where the person leaves.
    pub fn turn<R: Files, W: Write>(
        &mut self,
        rt: &R,
        writer: &mut W,
        line: &[u8],
    ) -> io::Result<ControlFlow<()>> {
        match self.carry_out(rt, writer, line) {
            Ok(flow) => Ok(flow),
            Err(failed) => {
                failed.tell(writer)?;
                Ok(ControlFlow::Continue(()))
            }
        }
    }
}
