// A console: a person looks into a base and changes it, by commands of one line each, from a terminal or from a script that the
// first argument names. It begins with the sample base of document 01, empty; `help` tells the commands.
#![tactic(auto)]

mod asked;
mod calls;
mod commands;
mod desk;
mod failed;
mod files;
mod rest;
mod values;

use desk::Desk;
use std::alloc::AllocError;
use std::io::{BufWriter, Read, Write};
use std::ops::ControlFlow;
use std::rt::{Env, Files};
use std::{fs, io, str};

// The longest line.
const LONGEST: usize = 4096;

// As much of a line as is shown.
fn shown(line: &[u8]) -> &[u8] {
    line.get(..LONGEST).unwrap_or(line)
}

// Where commands come from; a script's are shown as they are carried out.
#[derive(Drop)]
struct Source<I> {
    input: I,
    script: bool,
}

impl<I: Read> Source<I> {
    fn read_byte(&mut self) -> Option<u8> {
        let mut byte = [0u8];
        match self.input.read(&mut byte) {
            Ok(1) => Some(byte[0]),
            _ => None,
        }
    }

    // The next line, of one that is too long no more than shows it; whether there is one. A byte at a time, so that nothing of
    // the line after it is taken. It gives no line of its own: one buffer serves them all.
    fn read_line(&mut self, line: &mut Vec<u8>) -> Result<bool, AllocError> {
        line.clear();
        // Counted, since a loop that could go on for ever is refused; the input ends it.
        for _ in 0..u64::MAX {
            match self.read_byte() {
                Some(b'\n') => return Ok(true),
                Some(b) => {
                    if line.len() <= LONGEST {
                        line.push(b)?;
                    }
                }
                None => return Ok(!line.is_empty()),
            }
        }
        Ok(false)
    }

    // A terminal is asked for each line. All that was written before is seen before the line is read.
    fn prompt<W: Write>(&self, writer: &mut W) -> io::Result<()> {
        if !self.script {
            write!(writer, "> ")?;
        }
        writer.flush()
    }

    // A script's line is shown before it is carried out.
    fn echo<W: Write>(&self, writer: &mut W, line: &[u8]) -> io::Result<()> {
        if self.script {
            write!(writer, "> ")?;
            writer.write_all(line)?;
            writeln!(writer)?;
            writer.flush()?;
        }
        Ok(())
    }

    // No line is left. A terminal that showed the sign for one gets its line ended.
    fn ended<W: Write>(&self, writer: &mut W) -> io::Result<()> {
        if !self.script {
            writeln!(writer)?;
        }
        writer.flush()
    }

    // One line, carried out; one that is too long isn't.
    fn serve<R: Files, W: Write>(
        &self,
        rt: &R,
        writer: &mut W,
        desk: &mut Desk,
        line: &[u8],
    ) -> io::Result<ControlFlow<()>> {
        self.echo(writer, shown(line))?;
        if line.len() <= LONGEST {
            return desk.turn(rt, writer, line);
        }
        writeln!(
            writer,
            "the line is longer than 4096 characters; nothing was done"
        )?;
        Ok(ControlFlow::Continue(()))
    }

    fn run<R: Files + AllocGlobal, W: Write>(&mut self, rt: &R, writer: &mut W) -> io::Result<()> {
        let mut desk = Desk::sample(rt.alloc())?;
        // A byte more than the longest line: so a longer one shows.
        let mut line = Vec::with_capacity(rt.alloc(), LONGEST + 1)?;
        writeln!(
            writer,
            "Maltorhu, on the sample base of three sets, empty. help tells the commands."
        )?;
        // Counted as well; the last line or the person ends it.
        for _ in 0..u64::MAX {
            self.prompt(writer)?;
            if !self.read_line(&mut line)? {
                return self.ended(writer);
            }
            if self.serve(rt, writer, &mut desk, &line)?.is_break() {
                break;
            }
        }
        writer.flush()
    }
}

// One line of what failed and why. The system's reasons end in their number, which is left out.
fn fail<W: Write>(writer: &mut W, what: &[u8], text: &str) -> io::Result<()> {
    let why = match text.split_once(" (os error ") {
        Some((before, _)) => before,
        None => text,
    };
    writer.write_all(what)?;
    writeln!(writer, ": {why}")
}

// The program's argument at a place: none where it is missing, empty or longer than its room.
fn arg<'a, E: Env>(rt: &E, i: usize, name: &'a mut [u8]) -> Option<&'a [u8]> {
    match rt.arg(i, name) {
        Ok(n) if 0 < n => Some(&name[..n]),
        _ => None,
    }
}

fn main(rt: HostRuntime) -> io::Result<()> {
    let mut room = [0u8; 4096];
    let mut writer = BufWriter::new(rt.alloc(), rt.stdout())?;
    let Some(name) = arg(&rt, 1, &mut room) else {
        let mut source = Source {
            input: rt.reader(),
            script: false,
        };
        return source.run(&rt, &mut writer);
    };
    let Ok(path) = str::from_utf8(name) else {
        return fail(&mut rt.stderr(), name, "the name of a file is text");
    };
    match fs::open(&rt, path) {
        Ok(input) => {
            let mut source = Source {
                input,
                script: true,
            };
            source.run(&rt, &mut writer)
        }
        Err(e) => {
            let text = format!(in rt.alloc(); "{e}")?;
            fail(&mut rt.stderr(), name, text.as_str())
        }
    }
}
