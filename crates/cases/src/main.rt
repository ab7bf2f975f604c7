// The worked cases: a script of calls on standard input, worked on the engine. Written is the script, line by line, and after
// each call all that it answered and changed. The same is written by the second program, on a model of its own; the gate
// compares the two.
#![tactic(auto)]

mod calls;
mod command;
mod report;
mod stage;

use command::{Failed, Rooms};
use stage::Stage;
use std::alloc::Global;
use std::io;
use std::io::{BufWriter, Read, Write};

// Works the script up to its end, or to a line that can't be read: what follows would be worked on another base than was meant. All
// rooms are made before the first line, so that memory can't run out between two calls.
fn work<W: Write>(alloc: Global, writer: &mut W, text: &[u8]) -> io::Result<()> {
    let mut stage = Stage::new(alloc)?;
    let mut rooms = Rooms::new(alloc)?;
    for (i, line) in text.split_inclusive(|b| *b == b'\n').enumerate() {
        let line = line.strip_suffix(b"\n").unwrap_or(line);
        match stage.work_line(writer, line, &mut rooms) {
            Ok(()) => {}
            Err(Failed::Unreadable) => return writeln!(writer, "line {} can't be read", i + 1),
            Err(Failed::System(error)) => return Err(error),
        }
    }
    Ok(())
}

fn main(rt: HostRuntime) -> io::Result<()> {
    let mut text = Vec::new(rt.alloc());
    rt.reader().take(65536).read_to_end(&mut text)?;
    let mut writer = BufWriter::new(rt.alloc(), rt.stdout())?;
    if text.len() < 65536 {
        work(rt.alloc(), &mut writer, &text)?;
    } else {
        writeln!(
            writer,
            "the script can't be read: it has more than 65535 bytes"
        )?;
    }
    writer.flush()
}
