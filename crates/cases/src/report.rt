// What is written of a call: its status words, the lines passed, and every cursor and every word that it changed.
use crate::command::Verb;
use session::{Answer, Session};
use spec::Cursor;
use std::io;
use std::io::Write;

pub fn echo<W: Write>(writer: &mut W, line: &[u8]) -> io::Result<()> {
    writer.write_all(line)?;
    writeln!(writer)
}

fn say_words<W: Write>(writer: &mut W, what: &str, words: &[u16]) -> io::Result<()> {
    write!(writer, "{what}")?;
    for word in words {
        write!(writer, " {word}")?;
    }
    writeln!(writer)
}

// A set's cursor as numbers, which are compared and written: the spec's `Cursor` has no `==`, and the definitions' crate gets none for
// a program's sake.
fn numbers(c: &Cursor) -> [u32; 4] {
    [c.current, c.path, c.back, c.fore]
}

// Every cursor that is another than before; whether there is one.
fn cursors<W: Write>(
    writer: &mut W,
    before: &[Cursor; 16],
    after: &[Cursor; 16],
) -> io::Result<bool> {
    let mut any = false;
    for (i, (before, after)) in before.iter().zip(after).enumerate() {
        let (old, new) = (numbers(before), numbers(after));
        if old != new {
            let ([a, b, c, d], [k, l, m, n]) = (old, new);
            writeln!(
                writer,
                "  cursor {}: {a} {b} {c} {d} -> {k} {l} {m} {n}",
                i + 1
            )?;
            any = true;
        }
    }
    Ok(any)
}

// Every word of a run that is another than before; whether there is one.
fn changes<W: Write>(
    writer: &mut W,
    what: &str,
    before: &[u16],
    after: &[u16],
) -> io::Result<bool> {
    let mut any = false;
    for (i, (old, new)) in before.iter().zip(after).enumerate() {
        if old != new {
            let lead = if any { ", " } else { what };
            write!(writer, "{lead}{i}: {old} -> {new}")?;
            any = true;
        }
    }
    if any {
        writeln!(writer)?;
    }
    Ok(any)
}

// What the making of a base answered and changed.
pub fn made<W: Write>(
    writer: &mut W,
    status: [u16; 10],
    kept: &[u16],
    area: &[u16],
) -> io::Result<()> {
    say_words(writer, "  status", &status)?;
    if !changes(writer, "  area ", kept, area)? {
        writeln!(writer, "  nothing changed")?;
    }
    Ok(())
}

// A lent slice that a call may change, as it was and as it is.
#[derive(Clone, Copy)]
pub struct Lent<'a> {
    pub what: &'static str,
    pub before: &'a [u16],
    pub after: &'a [u16],
}

// What any other call answered and changed; the session is then the call's. After a put the lines passed are told even if they
// are all 0.
pub fn told<W: Write>(
    writer: &mut W,
    verb: Verb,
    session: &mut Session,
    answer: Answer,
    lent: Option<Lent>,
) -> io::Result<()> {
    say_words(writer, "  status", &answer.status)?;
    if verb == Verb::Put || answer.passed != [0; 4] {
        say_words(writer, "  passed", &answer.passed)?;
    }
    let moved = cursors(writer, &session.cursors, &answer.session.cursors)?;
    let changed = match lent {
        Some(lent) => changes(writer, lent.what, lent.before, lent.after)?,
        None => false,
    };
    if !moved && !changed {
        writeln!(writer, "  nothing changed")?;
    }
    *session = answer.session;
    Ok(())
}
