// The six calls, as lines of the script ask for them. What a call may change is kept before it, so that every word that it
// changed can be written.
use crate::command::Verb;
use crate::report::{Lent, made, told};
use crate::stage::Stage;
use session::{Answer, Session};
use std::io;
use std::io::Write;

// The words that a call may change, in the room for them.
fn keep(words: &[u16], kept: &mut Vec<u16>) -> io::Result<()> {
    kept.clear();
    kept.extend_from_slice(words)?;
    Ok(())
}

impl Stage {
    pub fn make<W: Write>(&mut self, writer: &mut W) -> io::Result<()> {
        keep(&self.area, &mut self.kept)?;
        let status = engine::make(&self.root, &mut self.area);
        made(writer, status, &self.kept, &self.area)
    }

    // A find changes no lent slice.
    pub fn find<W: Write>(
        &mut self,
        writer: &mut W,
        set: u16,
        item: u16,
        value: &[u16],
    ) -> io::Result<()> {
        let answer = engine::find(&self.root, &self.area, self.session, set, item, value);
        told(writer, Verb::Find, &mut self.session, answer, None)
    }

    // A get changes the buffer, if any slice.
    pub fn get<W: Write>(
        &mut self,
        writer: &mut W,
        set: u16,
        mode: u16,
        number: u32,
        value: &[u16],
    ) -> io::Result<()> {
        keep(&self.buffer, &mut self.kept)?;
        let answer = engine::get(
            &self.root,
            &self.area,
            self.session,
            set,
            mode,
            number,
            value,
            &mut self.buffer,
        );
        let lent = Lent {
            what: "  buffer ",
            before: &self.kept,
            after: &self.buffer,
        };
        told(writer, Verb::Get, &mut self.session, answer, Some(lent))
    }

    // A call that changes the area, if any slice.
    fn change_area<W: Write, F: FnOnce(&[u16], &mut [u16], Session) -> Answer>(
        &mut self,
        writer: &mut W,
        verb: Verb,
        call: F,
    ) -> io::Result<()>
        requires { F.IsAlwaysCallable call }
    {
        keep(&self.area, &mut self.kept)?;
        let answer = call(&self.root, &mut self.area, self.session);
        let lent = Lent {
            what: "  area ",
            before: &self.kept,
            after: &self.area,
        };
        told(writer, verb, &mut self.session, answer, Some(lent))
    }

    pub fn put<W: Write>(&mut self, writer: &mut W, set: u16, entry: &[u16]) -> io::Result<()> {
        self.change_area(
            writer,
            Verb::Put,
            |root, area, s| engine::put(root, area, s, set, entry),
        )
    }

    pub fn update<W: Write>(&mut self, writer: &mut W, set: u16, entry: &[u16]) -> io::Result<()> {
        self.change_area(
            writer,
            Verb::Update,
            |root, area, s| engine::update(root, area, s, set, entry),
        )
    }

    pub fn delete<W: Write>(&mut self, writer: &mut W, set: u16) -> io::Result<()> {
        self.change_area(
            writer,
            Verb::Delete,
            |root, area, s| engine::delete(root, area, s, set),
        )
    }
}
