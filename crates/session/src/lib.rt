// The session and the answer: sixteen cursors, one replaced per call; ten status words; and how a call's outcome becomes them.
#![tactic(auto)]

ghost use Rattle.std.specs.Prelude.{◌≡◌, IfOk, ◌-◌, ◌≤◌, ◌<◌, get_or, replicate, set as set_at};
ghost use Rattle.spec.specs.Outcome.{refused_words};
ghost use Rattle.spec.specs.Cursor.{fresh};
ghost use Rattle.spec.specs.Calls.{status_words};
ghost use Rattle.session.specs.Answers.{status_out, cursors_out, passed_out};

use spec::{Cursor, Links, Refusal};
use words::{high, low, status_word};

// "The 16 cursors are one array that travels by value."
#[derive(Clone, Copy)]
pub struct Session {
    pub cursors: [Cursor; 16],
}

// "It answers ten status words and the cursors; put also answers the lines passed on each of four paths"
#[derive(Clone, Copy)]
pub struct Answer {
    pub status: [u16; 10],
    pub session: Session,
    pub passed: [u16; 4],
}

// What an accepted call tells: the entry's length, the record, the number of status words 5 and 6, the links of 7 to 10, the
// named set's cursor, and the lines passed on each path.
#[derive(Clone, Copy)]
pub struct Good {
    pub size: u16,
    pub at: u32,
    pub number: u32,
    pub links: Links,
    pub cursor: Cursor,
    pub passed: [u16; 4],
}

impl Default for Session {
    // "fresh is all 0" (By hand, for its clause: a derived one tells each word of the sixteen cursors by itself, and with it the proof of
    // `lent::session_of` does not close.)
    fn default() -> Session
        ensures { result.cursors ≡ replicate 16 fresh }
    {
        Session {
            cursors: [Cursor::new(); 16],
        }
    }
}

impl Session {
    // A set's cursor; a fresh one past the sixteenth.
    pub fn cursor_of(&self, set: u16) -> Cursor
        ensures { result ≡ get_or self.now.cursors (set - 1) fresh }
    {
        let own = set.saturating_sub(1) as usize;
        self.cursors.get(own).copied().unwrap_or(Cursor::new())
    }

    // A set's cursor is replaced; none past the sixteenth. (By the place, as in `words::put_word`.)
    fn with_cursor(mut self, set: u16, c: Cursor) -> Session
        ensures { result.cursors ≡ set_at self.cursors (set - 1) c }
    {
        let own = set.saturating_sub(1) as usize;
        if own < self.cursors.len() {
            self.cursors[own] = c;
        }
        self
    }
}

impl Good {
    // "Status on success: 0; entry length; record; ..; saved back; saved forward."
    #[tactic(auto, unfolding(spec::specs::Calls::status_words, spec::specs::Words::long_words))]
    fn status(self) -> [u16; 10]
        ensures { result ≡ status_words self.size self.at self.number self.links }
    {
        [
            0,
            self.size,
            high(self.at),
            low(self.at),
            high(self.number),
            low(self.number),
            high(self.links.back),
            low(self.links.back),
            high(self.links.fore),
            low(self.links.fore),
        ]
    }
}

// "word 1 the number, nine zeros"
#[tactic(auto, unfolding(spec::specs::Outcome::refused_words))]
pub fn refused_status(why: Refusal) -> [u16; 10]
    ensures { result ≡ refused_words why }
{
    let w = status_word(i16::from(why));
    [w, 0, 0, 0, 0, 0, 0, 0, 0, 0]
}

// What the caller is answered.
pub fn answer_of(o: Result<Good, Refusal>, s: Session, set: u16) -> Answer
    ensures status { result.status ≡ status_out o }
    ensures cursors { result.session.cursors ≡ cursors_out o s.cursors set }
    ensures passed { result.passed ≡ passed_out o }
{
    match o {
        Ok(g) => {
            let status = g.status();
            let passed = g.passed;
            Answer {
                status,
                session: s.with_cursor(set, g.cursor),
                passed,
            }
        }
        Err(why) => {
            let status = refused_status(why);
            Answer {
                status,
                session: s,
                passed: [0; 4],
            }
        }
    }
}
