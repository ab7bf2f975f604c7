// What lies before the person: a root and an area, the cursors, and the last call's status; and the rooms that commands work in.
ghost use Rattle.std.specs.Prelude.{◌≡◌, IfOk, IfErr, get_or, vec_len};
ghost use Rattle.spec.specs.Words.{long};

use screen::Refused;
use session::Session;
use std::alloc::{AllocError, Global};
use std::io::Write;
use std::{fmt, io};
use words::{lay, long_at, word};

// The ten status words of a call.
#[derive(Clone, Copy)]
pub struct Status(pub [u16; 10]);

impl Status {
    // The status of an accepted call; of any other the refusal.
    pub fn accepted(self) -> Result<Status, Refused>
        ensures ok { IfOk result (λ status. (status ≡ self) × (get_or self.0 0 0 ≡ 0)) }
        ensures err { IfErr result (λ why. (why.0 ≡ get_or self.0 0 0) × (why.0 ≡ 0 → ⊥)) }
    {
        match word(&self.0, 0) {
            0 => Ok(self),
            condition => Err(Refused(condition)),
        }
    }

    // The words of the entry.
    pub fn size(&self) -> u16
        ensures { result ≡ get_or self.now.0 1 0 }
    {
        word(&self.0, 1)
    }

    pub fn record(&self) -> u32
        ensures { result ≡ long self.now.0 2 }
    {
        long_at(&self.0, 2)
    }

    // The lines of a chain, or the synonyms of an entry.
    pub fn number(&self) -> u32
        ensures { result ≡ long self.now.0 4 }
    {
        long_at(&self.0, 4)
    }

    // The saved links.
    pub fn back(&self) -> u32
        ensures { result ≡ long self.now.0 6 }
    {
        long_at(&self.0, 6)
    }

    pub fn fore(&self) -> u32
        ensures { result ≡ long self.now.0 8 }
    {
        long_at(&self.0, 8)
    }
}

// The ten words, told one by one.
impl fmt::Display for Status {
    fn fmt<W: fmt::Write>(&self, f: &mut fmt::Formatter<W>) -> fmt::Result {
        match self.accepted() {
            Ok(_) => writeln!(f, "accepted, 0")?,
            Err(refused) => writeln!(f, "{refused}")?,
        }
        writeln!(f, "  entry length             {}", self.size())?;
        writeln!(f, "  record                   {}", self.record())?;
        writeln!(f, "  lines or synonyms        {}", self.number())?;
        writeln!(f, "  saved back               {}", self.back())?;
        write!(f, "  saved forward            {}", self.fore())
    }
}

// The most words that the console keeps of a base: of a root and its area together, and of an area.
pub const ROOM: usize = 131072;

// The bytes of a part of a file.
pub const PART: usize = 4096;

// The longest name of a file that a base is saved to; beside it a new one, with a dot and six digits, has to have room.
pub const NAME: usize = 4000;

// Rooms for what a command reads and writes. Each has all its memory from the start, so that no command wants more.
#[derive(Drop)]
pub struct Rooms {
    // A value or an entry that a person wrote; 16 items of 32 words are the longest.
    pub entry: Vec<u16>,
    // As much of a root's text as is read, from its beginning.
    pub text: Vec<u8>,
    // A part of a base in a file, and the words that a file was found to hold.
    pub part: Vec<u8>,
    pub words: Vec<u16>,
    // The name of a new file.
    pub path: String,
}

impl Rooms {
    fn new(alloc: Global) -> Result<Rooms, AllocError> {
        Ok(Rooms {
            entry: Vec::with_capacity(alloc, 512)?,
            text: vec![in alloc; 0; 65536]?,
            part: Vec::with_capacity(alloc, PART)?,
            words: Vec::with_capacity(alloc, ROOM)?,
            path: String::with_capacity(alloc, NAME + 96)?,
        })
    }
}

#[derive(Drop)]
pub struct Desk {
    pub root: Vec<u16>,
    pub area: Vec<u16>,
    pub session: Session,
    pub status: Status,
    pub rooms: Rooms,
}

impl Desk {
    // "Items: 1 ACCT K1, 2 DATE K1, 3 QTY I1, 4 NAME X2. Set 1, manual, capacity 5: items 1, 4, key 1. Set 2, automatic, capacity
    // 5: item 2. Set 3, detail, capacity 4: items 1, 2, 3; paths (1, 1, 2) and (2, 2, 0)." "area 68 + 58 + 47 = 173"
    pub fn sample(alloc: Global) -> Result<Desk, AllocError> {
        // The longest good root has 658 words.
        let mut root = Vec::with_capacity(alloc, 1024)?;
        root.resize(109, 0)?;
        lay(&mut root, 0, &[4, 3, 2, 1, 2, 1, 1, 1, 3, 2]);
        lay(&mut root, 10, &[1, 5, 2, 1, 0, 1, 4]);
        lay(&mut root, 43, &[2, 5, 1, 2, 0, 2]);
        lay(&mut root, 76, &[3, 4, 3, 0, 2, 1, 2, 3]);
        lay(&mut root, 97, &[1, 1, 2, 2, 2, 0]);
        let mut area = Vec::with_capacity(alloc, ROOM)?;
        area.resize(173, 0)?;
        Ok(Desk {
            root,
            area,
            session: Session::default(),
            status: Status([0; 10]),
            rooms: Rooms::new(alloc)?,
        })
    }

    // The cursor of each set of the root. No Display: it is told of the root and the cursors together.
    pub fn say_cursors<W: Write>(&self, writer: &mut W) -> io::Result<()> {
        let sets = root::sets(&self.root[..]).min(16) as usize;
        for (i, c) in self.session.cursors[..sets].iter().enumerate() {
            write!(
                writer,
                "set {}: record {}, path {}, ",
                i + 1,
                c.current,
                c.path
            )?;
            writeln!(writer, "saved back {}, saved forward {}", c.back, c.fore)?;
        }
        Ok(())
    }
}
