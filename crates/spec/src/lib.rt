// The values that the definitions of specs/ and the functions of the engine share. What the engine computes is said in specs/,
// and each of its functions is proved against one definition there; here are a refusal's number and the cursor's own moves alone.
#![tactic(auto)]

ghost use Rattle.std.specs.Prelude.{◌≡◌};
ghost use Rattle.spec.specs.Outcome.{number};
ghost use Rattle.spec.specs.Cursor.{fresh, at_chain, at_record};

// The layout's widths and places, and the root's limits, each named once, as specs/Layout.antt and specs/Root.antt name them.

// "two words (high-water mark and first freed record ..)", before the map
pub const LEAD_WORDS: u16 = 2;

// A line's pair of links: where the link on stands behind the link back.
pub const LINE_WORDS: u16 = 4;

pub const FORE_AT: u16 = 2;

// A chain head: "count, last, first"
pub const HEAD_WORDS: u16 = 5;

pub const LAST_AT: u16 = 1;

pub const FIRST_AT: u16 = 3;

// "five synonym words": a count, the link back, the link on
pub const SYNONYM_WORDS: u16 = 5;

pub const SYNONYM_BACK_AT: u16 = 1;

pub const SYNONYM_FORE_AT: u16 = 3;

// "items, 1..64", "sets, 1..16", "33 words per set", "capacity 1..4,095", "item count 1..16", "path count 0..4"
pub const MAX_ITEMS: u16 = 64;

pub const MAX_SETS: u16 = 16;

pub const SET_WORDS: usize = 33;

pub const MAX_CAPACITY: u16 = 4095;

pub const MAX_SET_ITEMS: u16 = 16;

pub const MAX_PATHS: u16 = 4;

// Why a call is refused, one case for each row of document 01's table "Condition words". `number` in specs/Outcome.antt
// gives each its number; a path's number goes with the two that tell it.
#[derive(Clone, Copy)]
pub enum Refusal {
    BadRoot,
    BadLength,
    NoSet,
    BadCursor,
    NotByCall,
    NoMode,
    NotSearched,
    WrongLength,
    NoPath,
    ShortBuffer,
    NoRecord,
    NoneBelow,
    NoneAbove,
    RecordZero,
    PastCapacity,
    ChainStart,
    ChainEnd,
    KeyChanged,
    KeyPresent,
    SetFull,
    HasLines,
    NoEntry(u8),
    MasterFull(u8),
    Broken,
}

// The paper's number of a refusal, signed.
#[tactic(auto, unfolding(crate::specs::Outcome::number))]
impl From<Refusal> for i16 {
    ghost from_gives = { λ why n. n ≡ number why };

    fn from(why: Refusal) -> i16 {
        match why {
            Refusal::BadRoot => -91,
            Refusal::BadLength => -92,
            Refusal::NoSet => -21,
            Refusal::BadCursor => -93,
            Refusal::NotByCall => -24,
            Refusal::NoMode => -31,
            Refusal::NotSearched => -52,
            Refusal::WrongLength => -95,
            Refusal::NoPath => -94,
            Refusal::ShortBuffer => 50,
            Refusal::NoRecord => 17,
            Refusal::NoneBelow => 10,
            Refusal::NoneAbove => 11,
            Refusal::RecordZero => 12,
            Refusal::PastCapacity => 13,
            Refusal::ChainStart => 14,
            Refusal::ChainEnd => 15,
            Refusal::KeyChanged => 41,
            Refusal::KeyPresent => 43,
            Refusal::SetFull => 16,
            Refusal::HasLines => 44,
            Refusal::NoEntry(path) => 100 + i16::from(path),
            Refusal::MasterFull(path) => 300 + i16::from(path),
            Refusal::Broken => 18,
        }
    }
}

// An item's place in the entry, and its length in words.
#[derive(Clone, Copy)]
pub struct Field {
    pub at: u16,
    pub size: u16,
}

// Where a set stands: its number, its first word, the first word of its map and of its records, how many records it has, the words of
// a record, those of them before the entry, and the words of the entry.
#[derive(Clone, Copy)]
pub struct Shape {
    pub set: u16,
    pub start: u32,
    pub map: u32,
    pub records: u32,
    pub cap: u16,
    pub width: u16,
    pub front: u16,
    pub entry: u16,
}

// A master set: whether it is automatic, whether its key is of type X, its key, and how many paths lead to it. (Two truths, and no
// kind and type: the definitions ask just these.)
#[derive(Clone, Copy)]
pub struct Master {
    pub shape: Shape,
    pub auto: bool,
    pub text: bool,
    pub key: Field,
    pub leads: u16,
}

// A path of a detail set: the master it leads to, where its head stands in a record there, where its links stand in a
// line, its search item, and its sort item if it is sorted. (No Option: the definitions read `sorted` and `sort` as they stand.)
#[derive(Clone, Copy)]
pub struct Path {
    pub to: Master,
    pub head: u16,
    pub links: u16,
    pub search: Field,
    pub sorted: bool,
    pub sort: Field,
}

// A count and two links. In a chain head they are count, last and first; in a primary's synonym words count, last and
// first; in a secondary's 0, previous and next.
#[derive(Clone, Copy)]
pub struct Head {
    pub count: u16,
    pub back: u32,
    pub fore: u32,
}

// A secondary's primary, and what its count becomes when the secondary goes.
#[derive(Clone, Copy)]
pub struct Lowered {
    pub at: u32,
    pub count: u16,
}

// The backward and the forward link of a line on one path.
#[derive(Clone, Copy, Default)]
pub struct Links {
    pub back: u32,
    pub fore: u32,
}

// Where a new line goes on a path: the line behind it, the line ahead of it, and how many were passed.
#[derive(Clone, Copy)]
pub struct Spot {
    pub behind: u32,
    pub ahead: u32,
    pub passed: u16,
}

// What a delete reads of a line on one path: its chain's head, and its own links.
#[derive(Clone, Copy)]
pub struct Hung {
    pub head: Head,
    pub links: Links,
}

// The record that a detail put takes, and what the set's two leading words become.
#[derive(Clone, Copy)]
pub struct Taken {
    pub at: u32,
    pub mark: u16,
    pub freed: u16,
}

// "A cursor: current record, current path, saved back, saved forward."
#[derive(Clone, Copy, Default)]
pub struct Cursor {
    pub current: u32,
    pub path: u32,
    pub back: u32,
    pub fore: u32,
}

impl Cursor {
    // "fresh is all 0"
    pub fn new() -> Self
        ensures { result ≡ fresh }
    {
        Self::default()
    }

    // "Find sets the path, record 0, back = last, forward = first"
    pub fn at_chain(mut self, path: u32, h: Head) -> Self
        ensures { result ≡ at_chain path h }
    {
        self.current = 0;
        self.path = path;
        self.back = h.back;
        self.fore = h.fore;
        self
    }

    // "Get and put make their record current and save its links on the current path"
    pub fn at_record(mut self, r: u32, l: Links) -> Self
        ensures { result ≡ at_record self r l }
    {
        self.current = r;
        self.back = l.back;
        self.fore = l.fore;
        self
    }
}
