// A line that a person or a script wrote: its words one after another, a word read as a number, and words compared.
#![tactic(auto)]

ghost use Rattle.std.specs.Prelude.{◌≡◌, ◌+◌, ◌≤◌, length, drop, eqb};
ghost use Rattle.std.specs.Iterator.{at_most};
ghost use Rattle.std.specs.List.{list_all, prefix_len, zip};
ghost use Rattle.lines.specs.Lines.{blank, letter, other, upper_case, alike, number, FindsWord};

// From the first byte of a word to the byte past its last. (Places, and no slice: who reads on does so from the end.)
#[derive(Clone, Copy)]
pub struct Word {
    pub at: usize,
    pub end: usize,
}

// How many bytes other than b stand first. (Not one function with the next two over a test: it would promise no number, only what the
// test says. That it is within the text is a clause: a number can't name the text.)
fn others(text: &[u8], b: u8) -> usize
    ensures value { result ≡ prefix_len (other b) text.now }
    ensures upper_bound { result ≤ length text.now }
{
    text.iter().take_while(|x| **x != b).count()
}

// How many blanks stand first.
fn blanks(text: &[u8]) -> usize
    ensures value { result ≡ prefix_len blank text.now }
    ensures upper_bound { result ≤ length text.now }
{
    text.iter().take_while(|b| **b < 33).count()
}

// How many letters stand first: everything that isn't a blank counts as a letter.
fn letters(text: &[u8]) -> usize
    ensures value { result ≡ prefix_len letter text.now }
    ensures upper_bound { result ≤ length text.now }
{
    text.iter().take_while(|b| 32 < **b).count()
}

// The place of the next byte b at a place or after it; the line's end where there is none (a count that its clause gives).
pub fn place_of(line: &[u8], from: usize, b: u8) -> usize
    requires { from ≤ length line.now }
    ensures value { result ≡ from + prefix_len (other b) (drop from line.now) }
    ensures lower_bound { (from ≤ result) × (result ≤ length line.now) }
{
    from + others(&line[from..], b)
}

// The next word at a place or after it; where none is left, an empty one at the line's end (as the counts have it). Everything that
// isn't a blank is a letter of a word.
pub fn next_word(line: &[u8], from: usize) -> Word
    requires { from ≤ length line.now }
    ensures at_value { result.at ≡ from + prefix_len blank (drop from line.now) }
    ensures end_value { result.end ≡ result.at + prefix_len letter (drop result.at line.now) }
    ensures from_le_at { (from ≤ result.at) × ((result.at ≤ result.end) × (result.end ≤ length line.now)) }
{
    let at = from + blanks(&line[from..]);
    let end = at + letters(&line[at..]);
    Word { at, end }
}

// The words of a line, one after another, from what of it is still unread.
#[derive(Clone, Copy, Debug)]
pub struct Words<'a> {
    pub rest: &'a [u8],
}

impl<'a> Words<'a> {
    pub fn new(line: &'a [u8]) -> Words<'a>
        ensures { result.rest.now ≡ line.now }
    {
        Words { rest: line }
    }
}

impl<'a> Iterator for Words<'a> {
    type Item = &'a [u8];

    ghost next_gives = { λ s r t. FindsWord s.rest.now r t.rest.now };

    ghost remaining = { λ s. at_most (length s.rest.now) };

    #[tactic(auto, using(crate::proofs::Laws::no_word))]
    fn next(&mut self) -> Option<&'a [u8]> {
        let word = next_word(self.rest, 0);
        let (at, end) = (word.at, word.end);
        if at == end {
            return None;
        }
        let found = &self.rest[at..end];
        self.rest = &self.rest[end..];
        Some(found)
    }
}

// A word as a decimal number up to 4294967295; none where it is no such number. (std's `parse` takes text alone, and a plus before it.)
pub fn number_of(word: &[u8]) -> Option<u32>
    ensures { result ≡ number word.now }
{
    if word.is_empty() {
        return None;
    }
    let mut value: u32 = 0;
    for b in word {
        if *b < b'0' || b'9' < *b {
            return None;
        }
        value = value.checked_mul(10)?.checked_add((*b - b'0') as u32)?;
    }
    Some(value)
}

// A small letter as its capital. (By hand, with `letters_alike` and `is_word`: the wrong program that takes a brace for a letter is
// one of this arm.)
fn upper_case(b: u8) -> u8
    ensures { result ≡ upper_case b }
{
    match b {
        b'a'..=b'z' => b - 32,
        _ => b,
    }
}

// Whether the letters of two words are alike, one by one, as far as both words have any.
fn letters_alike(a: &[u8], b: &[u8]) -> bool
    ensures { result ≡ list_all (λ p. eqb (upper_case p.0) (upper_case p.1)) (zip a.now b.now) }
{
    a.iter()
        .zip(b)
        .all(|(x, y)| upper_case(*x) == upper_case(*y))
}

// Whether two words are alike, upper and lower case aside.
pub fn is_word(a: &[u8], b: &[u8]) -> bool
    ensures { result ≡ alike a.now b.now }
{
    a.len() == b.len() && letters_alike(a, b)
}
