// A root from a file of numbers, and a base kept in a file: the root's length in a word, the root, the area, every word high
// byte first. What is read is looked at whole, in rooms of its own, before anything on the desk changes.
ghost use Rattle.std.specs.Prelude.{◌≤◌, length};

use crate::desk::{Desk, NAME, PART, ROOM, Rooms, Status};
use crate::failed::{Failed, Fault};
use crate::rest::word_of;
use lines::Words;
use session::Session;
use std::alloc::AllocError;
use std::fs::OpenOptions;
use std::io::{ErrorKind, Read, Write};
use std::os::unix::fs::OpenOptionsExt;
use std::rt::Files;
use std::{fs, io, str};

// The words of the area that a root means; none for a root that breaks a rule.
fn area_words(root: &[u16]) -> Option<usize> {
    let mut plan = root::Plan::ROOM;
    Some(layout::ruled(root, &mut plan)?.area_length() as usize)
}

// A file to read, if there is one that can be opened. A name that is not text names none.
fn open_read<R: Files>(rt: &R, name: &[u8]) -> Option<R::File> {
    fs::open(rt, str::from_utf8(name).ok()?).ok()
}

// Reads until the room is full or the file ends, and answers how many bytes were read. A read that fails is taken as the end. (A while
// loop: `read_to_end` into a list asks for more room once the list is full.)
fn read_full<I: Read>(file: &mut I, room: &mut [u8]) -> usize
    ensures { result ≤ length room.new }
{
    let mut done = 0;
    while done < room.len() {
        match file.read(&mut room[done..]) {
            Ok(n) if 0 < n => done += n,
            _ => break,
        }
    }
    done
}

// The next part of a file: shorter than a part where the file ends.
fn read_part<I: Read>(file: &mut I, part: &mut Vec<u8>) -> Result<(), AllocError> {
    part.resize(PART, 0)?;
    let n = read_full(file, part);
    part.truncate(n);
    Ok(())
}

// The numbers of a text, each a word.
fn numbers<'a>(text: &'a [u8], words: &mut Vec<u16>) -> Result<(), Failed<'a>> {
    words.clear();
    for digits in Words::new(text) {
        let word = word_of("a word of the root", Some(digits))?;
        words.push(word).map_err(AllocError::from)?;
    }
    Ok(())
}

// Words into a file, a part after another.
fn write_words<F: Write>(file: &mut F, words: &[u16], part: &mut Vec<u8>) -> io::Result<()> {
    for some in words.chunks(PART / 2) {
        part.resize(2 * some.len(), 0)?;
        lent::unpack(some, part);
        file.write_all(part)?;
    }
    Ok(())
}

// The base into a file, which is closed after.
fn write_base<F: Write + Drop>(mut file: F, desk: &mut Desk) -> io::Result<()> {
    let part = &mut desk.rooms.part;
    let head = (desk.root.len() % 65536) as u16;
    write_words(&mut file, &[head], part)?;
    write_words(&mut file, &desk.root, part)?;
    write_words(&mut file, &desk.area, part)
}

// A new file that only its owner may read and write, beside the one named: it has the first number that no file has yet.
fn create_beside<R: Files>(rt: &R, name: &str, path: &mut String) -> Option<R::File> {
    for n in 0..1000000 {
        path.clear();
        write!(path, "{name}.{n:06}").ok()?;
        let mut how = OpenOptions::new();
        how.write(true).create_new(true).mode(0o600);
        match how.open(rt, path.as_str()) {
            Ok(file) => return Some(file),
            Err(e) if e.kind() == ErrorKind::AlreadyExists => {}
            Err(_) => return None,
        }
    }
    None
}

// The base into a new file, which takes the name once all is written; a file that had the name stays until then.
fn save_by<R: Files>(rt: &R, name: &[u8], desk: &mut Desk) -> Result<(), Fault> {
    if NAME < name.len() {
        return Err(Fault::NotWritten);
    }
    let name = str::from_utf8(name).map_err(|_| Fault::NotWritten)?;
    let file = create_beside(rt, name, &mut desk.rooms.path).ok_or(Fault::NotWritten)?;
    let mut saved = write_base(file, desk);
    let path = desk.rooms.path.as_str();
    if saved.is_ok() {
        saved = fs::rename(rt, path, name);
    }
    if saved.is_err() {
        let _ = fs::remove_file(rt, path);
    }
    saved.map_err(|_| Fault::NotWritten)
}

// The words of a file, if they are whole and there is room for them.
fn read_words<'a, I: Read>(
    file: &mut I,
    name: &'a [u8],
    rooms: &mut Rooms,
) -> Result<(), Failed<'a>> {
    let Rooms { part, words, .. } = rooms;
    words.clear();
    // As many parts as the room takes, and one more that holds the end.
    for _ in 0..=2 * ROOM / PART {
        read_part(file, part)?;
        let (pairs, odd) = part.as_chunks();
        if !odd.is_empty() || ROOM < words.len() + pairs.len() {
            break;
        }
        words.extend(pairs.iter().map(|pair| u16::from_be_bytes(*pair)))?;
        if part.len() < PART {
            return Ok(());
        }
    }
    Err(Failed::File(name, Fault::Long))
}

// The root and the area that the words of a file are.
fn base_of(words: &[u16]) -> Result<(&[u16], &[u16]), Fault> {
    let (size, rest) = words.split_first().ok_or(Fault::EndsInRoot)?;
    let size = *size as usize;
    if rest.len() < size {
        return Err(Fault::EndsInRoot);
    }
    let (root, area) = rest.split_at(size);
    if area.len() == area_words(root).ok_or(Fault::BadRoot)? {
        Ok((root, area))
    } else {
        Err(Fault::BadLength)
    }
}

impl Desk {
    // A root from a file, and an empty base of it.
    pub fn take_root<'a, R: Files, W: Write>(
        &mut self,
        rt: &R,
        writer: &mut W,
        name: &'a [u8],
    ) -> Result<(), Failed<'a>> {
        let mut file = open_read(rt, name).ok_or(Failed::File(name, Fault::NotOpened))?;
        // The room keeps its length, to be filled by the next read; what is wrong with a word is told here, since the desk lends it.
        let n = read_full(&mut file, &mut self.rooms.text);
        if let Err(failed) = numbers(&self.rooms.text[..n], &mut self.rooms.words) {
            failed.tell(writer)?;
            return Ok(());
        }
        let words = &self.rooms.words;
        let size = area_words(words).ok_or(Failed::File(name, Fault::NoGoodRoot))?;
        if ROOM < size {
            return Err(Failed::File(name, Fault::LargeRoot));
        }
        self.root.clear();
        self.root.extend_from_slice(words)?;
        self.area.resize(size, 0)?;
        self.make(writer)
    }

    pub fn save<'a, R: Files, W: Write>(
        &mut self,
        rt: &R,
        writer: &mut W,
        name: &'a [u8],
    ) -> Result<(), Failed<'a>> {
        save_by(rt, name, self).map_err(|fault| Failed::File(name, fault))?;
        writeln!(writer, "saved, {} words of area", self.area.len())?;
        Ok(())
    }

    // A base from a file, with fresh cursors.
    pub fn load<'a, R: Files, W: Write>(
        &mut self,
        rt: &R,
        writer: &mut W,
        name: &'a [u8],
    ) -> Result<(), Failed<'a>> {
        let mut file = open_read(rt, name).ok_or(Failed::File(name, Fault::NotOpened))?;
        read_words(&mut file, name, &mut self.rooms)?;
        let (root, area) = base_of(&self.rooms.words).map_err(|fault| Failed::File(name, fault))?;
        self.root.clear();
        self.root.extend_from_slice(root)?;
        self.area.clear();
        self.area.extend_from_slice(area)?;
        self.session = Session::default();
        self.status = Status([0; 10]);
        writeln!(writer, "loaded, {} words of area", self.area.len())?;
        Ok(())
    }
}
