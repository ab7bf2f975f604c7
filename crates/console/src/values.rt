// A value that a person wrote, as the words of its item: a number, or a text in quotes.
ghost use Rattle.std.specs.Prelude.{◌+◌, ◌≤◌, OnOk, vec_len};

use crate::failed::Failed;
use crate::rest::{Complaint, Rest};
use lines::number_of;
use root::ItemType;
use screen::Item;
use words::{high, low};

// The most that an item takes: I is signed, K unsigned, each of one word or two.
fn most(item: Item) -> u32 {
    match (item.kind, item.size) {
        (ItemType::Signed, 1) => 32767,
        (ItemType::Signed, _) => 2147483647,
        (_, 1) => 65535,
        _ => u32::MAX,
    }
}

// A number with a minus before it, in two's complement.
fn negative(n: u32, item: Item) -> Option<u32> {
    let most = if item.size == 1 { 32768 } else { 2147483648 };
    if n <= most {
        Some(0u32.wrapping_sub(n))
    } else {
        None
    }
}

// A number as an item holds it.
fn number(text: &[u8], item: Item) -> Option<u32> {
    match text {
        [b'-', digits @ ..] if item.kind == ItemType::Signed => negative(number_of(digits)?, item),
        _ => number_of(text).filter(|n| *n <= most(item)),
    }
}

// (Each says by how much the words grow, as `take_value` promises: no type of a Vec can.)
fn take_number<'a>(item: Item, rest: &mut Rest<'a>, out: &mut Vec<u16>) -> Result<(), Failed<'a>>
    ensures { OnOk result (vec_len out.new ≤ vec_len out.old + 2) }
{
    let text = rest.next();
    let n = text.and_then(|word| number(word, item)).ok_or(Complaint {
        what: "a value",
        text,
        wanted: "a number that fits its item is wanted",
    })?;
    if item.size == 1 {
        out.extend_from_slice(&[low(n)])?;
    } else {
        out.extend_from_slice(&[high(n), low(n)])?;
    }
    Ok(())
}

fn take_text<'a>(item: Item, rest: &mut Rest<'a>, out: &mut Vec<u16>) -> Result<(), Failed<'a>>
    ensures { OnOk result (vec_len out.new ≤ vec_len out.old + 32) }
{
    let what = "a text";
    let Some(text) = rest.quoted() else {
        let text = rest.next();
        let wanted = "characters in double quotes are wanted";
        return Err(Failed::from(Complaint { what, text, wanted }));
    };
    let size = item.size as usize;
    if size < text.len().div_ceil(2) {
        let wanted = "it is longer than its item";
        let text = Some(text);
        return Err(Failed::from(Complaint { what, text, wanted }));
    }
    // `pack` writes into room that it is lent; 32 words are the longest item.
    let mut room = [0u16; 32];
    lent::pack(text, &mut room);
    out.extend_from_slice(&room[..size.min(32)])?;
    Ok(())
}

// The value of an item of the root, after what was read before it.
pub fn take_value<'a>(item: Item, rest: &mut Rest<'a>, out: &mut Vec<u16>) -> Result<(), Failed<'a>>
    ensures { OnOk result (vec_len out.new ≤ vec_len out.old + 32) }
{
    match item.kind {
        ItemType::Text => take_text(item, rest, out),
        _ => take_number(item, rest, out),
    }
}
