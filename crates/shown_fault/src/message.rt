//! What is wrong, beside the mark.
ghost use Rattle.std.specs.Prelude.{◌≡◌, IfOk};
ghost use Rattle.shown_fault.specs.Message.{is_byte_order_mark, begins_as_image, byte_message, has_few_digits, mask_text, integer_text, number_text, message};

use crate::shown::{joined, shown_name};
use crate::wanted::{Wanted, wanted_after};
use plant_text::Fault;
use plant_words::{MAX_DIGITS, is_numeric, split_mask};
use std::alloc::{AllocError, Global};

/// What is wrong with the line of this number, after these words of it. Of a byte, a number and a mask it is said more than by the
/// fault alone.
pub(crate) fn message(
    alloc: Global,
    fault: &Fault,
    number: u32,
    line: &[u8],
    front: &[u8],
    word: &[u8],
) -> Result<Vec<u8>, AllocError>
    ensures { IfOk result (λ text. text.items ≡ message fault.now number line.now front.now word.now) }
{
    match fault {
        Fault::NotAscii if is_byte_order_mark(number, line, front) => joined(
            alloc,
            &[b"the text begins with a byte order mark: save it as plain ASCII"],
        ),
        Fault::NotAscii if number == 1 && front.is_empty() && begins_as_image(line) => {
            joined(alloc, &[IMAGE_TEXT.as_bytes()])
        }
        Fault::NotAscii => byte_message(alloc, word),
        Fault::BadNumber => joined(alloc, &[number_text(wanted_after(front), word).as_bytes()]),
        _ => joined(alloc, &[fault.to_string(alloc)?.as_bytes()]),
    }
}

/// Whether the text begins with the three bytes that some editors put before a text.
fn is_byte_order_mark(number: u32, line: &[u8], front: &[u8]) -> bool
    ensures { result ≡ is_byte_order_mark number line.now front.now }
{
    number == 1 && front.is_empty() && line.starts_with(&[0xef, 0xbb, 0xbf])
}

/// The bytes with which an image begins: the open gate of its first cell, and what an identity begins with.
pub(crate) const IMAGE_BEGIN: [u8; 5] = [0xa5, b'B', b'I', b'P', b'F'];

/// What is said of an image in the place of a plant text.
const IMAGE_TEXT: &str =
    "this file is an image, and no plant text: are PLANT and IMAGE in the wrong order?";

/// Whether the bytes begin as an image does.
fn begins_as_image(bytes: &[u8]) -> bool
    ensures { result ≡ begins_as_image bytes.now }
{
    bytes.starts_with(&IMAGE_BEGIN)
}

/// Why the byte may not stand in a text.
fn byte_message(alloc: Global, byte: &[u8]) -> Result<Vec<u8>, AllocError>
    ensures { IfOk result (λ text. text.items ≡ byte_message byte.now) }
{
    let shown = shown_name(alloc, byte)?;
    match byte {
        [b'\r', ..] => joined(
            alloc,
            &[b"a carriage return may only stand before the end of a line"],
        ),
        [0..=127, ..] => joined(
            alloc,
            &[b"the control byte ", &shown, b" may not stand in a text"],
        ),
        _ => joined(alloc, &[b"the byte ", &shown, b" is not ASCII"]),
    }
}

/// Why the word is no number, where this has to stand.
fn number_text(wanted: Wanted, word: &[u8]) -> &'static str
    ensures { result.now ≡ number_text wanted word.now }
{
    if wanted == Wanted::Side {
        match split_mask(word) {
            Some((_, mask)) => mask_text(mask),
            None => mask_text(word),
        }
    } else {
        integer_text(word)
    }
}

/// Why the word is no mask.
fn mask_text(mask: &[u8]) -> &'static str
    ensures { result.now ≡ mask_text mask.now }
{
    if is_numeric(mask) && mask.first() != Some(&b'-') {
        "a mask is within 64 unsigned bits"
    } else {
        "a mask is digits alone"
    }
}

/// Why the word is no number of the plant.
fn integer_text(word: &[u8]) -> &'static str
    ensures { result.now ≡ integer_text word.now }
{
    if !is_numeric(word) {
        "a number is digits alone, with '-' before a negative one"
    } else if has_few_digits(word) {
        "a number is within 64 signed bits"
    } else {
        "a number has at most 19 digits"
    }
}

/// Whether the word has no more digits than a number may have.
fn has_few_digits(word: &[u8]) -> bool
    ensures { result ≡ has_few_digits word.now }
{
    match word {
        [b'-', digits @ ..] => digits.len() <= MAX_DIGITS,
        digits => digits.len() <= MAX_DIGITS,
    }
}
