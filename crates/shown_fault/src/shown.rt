//! Bytes as a terminal may show them.
ghost use Rattle.std.specs.Prelude.{◌≡◌, ◌++◌, ◌<◌, IfOk, OnOk, replicate};
ghost use Rattle.shown_fault.specs.Lent.{lists_of};
ghost use Rattle.shown_fault.specs.Shown.{hex_digit, shown_byte, shown, cut_to, quoted, joined, advice_line, filled_line};

use plant_words::is_legal;
use std::alloc::{AllocError, Global};
use std::slice;

/// How many characters of a word are shown in a message.
pub(crate) const MAX_WORD_SHOWN: usize = 40;

/// The bytes of a file's name, or of a line of a text, as they are shown: a tab as a space, and each other byte that may not stand in a
/// plant text by its number to the base 16. So no name gives a command to a terminal.
pub fn shown_name(alloc: Global, name: &[u8]) -> Result<Vec<u8>, AllocError>
    ensures { IfOk result (λ text. text.items ≡ shown name.now) }
{
    let mut text = Vec::new(alloc);
    for byte in name {
        show_byte(*byte, &mut text)?;
    }
    Ok(text)
}

/// Puts a byte, as it is shown, after the text.
fn show_byte(byte: u8, text: &mut Vec<u8>) -> Result<(), AllocError>
    ensures { OnOk result (text.new.items ≡ text.old.items ++ shown_byte byte) }
{
    if byte == b'\t' {
        text.extend_from_slice(b" ")
    } else if is_legal(slice::from_ref(&byte)) {
        text.extend_from_slice(&[byte])
    } else {
        text.extend_from_slice(&[b'\\', b'x', hex_digit(byte / 16), hex_digit(byte % 16)])
    }
}

/// A digit of a number to the base 16.
fn hex_digit(digit: u8) -> u8
    requires { digit < 16 }
    ensures { result ≡ hex_digit digit }
{
    if digit < 10 {
        b'0' + digit
    } else {
        b'a' - 10 + digit
    }
}

/// The characters, if there is room for so many; and else as many as leave room for `...` after them.
pub(crate) fn cut_to(room: usize, chars: &[u8], alloc: Global) -> Result<Vec<u8>, AllocError>
    ensures { IfOk result (λ text. text.items ≡ cut_to room chars.now) }
{
    if chars.len() <= room {
        return chars.to_vec(alloc);
    }
    let (front, _) = chars.split_at(room.saturating_sub(3));
    joined(alloc, &[front, b"..."])
}

/// A word in quotes, as it is shown; of a long one the first characters.
#[tactic(auto, unfolding(crate::specs::Shown::quoted))]
pub(crate) fn quoted(alloc: Global, word: &[u8]) -> Result<Vec<u8>, AllocError>
    ensures { IfOk result (λ text. text.items ≡ quoted word.now) }
{
    let shown = shown_name(alloc, word)?;
    let fitting = cut_to(MAX_WORD_SHOWN, &shown, alloc)?;
    joined(alloc, &[b"'", &fitting, b"'"])
}

/// The parts, one after the other.
pub(crate) fn joined(alloc: Global, parts: &[&[u8]]) -> Result<Vec<u8>, AllocError>
    ensures { IfOk result (λ text. text.items ≡ joined (lists_of parts.now)) }
{
    let mut text = Vec::new(alloc);
    for part in parts {
        text.extend_from_slice(part)?;
    }
    Ok(text)
}

/// A piece of advice as a line.
pub(crate) fn advice_line(alloc: Global, parts: &[&[u8]]) -> Result<Vec<u8>, AllocError>
    ensures { IfOk result (λ text. text.items ≡ advice_line (lists_of parts.now)) }
{
    let text = joined(alloc, parts)?;
    joined(alloc, &[b"  ", &text, b"\n"])
}

/// A piece of advice as a line; nothing of an empty one.
pub(crate) fn filled_line(alloc: Global, text: &str) -> Result<Vec<u8>, AllocError>
    ensures { IfOk result (λ line. line.items ≡ filled_line text.now) }
{
    if text.is_empty() {
        Ok(Vec::new(alloc))
    } else {
        advice_line(alloc, &[text.as_bytes()])
    }
}

/// So many of this byte.
pub(crate) fn repeated(alloc: Global, byte: u8, count: usize) -> Result<Vec<u8>, AllocError>
    ensures { IfOk result (λ text. text.items ≡ replicate count byte) }
{
    Ok(vec![in alloc; byte; count]?)
}
