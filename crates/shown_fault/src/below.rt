//! A name that a line below declares.
ghost use Rattle.std.specs.Prelude.{◌≡◌, IfOk, option_map};
ghost use Rattle.shown_fault.specs.Lent.{lists_of};
ghost use Rattle.shown_fault.specs.Below.{declaring, below_line, leaf_below, below_advice};

use crate::circle::connector_of;
use crate::names::{says, second_word};
use crate::shown::{advice_line, cut_to, shown_name};
use crate::wanted::Wanted;
use crate::window::MAX_SHOWN;
use plant_words::split_port;
use std::alloc::{AllocError, Global};

/// The first of the lines that begins with these two words. That of a part of an atom is one of the atom in which they begin.
fn declaring<'t>(lines: &[&'t [u8]], is_part: bool, first: &[u8], second: &[u8]) -> Option<&'t [u8]>
    ensures { option_map (λ line. line.now) result ≡ declaring is_part first.now second.now (lists_of lines.now) }
{
    for line in lines {
        if is_part && second_word(line, b"atom").is_some() {
            return None;
        }
        if says(line, first, second) {
            return Some(line);
        }
    }
    None
}

/// Which of the lines below declares the name; nothing if none does.
fn below_line(
    alloc: Global,
    lines: &[&[u8]],
    is_part: bool,
    first: &[u8],
    name: &[u8],
) -> Result<Vec<u8>, AllocError>
    ensures { IfOk result (λ text. text.items ≡ below_line (lists_of lines.now) is_part first.now name.now) }
{
    match declaring(lines, is_part, first, name) {
        Some(line) => {
            let line = cut_to(MAX_SHOWN, &shown_name(alloc, line)?, alloc)?;
            advice_line(
                alloc,
                &[b"the line '", &line, b"' below has to come above this one"],
            )
        }
        None => Ok(Vec::new(alloc)),
    }
}

/// Which of the lines below declares the atom of a word of a tree, or else its port; nothing if none does.
#[tactic(auto, unfolding(crate::specs::Below::leaf_below))]
fn leaf_below(alloc: Global, lines: &[&[u8]], word: &[u8]) -> Result<Vec<u8>, AllocError>
    ensures { IfOk result (λ text. text.items ≡ leaf_below (lists_of lines.now) word.now) }
{
    match split_port(word) {
        Some(parts) => {
            let atom = below_line(alloc, lines, false, b"atom", parts.atom)?;
            if atom.is_empty() {
                below_line(alloc, lines, true, b"port", parts.port)
            } else {
                Ok(atom)
            }
        }
        None => Ok(Vec::new(alloc)),
    }
}

/// Which of the lines below declares what a word names where this has to stand; nothing if none does.
#[tactic(auto, unfolding(crate::specs::Below::below_advice))]
pub(crate) fn below_advice(
    alloc: Global,
    lines: &[&[u8]],
    wanted: Wanted,
    word: &[u8],
) -> Result<Vec<u8>, AllocError>
    ensures { IfOk result (λ text. text.items ≡ below_advice (lists_of lines.now) wanted word.now) }
{
    match wanted {
        Wanted::Place | Wanted::Source | Wanted::Target => {
            below_line(alloc, lines, true, b"place", word)
        }
        Wanted::Export | Wanted::Guard | Wanted::Variable | Wanted::Value => {
            below_line(alloc, lines, true, b"var", word)
        }
        Wanted::Port => below_line(alloc, lines, true, b"port", word),
        Wanted::Tree | Wanted::Leaf => leaf_below(alloc, lines, word),
        Wanted::Side | Wanted::Whole => {
            below_line(alloc, lines, false, b"connector", connector_of(word))
        }
        Wanted::ConditionAtom => below_line(alloc, lines, false, b"atom", word),
        _ => Ok(Vec::new(alloc)),
    }
}
