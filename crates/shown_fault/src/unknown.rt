//! A name that no earlier line declares, and those that are declared there.
ghost use Rattle.std.specs.Prelude.{◌≡◌, IfOk};
ghost use Rattle.plant_words.specs.Words.{words_of};
ghost use Rattle.shown_fault.specs.Lent.{lists_of};
ghost use Rattle.shown_fault.specs.Unknown.{unknown_text, port_advice, leaf_advice, unexported_advice, variable_advice, export_advice, connector_advice, mask_lines, bad_mask_advice, name_line, connector_or, side_advice, maximal_advice, unknown_in, unknown_names, unknown_advice};

use crate::below::below_advice;
use crate::condition::{condition_atom_advice, condition_place_advice};
use crate::exports::export_line;
use crate::masks::masks_advice;
use crate::misplaced_word::text_at;
use crate::missing::missing;
use crate::names::{is_among, latest_in, names_in, part_names_in};
use crate::order::order_text;
use crate::parts::{atom_advice, latest_part_advice, part_advice};
use crate::places::{atom_reading_advice, reading_advice};
use crate::quotes::quote_advice;
use crate::shown::{advice_line, joined, quoted};
use crate::spelling::either_text;
use crate::wanted::{Wanted, wanted_after};
use plant_words::{split_export, split_mask, split_port};
use std::alloc::{AllocError, Global};

/// Where a word of a line that stands after these names nothing: what is wrong with it, or the names that may stand there. `below` are the lines after this one.
pub(crate) fn unknown_advice(
    alloc: Global,
    lines: &[&[u8]],
    below: &[&[u8]],
    line: &[u8],
    front: &[u8],
    word: &[u8],
) -> Result<Vec<u8>, AllocError>
    ensures { IfOk result (λ text. text.items ≡ unknown_advice (lists_of lines.now) (lists_of below.now) (words_of line.now) (words_of front.now) word.now) }
{
    let wanted = wanted_after(front);
    let text = unknown_text(front, wanted, word);
    if text.is_empty() {
        unknown_names(alloc, lines, below, line, front, wanted, word)
    } else {
        advice_line(alloc, &[text.as_bytes()])
    }
}

/// What is wrong with a word that stands after these; empty if that is not known.
#[tactic(auto, unfolding(crate::specs::Unknown::unknown_text))]
fn unknown_text(front: &[u8], wanted: Wanted, word: &[u8]) -> &'static str
    ensures { result.now ≡ unknown_text (words_of front.now) wanted word.now }
{
    either_text(order_text(front, word), text_at(wanted, word))
}

/// The names that may stand where this has to, and the line below that declares the word.
fn unknown_names(
    alloc: Global,
    lines: &[&[u8]],
    below: &[&[u8]],
    line: &[u8],
    front: &[u8],
    wanted: Wanted,
    word: &[u8],
) -> Result<Vec<u8>, AllocError>
    ensures { IfOk result (λ text. text.items ≡ unknown_names (lists_of lines.now) (lists_of below.now) (words_of line.now) (words_of front.now) wanted word.now) }
{
    let names = unknown_in(alloc, lines, line, front, wanted, word)?;
    let declared = below_advice(alloc, below, wanted, word)?;
    joined(alloc, &[&names, &declared])
}

/// The names that may stand where this has to, after these words.
#[tactic(auto, unfolding(crate::specs::Unknown::unknown_in))]
fn unknown_in(
    alloc: Global,
    lines: &[&[u8]],
    line: &[u8],
    front: &[u8],
    wanted: Wanted,
    word: &[u8],
) -> Result<Vec<u8>, AllocError>
    ensures { IfOk result (λ text. text.items ≡ unknown_in (lists_of lines.now) (words_of line.now) (words_of front.now) wanted word.now) }
{
    match wanted {
        Wanted::Place | Wanted::Source | Wanted::Target => {
            latest_part_advice(alloc, lines, b"place", b"place", word)
        }
        Wanted::Export | Wanted::Variable => {
            latest_part_advice(alloc, lines, b"var", b"variable", word)
        }
        Wanted::Guard | Wanted::Value => reading_advice(alloc, lines, word),
        Wanted::Port => latest_part_advice(alloc, lines, b"port", b"port", word),
        Wanted::Tree | Wanted::Leaf => leaf_advice(alloc, lines, front, word),
        Wanted::Clause | Wanted::Transfer => export_advice(alloc, lines, word),
        Wanted::Side => side_advice(alloc, lines, word),
        Wanted::ConditionAtom => condition_atom_advice(alloc, lines, line, word),
        Wanted::ConditionPlace => condition_place_advice(alloc, lines, front, word),
        Wanted::Whole => maximal_advice(alloc, lines, word),
        _ => Ok(Vec::new(alloc)),
    }
}

/// Where a quote stands, if a word of a tree begins with one; or else the ports, or the atoms.
#[tactic(auto, unfolding(crate::specs::Unknown::leaf_advice))]
fn leaf_advice(
    alloc: Global,
    lines: &[&[u8]],
    front: &[u8],
    word: &[u8],
) -> Result<Vec<u8>, AllocError>
    ensures { IfOk result (λ text. text.items ≡ leaf_advice (lists_of lines.now) (words_of front.now) word.now) }
{
    if word.first() == Some(&b'\'') {
        quote_advice(alloc, front, word)
    } else {
        port_advice(alloc, lines, word)
    }
}

/// The ports of the atom that a word of a tree names, or the atoms.
#[tactic(auto, unfolding(crate::specs::Unknown::port_advice))]
fn port_advice(alloc: Global, lines: &[&[u8]], word: &[u8]) -> Result<Vec<u8>, AllocError>
    ensures { IfOk result (λ text. text.items ≡ port_advice (lists_of lines.now) word.now) }
{
    let Some(parts) = split_port(word) else {
        return Ok(Vec::new(alloc));
    };
    match atom_advice(alloc, lines, parts.atom)? {
        Some(text) => Ok(text),
        None => part_advice(alloc, lines, parts.atom, b"port", b"port", parts.port),
    }
}

/// The atoms, or the variables of the atom that a word of a connector's line names, or that no port of the connector exports it.
#[tactic(auto, unfolding(crate::specs::Unknown::export_advice))]
fn export_advice(alloc: Global, lines: &[&[u8]], word: &[u8]) -> Result<Vec<u8>, AllocError>
    ensures { IfOk result (λ text. text.items ≡ export_advice (lists_of lines.now) word.now) }
{
    let Some((atom, variable)) = split_export(word) else {
        return advice_line(alloc, &[b"a variable is written as ATOM.VAR here"]);
    };
    match atom_advice(alloc, lines, atom)? {
        Some(text) => Ok(text),
        None => variable_advice(alloc, lines, atom, variable, word),
    }
}

/// The variables of the atom, or that no port of the latest connector exports the one with the name.
#[tactic(auto, unfolding(crate::specs::Unknown::variable_advice))]
fn variable_advice(
    alloc: Global,
    lines: &[&[u8]],
    atom: &[u8],
    variable: &[u8],
    word: &[u8],
) -> Result<Vec<u8>, AllocError>
    ensures { IfOk result (λ text. text.items ≡ variable_advice (lists_of lines.now) atom.now variable.now word.now) }
{
    let names = part_names_in(alloc, lines, atom, b"var")?;
    if is_among(&names, variable) {
        unexported_advice(alloc, lines, atom, variable, word)
    } else {
        atom_reading_advice(alloc, lines, atom, variable)
    }
}

/// That no port of the latest connector exports the variable, and how to have one do so.
#[tactic(auto, unfolding(crate::specs::Unknown::unexported_advice))]
fn unexported_advice(
    alloc: Global,
    lines: &[&[u8]],
    atom: &[u8],
    variable: &[u8],
    word: &[u8],
) -> Result<Vec<u8>, AllocError>
    ensures { IfOk result (λ text. text.items ≡ unexported_advice (lists_of lines.now) atom.now variable.now word.now) }
{
    let word = quoted(alloc, word)?;
    let connector = latest_in(lines, b"connector");
    let what = advice_line(
        alloc,
        &[b"no port of connector ", connector, b" exports ", &word],
    )?;
    let how = export_line(alloc, lines, atom, variable)?;
    joined(alloc, &[&what, &how])
}

/// The connectors.
#[tactic(auto, unfolding(crate::specs::Unknown::connector_advice))]
fn connector_advice(alloc: Global, lines: &[&[u8]], word: &[u8]) -> Result<Vec<u8>, AllocError>
    ensures { IfOk result (λ text. text.items ≡ connector_advice (lists_of lines.now) word.now) }
{
    let names = names_in(alloc, lines, b"connector")?;
    missing(alloc, b"there is no connector", b"there are", word, &names)
}

/// The connectors, or that the mask of the side is no interaction of the connector.
#[tactic(auto, unfolding(crate::specs::Unknown::side_advice))]
fn side_advice(alloc: Global, lines: &[&[u8]], word: &[u8]) -> Result<Vec<u8>, AllocError>
    ensures { IfOk result (λ text. text.items ≡ side_advice (lists_of lines.now) word.now) }
{
    match split_mask(word) {
        Some((name, mask)) => {
            let other = mask_lines(alloc, lines, name, mask)?;
            connector_or(alloc, lines, name, other)
        }
        None => connector_advice(alloc, lines, word),
    }
}

/// The connectors, or that `maximal` takes one of them without a mask.
#[tactic(auto, unfolding(crate::specs::Unknown::maximal_advice))]
fn maximal_advice(alloc: Global, lines: &[&[u8]], word: &[u8]) -> Result<Vec<u8>, AllocError>
    ensures { IfOk result (λ text. text.items ≡ maximal_advice (lists_of lines.now) word.now) }
{
    match split_mask(word) {
        Some((name, _)) => connector_or(alloc, lines, name, name_line(alloc, name)?),
        None => connector_advice(alloc, lines, word),
    }
}

/// The connectors, if the name is none of them, or else this.
#[tactic(auto, unfolding(crate::specs::Unknown::connector_or))]
fn connector_or(
    alloc: Global,
    lines: &[&[u8]],
    name: &[u8],
    other: Vec<u8>,
) -> Result<Vec<u8>, AllocError>
    ensures { IfOk result (λ text. text.items ≡ connector_or (lists_of lines.now) name.now other.items) }
{
    let names = names_in(alloc, lines, b"connector")?;
    if is_among(&names, name) {
        Ok(other)
    } else {
        connector_advice(alloc, lines, name)
    }
}

/// That `maximal` takes the name of a connector, where this one stands with a mask.
fn name_line(alloc: Global, name: &[u8]) -> Result<Vec<u8>, AllocError>
    ensures { IfOk result (λ text. text.items ≡ name_line name.now) }
{
    advice_line(
        alloc,
        &[
            b"'maximal' takes the name of a connector: write 'maximal ",
            name,
            b"'",
        ],
    )
}

/// That the mask is no interaction of the connector, and which are.
#[tactic(auto, unfolding(crate::specs::Unknown::mask_lines))]
fn mask_lines(
    alloc: Global,
    lines: &[&[u8]],
    name: &[u8],
    mask: &[u8],
) -> Result<Vec<u8>, AllocError>
    ensures { IfOk result (λ text. text.items ≡ mask_lines (lists_of lines.now) name.now mask.now) }
{
    let mask = quoted(alloc, mask)?;
    let what = advice_line(
        alloc,
        &[b"mask ", &mask, b" is no interaction of connector ", name],
    )?;
    let masks = masks_advice(alloc, lines, name)?;
    joined(alloc, &[&what, &masks])
}

/// The masks of the connector whose side has a word that is no mask; nothing if it is no connector.
#[tactic(auto, unfolding(crate::specs::Unknown::bad_mask_advice))]
pub(crate) fn bad_mask_advice(
    alloc: Global,
    lines: &[&[u8]],
    word: &[u8],
) -> Result<Vec<u8>, AllocError>
    ensures { IfOk result (λ text. text.items ≡ bad_mask_advice (lists_of lines.now) word.now) }
{
    match split_mask(word) {
        Some((name, _)) => {
            let other = masks_advice(alloc, lines, name)?;
            connector_or(alloc, lines, name, other)
        }
        None => Ok(Vec::new(alloc)),
    }
}
