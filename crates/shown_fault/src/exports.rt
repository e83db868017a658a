//! A variable that no port of a connector exports.
ghost use Rattle.std.specs.Prelude.{◌≡◌, [], false, IfOk, option_map};
ghost use Rattle.plant_words.specs.Words.{words_of};
ghost use Rattle.shown_fault.specs.Lent.{lists_of};
ghost use Rattle.shown_fault.specs.Exports.{latest_line, port_of_atom, placed, port_line, exporting_line, found_port_advice, no_leaf_line, export_line};

use crate::front::{count_words, skip_words};
use crate::names::{latest_in, says, second_word};
use crate::rule_sign::spaced;
use crate::shown::{advice_line, cut_to, joined, shown_name};
use crate::window::MAX_SHOWN;
use petri_atom::MAX_EXPORTS;
use plant_words::{Words, split_port};
use std::alloc::{AllocError, Global};

/// The last of the lines that begins with this word and has a second one; empty if there is none.
fn latest_line<'t>(lines: &[&'t [u8]], first: &[u8]) -> &'t [u8]
    ensures { result.now ≡ latest_line [] first.now (lists_of lines.now) }
{
    let mut latest: &[u8] = b"";
    for line in lines {
        if second_word(line, first).is_some() {
            latest = line;
        }
    }
    latest
}

/// The port of the atom that is the first among the words.
fn port_of_atom<'t>(words: &mut Words<'t>, atom: &[u8]) -> Option<&'t [u8]>
    ensures { option_map (λ port. port.now) result ≡ port_of_atom atom.now words.old }
{
    while let Some(word) = words.next_word() {
        if let Some(parts) = split_port(word)
            && parts.atom == atom
        {
            return Some(parts.port);
        }
    }
    None
}

/// The line of a port, and its number.
#[derive(Clone, Copy, Drop)]
pub(crate) struct Placed<'t> {
    pub(crate) number: usize,
    pub(crate) line: &'t [u8],
}

/// The line, with its number from 1, that declares the port of the atom.
fn port_line<'t>(lines: &[&'t [u8]], atom: &[u8], port: &[u8]) -> Option<Placed<'t>>
    ensures { option_map placed result ≡ port_line 1 false atom.now port.now (lists_of lines.now) }
{
    let mut is_inside = false;
    for (index, line) in lines.iter().enumerate() {
        if let Some(name) = second_word(line, b"atom") {
            is_inside = name == atom;
        } else if is_inside && says(line, b"port", port) {
            return Some(Placed {
                number: index + 1,
                line,
            });
        }
    }
    None
}

/// How the line of a port has to be written to export this variable too, or that it exports as many as it may.
#[tactic(auto, unfolding(crate::specs::Exports::exporting_line))]
fn exporting_line(alloc: Global, port: Placed<'_>, variable: &[u8]) -> Result<Vec<u8>, AllocError>
    ensures { IfOk result (λ text. text.items ≡ exporting_line (placed port.entry) variable.now) }
{
    let number = port.number.to_string(alloc)?;
    if count_words(port.line) >= MAX_EXPORTS + 2 {
        let most = MAX_EXPORTS.to_string(alloc)?;
        return advice_line(
            alloc,
            &[
                b"the port of line ",
                number.as_bytes(),
                b" exports ",
                most.as_bytes(),
                b" variables already, and no port more",
            ],
        );
    }
    let mut words = Words::new(port.line);
    skip_words(&mut words, 1);
    let rest = spaced(alloc, &mut words)?;
    let line = joined(alloc, &[b"port", &rest, b" ", variable])?;
    let line = cut_to(MAX_SHOWN, &shown_name(alloc, &line)?, alloc)?;
    advice_line(
        alloc,
        &[b"write line ", number.as_bytes(), b" as '", &line, b"'"],
    )
}

/// How to have a port of the atom export the variable; nothing if no line declares the port.
#[tactic(auto, unfolding(crate::specs::Exports::found_port_advice))]
fn found_port_advice(
    alloc: Global,
    lines: &[&[u8]],
    atom: &[u8],
    port: &[u8],
    variable: &[u8],
) -> Result<Vec<u8>, AllocError>
    ensures { IfOk result (λ text. text.items ≡ found_port_advice (lists_of lines.now) atom.now port.now variable.now) }
{
    match port_line(lines, atom, port) {
        Some(found) => exporting_line(alloc, found, variable),
        None => Ok(Vec::new(alloc)),
    }
}

/// That the connector has no port of the atom.
fn no_leaf_line(alloc: Global, connector: &[u8], atom: &[u8]) -> Result<Vec<u8>, AllocError>
    ensures { IfOk result (λ text. text.items ≡ no_leaf_line connector.now atom.now) }
{
    advice_line(
        alloc,
        &[b"connector ", connector, b" has no port of atom ", atom],
    )
}

/// How to have the port of the atom in the latest connector export the variable.
#[tactic(auto, unfolding(crate::specs::Exports::export_line))]
pub(crate) fn export_line(
    alloc: Global,
    lines: &[&[u8]],
    atom: &[u8],
    variable: &[u8],
) -> Result<Vec<u8>, AllocError>
    ensures { IfOk result (λ text. text.items ≡ export_line (lists_of lines.now) atom.now variable.now) }
{
    let mut words = Words::new(latest_line(lines, b"connector"));
    skip_words(&mut words, 2);
    match port_of_atom(&mut words, atom) {
        Some(port) => found_port_advice(alloc, lines, atom, port, variable),
        None => no_leaf_line(alloc, latest_in(lines, b"connector"), atom),
    }
}
