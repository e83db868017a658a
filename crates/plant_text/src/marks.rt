//! Where in its line the fault of a text stands, for a person who looks at the text.
ghost use Rattle.std.specs.Prelude.{◌≡◌, ◌<◌, ◌-◌, IfOk, Err, slice_get};
ghost use Rattle.std.specs.Option.{option_map};
ghost use Rattle.plant_words.specs.Lines.{lines_of};
ghost use Rattle.plant_text.specs.Marks.{faulty_line};
ghost use Rattle.plant_text.specs.Meaning.{meaning, nothing};
ghost use Rattle.plant_text.specs.declared.fault.PlantFault.{PlantFault};

use crate::draft::PlantDraft;
use crate::fault::Fault;
use connector_tree::{MAX_DEPTH, MAX_LEAVES, TreeFault};
use plant_words::{Lines, Words, is_legal, split_port};
use std::alloc::{AllocError, Global};
use std::slice;

/// The part of a line that a fault is of.
#[derive(Clone, Copy, Debug, PartialEq, Eq)]
pub struct Mark<'a> {
    /// The line as it stands in the text, without its line end.
    pub line: &'a [u8],
    /// How many bytes of the line stand before the part.
    pub start: usize,
    /// How many bytes the part has: none where a word is missing at the line's end.
    pub len: usize,
}

/// Where the first line with a fault has it, or `None` if no line has one: then the fault is of no line, or there is none.
///
/// The part that is marked is the first word that is at fault, or of a word with a byte that may not stand in a text, that byte.
/// Where a word is missing it is the end of the line. Where a tree breaks a rule it is the leaf or the bracket with which it comes to break it,
/// and where a connector has too many interactions its whole tree.
#[tactic(auto, using(crate::proofs::Marked::told_line))]
pub fn find_mark<'t>(alloc: Global, text: &'t [u8]) -> Result<Option<Mark<'t>>, AllocError>
    ensures told { IfOk result (λ found. (told : PlantFault) → meaning text.now ≡ Err told → 0 < told.line →
        option_map (λ mark. mark.line.now) found ≡ slice_get (lines_of text.now) (told.line - 1)) }
    ensures first { IfOk result (λ found. option_map (λ mark. mark.line.now) found ≡ faulty_line (lines_of text.now) nothing) }
{
    let mut draft = PlantDraft::new(alloc);
    let mut lines = Lines::new(text);
    while let Some(line) = lines.next_line() {
        if let Some(mark) = draft.mark_of(line)? {
            return Ok(Some(mark));
        }
    }
    Ok(None)
}

impl<'a> Mark<'a> {
    /// The part that a line with this fault has it in, where its words were asked for up to `seen`, as [`Words::seen`] says.
    pub(crate) fn of(line: &'a [u8], fault: Fault, seen: &'a [u8]) -> Self
        ensures { result.line.now ≡ line.now }
    {
        match fault {
            Fault::NotAscii => Mark::of_illegal_byte(line),
            Fault::Tree(fault) => Mark::of_word(line, faulty_in_tree(tree_of(line), fault)),
            Fault::Limit if seen.is_empty() => Mark::of_all_from(line, tree_of(line)),
            _ if seen.is_empty() => Mark::of_end(line),
            _ => Mark::of_word(line, seen),
        }
    }

    /// The first byte that may not stand in a text.
    fn of_illegal_byte(line: &'a [u8]) -> Self
        ensures { result.line.now ≡ line.now }
    {
        let legal = line
            .iter()
            .take_while(|byte| is_legal(slice::from_ref(*byte)))
            .count();
        Mark {
            line,
            start: legal,
            len: 1,
        }
    }

    /// The end of the line, after its last word.
    fn of_end(line: &'a [u8]) -> Self
        ensures { result.line.now ≡ line.now }
    {
        Mark {
            line,
            start: line.trim_ascii_end().len(),
            len: 0,
        }
    }

    /// The word that `end`, an end of the line, begins with.
    fn of_word(line: &'a [u8], end: &'a [u8]) -> Self
        ensures { result.line.now ≡ line.now }
    {
        Mark {
            line,
            start: line.len().saturating_sub(end.len()),
            len: first_word(end).len(),
        }
    }

    /// All words of `end`, an end of the line.
    fn of_all_from(line: &'a [u8], end: &'a [u8]) -> Self
        ensures { result.line.now ≡ line.now }
    {
        Mark {
            line,
            start: line.len().saturating_sub(end.len()),
            len: end.trim_ascii_end().len(),
        }
    }
}

/// The first word of a part of a line; empty where there is none.
fn first_word(part: &[u8]) -> &[u8] {
    Words::new(part).next_word().unwrap_or(b"")
}

/// The part of a line `connector NAME TREE` from the tree's first word on.
fn tree_of(line: &[u8]) -> &[u8] {
    let mut words = Words::new(line);
    for _ in 0..3 {
        words.next_word();
    }
    words.seen()
}

/// The part of a tree from the word on with which the tree comes to have the fault.
fn faulty_in_tree(tree: &[u8], fault: TreeFault) -> &[u8] {
    match fault {
        TreeFault::TooManyLeaves => from_leaf_past_the_limit(tree),
        TreeFault::TooDeep => from_bracket_past_the_limit(tree),
        TreeFault::SameAtom => from_second_of_an_atom(tree),
        TreeFault::Empty | TreeFault::Memory => from_end_of_empty_bracket(tree),
    }
}

/// The part of a tree from its first leaf on that is one too many.
fn from_leaf_past_the_limit(tree: &[u8]) -> &[u8] {
    let mut words = Words::new(tree);
    let mut leaves = 0;
    while let Some(word) = words.next_word() {
        if split_port(word).is_some() {
            if leaves == MAX_LEAVES {
                return words.seen();
            }
            leaves += 1;
        }
    }
    tree
}

/// The part of a tree from its first bracket on that begins one level too deep.
fn from_bracket_past_the_limit(tree: &[u8]) -> &[u8] {
    let mut words = Words::new(tree);
    let mut level = 1;
    while let Some(word) = words.next_word() {
        match word {
            b"[" if level == MAX_DEPTH => return words.seen(),
            b"[" => level += 1,
            [b']', ..] => level = level.saturating_sub(1),
            _ => {}
        }
    }
    tree
}

/// The part of a tree from its first port on that is of the atom of an earlier one.
fn from_second_of_an_atom(tree: &[u8]) -> &[u8] {
    let mut words = Words::new(tree);
    while let Some(word) = words.next_word() {
        if let Some(port) = split_port(word) {
            let (before, from) = tree.split_at(tree.len().saturating_sub(words.seen().len()));
            if has_atom(before, port.atom) {
                return from;
            }
        }
    }
    tree
}

/// Whether a part of a tree has a port of the atom with the name.
fn has_atom(part: &[u8], atom: &[u8]) -> bool {
    let mut words = Words::new(part);
    while let Some(word) = words.next_word() {
        if let Some(port) = split_port(word)
            && port.atom == atom
        {
            return true;
        }
    }
    false
}

/// The part of a tree from the first bracket's end on that stands directly after the bracket's begin.
fn from_end_of_empty_bracket(tree: &[u8]) -> &[u8] {
    let mut words = Words::new(tree);
    let mut is_open = false;
    while let Some(word) = words.next_word() {
        if is_open && word.first() == Some(&b']') {
            return words.seen();
        }
        is_open = word == b"[".as_slice();
    }
    tree
}
