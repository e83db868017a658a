//! The kinds of lines, and a line at the wrong place.
ghost use Rattle.std.specs.Prelude.{◌≡◌, IfOk};
ghost use Rattle.shown_fault.specs.Kinds.{kind_advice, misplaced_advice, owner_text};

use crate::near::near_line;
use crate::shown::{advice_line, filled_line, joined};
use crate::table::text_of;
use std::alloc::{AllocError, Global};

/// The words that lines begin with.
pub(crate) const FIRST_WORDS: [&[u8]; 10] = [
    b"atom",
    b"place",
    b"var",
    b"port",
    b"trans",
    b"connector",
    b"guard",
    b"move",
    b"prio",
    b"maximal",
];

/// To what a part belongs, by the first word of its line.
pub(crate) const OWNERS: [(&str, &str); 6] = [
    (
        "place",
        "a place belongs to an atom: write 'atom NAME' before it",
    ),
    (
        "var",
        "a variable belongs to an atom: write 'atom NAME' before it",
    ),
    (
        "port",
        "a port belongs to an atom: write 'atom NAME' before it",
    ),
    (
        "trans",
        "a transition belongs to an atom: write 'atom NAME' before it",
    ),
    (
        "guard",
        "a guard belongs to a connector: write 'connector NAME TREE' before it",
    ),
    (
        "move",
        "a transfer belongs to a connector: write 'connector NAME TREE' before it",
    ),
];

/// The kinds of lines, where no line begins with the word, and one that was perhaps meant.
pub(crate) fn kind_advice(alloc: Global, word: &[u8]) -> Result<Vec<u8>, AllocError>
    ensures { IfOk result (λ text. text.items ≡ kind_advice word.now) }
{
    let line = advice_line(
        alloc,
        &[
            b"a line begins with atom, place, var, port, trans, connector, guard, move, prio, maximal or #",
        ],
    )?;
    let near = near_line(alloc, word, &FIRST_WORDS)?;
    joined(alloc, &[&line, &near])
}

/// Where a line that begins with the word has to stand; nothing if it may stand anywhere.
pub(crate) fn misplaced_advice(alloc: Global, word: &[u8]) -> Result<Vec<u8>, AllocError>
    ensures { IfOk result (λ text. text.items ≡ misplaced_advice word.now) }
{
    filled_line(alloc, owner_text(word))
}

/// To what a part belongs; empty if no line of a part begins with the word.
#[tactic(auto, unfolding(crate::specs::Kinds::owner_text))]
fn owner_text(word: &[u8]) -> &'static str
    ensures { result.now ≡ owner_text word.now }
{
    text_of(&OWNERS, word)
}
