//! Which limit a line passes.
ghost use Rattle.std.specs.Prelude.{◌≡◌, IfOk};
ghost use Rattle.plant_words.specs.Words.{words_of};
ghost use Rattle.shown_fault.specs.Limits.{limit, limit_of_line, limit_of_kind, limit_of_word, limit_at, limit_advice};

use crate::shown::advice_line;
use crate::wanted::{Wanted, wanted_after};
use petri_atom::{
    MAX_EXPORTS, MAX_PLACES, MAX_PORTS, MAX_TRANSITIONS, MAX_UPDATES, MAX_VARIABLES, MAX_WORDS,
};
use plant_model::{MAX_ATOMS, MAX_GUARDS, MAX_INTERACTIONS, MAX_RULES, MAX_TRANSFERS, MAX_WIRES};
use plant_words::{AtomPart, LineKind, RuleKind, WirePart};
use std::alloc::{AllocError, Global};

/// Which limit a line passes whose word that is at fault stands after these.
pub(crate) fn limit_advice(alloc: Global, front: &[u8], word: &[u8]) -> Result<Vec<u8>, AllocError>
    ensures { IfOk result (λ text. text.items ≡ limit_advice (words_of front.now) word.now) }
{
    limit_at(alloc, wanted_after(front), word)
}

/// Which limit is passed by a word that stands where this has to.
fn limit_at(alloc: Global, wanted: Wanted, word: &[u8]) -> Result<Vec<u8>, AllocError>
    ensures { IfOk result (λ text. text.items ≡ limit_at wanted word.now) }
{
    match wanted {
        Wanted::First => limit_of_line(alloc, word),
        Wanted::Export => limit(alloc, b"a port", MAX_EXPORTS, b"variables"),
        Wanted::Tree => limit(alloc, b"a plant", MAX_INTERACTIONS, b"interactions"),
        _ => limit_of_word(alloc, word),
    }
}

/// Which limit is passed by one more line that begins with this word.
fn limit_of_line(alloc: Global, word: &[u8]) -> Result<Vec<u8>, AllocError>
    ensures { IfOk result (λ text. text.items ≡ limit_of_line word.now) }
{
    match LineKind::of(word) {
        Some(kind) => limit_of_kind(alloc, kind),
        None => Ok(Vec::new(alloc)),
    }
}

/// Which limit is passed by one more line of the kind.
fn limit_of_kind(alloc: Global, kind: LineKind) -> Result<Vec<u8>, AllocError>
    ensures { IfOk result (λ text. text.items ≡ limit_of_kind kind) }
{
    match kind {
        LineKind::Atom => limit(alloc, b"a plant", MAX_ATOMS, b"atoms"),
        LineKind::Connector => limit(alloc, b"a plant", MAX_WIRES, b"connectors"),
        LineKind::OfAtom(AtomPart::Place) => limit(alloc, b"an atom", MAX_PLACES, b"places"),
        LineKind::OfAtom(AtomPart::Variable) => {
            limit(alloc, b"an atom", MAX_VARIABLES, b"variables")
        }
        LineKind::OfAtom(AtomPart::Port) => limit(alloc, b"an atom", MAX_PORTS, b"ports"),
        LineKind::OfAtom(AtomPart::Transition) => {
            limit(alloc, b"an atom", MAX_TRANSITIONS, b"transitions")
        }
        LineKind::OfConnector(WirePart::Guard) => {
            limit(alloc, b"a connector", MAX_GUARDS, b"guard clauses")
        }
        LineKind::OfConnector(WirePart::Transfer) => {
            limit(alloc, b"a connector", MAX_TRANSFERS, b"transfers")
        }
        LineKind::Rule(RuleKind::Priority) | LineKind::Rule(RuleKind::Maximal) => {
            limit(alloc, b"a plant", MAX_RULES, b"priority rules")
        }
    }
}

/// Which limit is passed by a word of a transition or of an expression.
fn limit_of_word(alloc: Global, word: &[u8]) -> Result<Vec<u8>, AllocError>
    ensures { IfOk result (λ text. text.items ≡ limit_of_word word.now) }
{
    match word {
        b";" => limit(alloc, b"a transition", MAX_UPDATES, b"updates"),
        _ => limit(alloc, b"an expression", MAX_WORDS, b"words"),
    }
}

/// That something has at most so many parts.
fn limit(alloc: Global, whole: &[u8], most: usize, parts: &[u8]) -> Result<Vec<u8>, AllocError>
    ensures { IfOk result (λ text. text.items ≡ limit whole.now most parts.now) }
{
    let most = most.to_string(alloc)?;
    advice_line(
        alloc,
        &[whole, b" has at most ", most.as_bytes(), b" ", parts],
    )
}
