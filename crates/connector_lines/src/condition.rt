//! The condition of a rule.
ghost use Rattle.std.specs.Prelude.{◌≡◌};
ghost use Rattle.connector_lines.specs.Conditions.{condition_in, condition_after};

use crate::places::Places;
use plant_words::reading::{end, next_keyword, next_word};
use plant_words::{LineFault, Words};
use priority_filter::At;

/// `when ATOM at PLACE`: the condition that the words are.
pub(crate) fn read_condition<P: Places>(words: &mut Words<'_>, places: &P) -> Result<At, LineFault>
    ensures { result ≡ condition_after (P.atom_named places.now) (P.place_named places.now) words.old }
{
    next_keyword(words, b"when")?;
    read_place(words, places)
}

/// `ATOM at PLACE`: the place that the words name.
fn read_place<P: Places>(words: &mut Words<'_>, places: &P) -> Result<At, LineFault>
    ensures { result ≡ condition_in (P.atom_named places.now) (P.place_named places.now) words.old }
{
    let atom_name = next_word(words)?;
    let atom = places.find_atom(atom_name).ok_or(LineFault::UnknownName)?;
    next_keyword(words, b"at")?;
    let name = next_word(words)?;
    let place = places.find_place(atom, name).ok_or(LineFault::UnknownName)?;
    end(words)?;
    Ok(At { atom, place })
}
