//! The lines that write a rule, by the words after their first.
ghost use Rattle.std.specs.Prelude.{◌≡◌};
ghost use Rattle.connector_lines.specs.Conditions.{rule_after};
ghost use Rattle.connector_lines.specs.Rules.{priority_in, maximal_in};

use crate::condition::read_condition;
use crate::connectors::Connectors;
use crate::places::Places;
use crate::side::read_side;
use plant_words::reading::{end, next_keyword, next_word};
use plant_words::{LineFault, Words};
use priority_filter::{Rule, Side};

/// `prio SIDE < SIDE`, and after it `when ATOM at PLACE` or nothing: each interaction of the left side is below each of the right
/// side, while the place is marked or always. Which words stay is not said.
pub fn read_priority<C: Connectors, P: Places>(
    words: &mut Words<'_>,
    connectors: &C,
    places: &P,
) -> Result<Rule, LineFault>
    ensures { result ≡ priority_in (C.connector_named connectors.now) (C.has_interaction connectors.now) (P.atom_named places.now) (P.place_named places.now) words.old }
{
    let left = read_side(words, connectors)?;
    next_keyword(words, b"<")?;
    let right = read_side(words, connectors)?;
    read_behind(left, right, words, places)
}

/// The rule of two sides that ends with these words.
fn read_behind<P: Places>(
    left: Side,
    right: Side,
    words: &mut Words<'_>,
    places: &P,
) -> Result<Rule, LineFault>
    ensures { result ≡ rule_after (P.atom_named places.now) (P.place_named places.now) left right words.old }
{
    if words.peek().is_none() {
        return Ok(Rule::Under(left, right));
    }
    let at = read_condition(words, places)?;
    Ok(Rule::UnderAt(left, right, at))
}

/// `maximal NAME`: each interaction of the connector is below each other one of it that has all its leaves. Which words
/// stay is not said.
pub fn read_maximal<C: Connectors>(words: &mut Words<'_>, connectors: &C) -> Result<Rule, LineFault>
    ensures { result ≡ maximal_in (C.connector_named connectors.now) words.old }
{
    let word = next_word(words)?;
    let connector = connectors
        .find_connector(word)
        .ok_or(LineFault::UnknownName)?;
    end(words)?;
    Ok(Rule::Maximal(connector))
}
