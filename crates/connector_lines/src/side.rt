//! One side of a rule.
ghost use Rattle.std.specs.Prelude.{◌≡◌, drop};
ghost use Rattle.connector_lines.specs.Sides.{one_of, side_in};

use crate::connectors::Connectors;
use plant_words::reading::{check, next_word};
use plant_words::{LineFault, Words, read_decimal, split_mask};
use priority_filter::Side;

/// The greatest number that is a mask.
const MAX_MASK: u64 = u16::MAX as u64;

/// The side that the next word is.
pub(crate) fn read_side<C: Connectors>(
    words: &mut Words<'_>,
    connectors: &C,
) -> Result<Side, LineFault>
    ensures side { result ≡ side_in (C.connector_named connectors.now) (C.has_interaction connectors.now) words.old }
    ensures taken { words.new ≡ drop 1 words.old }
{
    let word = next_word(words)?;
    if let Some((name, mask)) = split_mask(word) {
        return read_one(name, mask, connectors);
    }
    let connector = connectors
        .find_connector(word)
        .ok_or(LineFault::UnknownName)?;
    Ok(Side::Whole(connector))
}

/// The interaction with the mask, of the connector with the name.
fn read_one<C: Connectors>(name: &[u8], mask: &[u8], connectors: &C) -> Result<Side, LineFault>
    ensures { result ≡ one_of (C.connector_named connectors.now) (C.has_interaction connectors.now) (name.now, mask.now) }
{
    let connector = connectors
        .find_connector(name)
        .ok_or(LineFault::UnknownName)?;
    let number = read_decimal(mask).ok_or(LineFault::BadNumber)?;
    check(number <= MAX_MASK, LineFault::UnknownName)?;
    let mask = number as u16;
    check(
        connectors.has_interaction(connector, mask),
        LineFault::UnknownName,
    )?;
    Ok(Side::One(connector, mask))
}
