//! What a pick says.
ghost use Rattle.std.specs.Prelude.{◌≡◌};
ghost use Rattle.run_text.specs.Picks.{number_as, take_of};

use crate::shown_word::Word;
use crate::weights::Weights;
use plant_model::Choice;
use std::fmt;

/// A pick: it takes the next choice of a run.
#[derive(Drop)]
pub struct Pick {
    /// Where it stands: for a file the number of its line, else which pick it is; from 1.
    pub place: u64,
    /// Which choice it takes.
    pub take: Take,
}

/// How a pick says which choice it takes.
#[derive(Drop)]
pub enum Take {
    /// The entry of the list of choices at this number modulo the list's length. Where there is no choice, the run is stuck.
    Counted(u64),
    /// A choice by the weights of the connectors: the number modulo the sum of the weights falls to a connector, and the number divided by it takes one
    /// of that one's choices. Where no connector that has a choice has a weight, the run is stuck.
    Weighted(u64, Weights),
    /// The entry at this number. A number past the list is refused.
    Numbered(u64),
    /// This choice. Where the state does not have it, it is refused.
    Named(Choice),
    /// None: what stands at the pick's place names no choice of the plant. It is refused.
    Misread(Misread),
}

/// How a number says which choice it takes.
#[derive(Clone, Copy, Debug, PartialEq, Eq)]
pub enum Numbers {
    /// Modulo how many choices there are.
    Modulo,
    /// As it is: a number past the list is refused.
    Strict,
}

impl Numbers {
    /// What the number takes.
    pub fn take(self, number: u64) -> Take
        ensures { take_of result ≡ number_as self number }
    {
        match self {
            Numbers::Modulo => Take::Counted(number),
            Numbers::Strict => Take::Numbered(number),
        }
    }
}

/// What is wrong with a line that names no choice of the plant.
#[derive(Clone, Copy, Debug, PartialEq, Eq)]
pub enum Misread {
    /// The line is longer than a pick can be.
    TooLong,
    /// This first word is neither a number below 2^64, alone on its line, nor the name of a connector.
    UnknownConnector(Word),
    /// This word after the first is no `ATOM.PORT/NUMBER` of a transition of that port (of an atom of the plant). It is the first such
    /// word.
    UnknownMove(Word),
    /// The connector has no interaction of these ports.
    NoInteraction,
}

impl fmt::Display for Misread {
    ghost use Rattle.std.specs.Prelude.{Some};
    ghost use Rattle.run_text.specs.Message.{misread_message};

    ghost output = { λ misread. Some (misread_message misread) };

    fn fmt<W: fmt::Write>(&self, f: &mut fmt::Formatter<W>) -> fmt::Result {
        match self {
            Misread::TooLong => f.write_str("longer than a pick can be"),
            Misread::UnknownConnector(word) => write!(
                f,
                "'{word}' is no connector, and no number within 64 bits that stands alone"
            ),
            Misread::UnknownMove(word) => write!(
                f,
                "'{word}' is no transition of the plant: ATOM.PORT/NUMBER is wanted"
            ),
            Misread::NoInteraction => {
                f.write_str("these participants are no interaction of the connector")
            }
        }
    }
}
