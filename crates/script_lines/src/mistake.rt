//! What is wrong with a line that asks for no event.
ghost use Rattle.std.specs.Prelude.{◌≡◌};

/// What is wrong with a word of a line, or what is missing there.
#[derive(Clone, Copy, Debug, PartialEq, Eq)]
pub enum Wrong {
    /// The line has a byte that no plant text may hold.
    Byte,
    /// The line is a comment, and a script has none.
    Comment,
    /// The first word is no event.
    NoEvent,
    /// What is to be fired is missing.
    NoChoice,
    /// The number of a choice is missing.
    NoNumber,
    /// The word has to be a number below 2^64, and is none.
    BadNumber,
    /// The word has to be the number of a choice or the name of a connector, and the plant has no such connector.
    UnknownConnector,
    /// The first word that is no move of the plant, behind the name of a connector.
    UnknownMove,
    /// The connector has no interaction of the moves behind it.
    NoInteraction,
    /// The name of an atom is missing.
    NoName,
    /// The word has to be the name of an atom, and the plant has none of this name.
    UnknownAtom,
    /// The word stands behind the last one that belongs to the event.
    LeftOver,
}

/// Why a line asks for no event.
#[derive(Clone, Copy, Debug, PartialEq, Eq)]
pub struct Mistake {
    /// The place of the word among those of the line, from 0, or how many words there are where one is missing. Where one of the words that
    /// have to be moves is none, it is the place of the first of these.
    pub word: usize,
    /// What is wrong with it.
    pub wrong: Wrong,
}

impl Mistake {
    /// This is wrong with the word at the place.
    pub(crate) fn at(word: usize, wrong: Wrong) -> Self
        ensures { result ≡ record { word = word; wrong = wrong } }
    {
        Mistake { word, wrong }
    }
}
