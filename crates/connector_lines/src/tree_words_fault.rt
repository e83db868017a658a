//! Why words are no tree of a connector.
use connector_tree::TreeFault;
use plant_words::LineFault;
use std::alloc::AllocError;
use std::fmt;
use thiserror::Error;

/// Why words are no tree of a connector, or that memory ran out.
#[derive(Clone, Copy, Debug, PartialEq, Eq, Error)]
pub enum TreeWordsFault {
    /// A byte of a word is no printed ASCII character, space or tab.
    NotAscii,
    /// A word that is written as a port names an atom or a port that isn't there.
    UnknownName,
    /// There are no words, a word is no bracket and not written as a port, or a bracket has only one of its ends.
    Shape,
    /// The words are a tree that is no connector, with its first fault; never its `Memory`.
    Tree(TreeFault),
    /// Memory ran out.
    Memory,
}

impl fmt::Display for TreeWordsFault {
    ghost use Rattle.std.specs.Prelude.{Some};
    ghost use Rattle.connector_lines.specs.TreeWordsFaults.{message_of};

    ghost output = { λ fault. Some (message_of fault) };

    fn fmt<W: fmt::Write>(&self, f: &mut fmt::Formatter<W>) -> fmt::Result {
        match self {
            TreeWordsFault::NotAscii => write!(f, "{}", LineFault::NotAscii),
            TreeWordsFault::UnknownName => write!(f, "{}", LineFault::UnknownName),
            TreeWordsFault::Shape => write!(f, "{}", LineFault::Shape),
            TreeWordsFault::Tree(fault) => write!(f, "{fault}"),
            TreeWordsFault::Memory => write!(f, "{}", LineFault::Memory),
        }
    }
}

impl From<AllocError> for TreeWordsFault {
    ghost use Rattle.std.specs.Prelude.{◌≡◌};
    ghost use Rattle.connector_lines.specs.declared.tree_words_fault.TreeWordsFault.TheVariants.{Memory};

    ghost from_gives = { λ _ fault. fault ≡ Memory };

    fn from(_error: AllocError) -> Self {
        Self::Memory
    }
}
