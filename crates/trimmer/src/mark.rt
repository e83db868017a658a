//! What the trimmer knows of a record.
ghost use Rattle.std.specs.Prelude.{◌≡◌, ◌≤◌, ◌+◌, ◌++◌, ◌∷◌, [], length};
ghost use Rattle.trimmer.specs.Covered.{MarkFields};
ghost use Rattle.trimmer.specs.declared.mark.TheConstants.{MOST_PARTICIPANTS};

use std::marker::Model;

/// How many participants a record has at most.
pub const MOST_PARTICIPANTS: usize = 16;

/// One participant of a record.
#[derive(Clone, Copy, Debug, PartialEq, Eq)]
pub struct Participation {
    /// The number of the atom.
    pub atom: u16,
    /// Which firing of the atom this was, from 1 on.
    pub number: u64,
}

/// A record as the trimmer sees it: its number, and its participants in the order of the record. In a contract it is these two.
#[derive(Debug, Drop)]
pub struct Mark {
    number: u64,
    participants: usize,
    row: [Participation; MOST_PARTICIPANTS],
}

impl Model for Mark {
    ghost use Rattle.std.specs.Prelude.{◌≤◌, take};
    ghost use Rattle.trimmer.specs.declared.mark.TheConstants.{MOST_PARTICIPANTS};
    ghost use Rattle.trimmer.specs.Covered.{MarkFields};

    ghost Value = { MarkFields };

    ghost view = { λ m. record { number = m.number; participations = take m.participants m.row } };

    ghost invariant = { λ m. m.participants ≤ MOST_PARTICIPANTS };
}

impl Mark {
    /// The mark of the record with the number. It has no participant yet.
    pub fn new(number: u64) -> Self
        ensures { result ≡ record { number = number; participations = [] } }
    {
        let nobody = Participation { atom: 0, number: 0 };
        Mark {
            number,
            participants: 0,
            row: [nobody; MOST_PARTICIPANTS],
        }
    }

    /// Adds a participant behind the others.
    pub fn push(&mut self, added: Participation)
        requires { length self.old.participations + 1 ≤ MOST_PARTICIPANTS }
        ensures { self.new ≡ record self.old { participations = self.old.participations ++ added ∷ [] } }
    {
        self.row[self.participants] = added;
        self.participants += 1;
    }

    /// The number of the record.
    pub fn number(&self) -> u64
        ensures { result ≡ self.now.number }
    {
        self.number
    }

    /// The participants, in the order of the record.
    pub fn participations(&self) -> &[Participation]
        ensures participations { result.now ≡ self.now.participations }
        ensures few { length result.now ≤ MOST_PARTICIPANTS }
    {
        &self.row[..self.participants]
    }
}
