//! The state of one atom, on its way to a slot.
ghost use Rattle.std.specs.Prelude.{◌≡◌, ◌↔◌, IsTrue};
ghost use Rattle.record_codec.specs.Saved.{IsSaved};
ghost use Rattle.snapshot_writer.specs.Parcels.{saved_by, local_in};

use petri_atom::AtomState;
use record_codec::Saved;
use std::marker::Model;

/// The state of one atom, to be saved. It is moved and never copied.
#[derive(Drop)]
pub struct Parcel {
    atom: u16,
    count: u64,
    at: u64,
    state: AtomState,
}

// Clauses see the fields of the saved state.
impl Model for Parcel {
    ghost use Rattle.record_codec.specs.Saved.{SavedFields, IsSaved};
    ghost use Rattle.snapshot_writer.specs.Parcels.{saved_by};

    ghost Value = { SavedFields };

    ghost view = { λ p. saved_by p.atom p.count p.at p.state };

    ghost invariant = { λ p. IsSaved (saved_by p.atom p.count p.at p.state) };
}

impl Parcel {
    /// The state of the atom with the number, as it stands when it has taken part `count` times and the last record that was fired is `at`.
    pub fn new(atom: u16, count: u64, at: u64, state: AtomState) -> Parcel
        requires { IsSaved (saved_by atom count at state) }
        ensures { result ≡ saved_by atom count at state }
    {
        Parcel {
            atom,
            count,
            at,
            state,
        }
    }

    /// The number of the atom.
    pub fn atom(&self) -> u16
        ensures value { result ≡ self.now.atom }
        ensures in_range { IsSaved self.now }
    {
        self.atom
    }

    /// How often the atom has taken part.
    pub fn count(&self) -> u64
        ensures value { result ≡ self.now.count }
        ensures in_range { IsSaved self.now }
    {
        self.count
    }

    /// The number of the last record that was fired when the state was taken.
    pub fn at(&self) -> u64
        ensures value { result ≡ self.now.at }
        ensures in_range { IsSaved self.now }
    {
        self.at
    }

    /// The state.
    pub fn state(&self) -> &AtomState
        ensures { result.now ≡ local_in self.now }
    {
        &self.state
    }

    /// The state alone.
    pub fn into_state(self) -> AtomState
        ensures { result ≡ local_in self }
    {
        let Parcel { state, .. } = self;
        state
    }

    /// Whether the two parcels are equal.
    pub fn same(&self, other: &Parcel) -> bool
        ensures { IsTrue result ↔ (self.now ≡ other.now) }
    {
        (self.atom == other.atom)
            & (self.count == other.count)
            & (self.at == other.at)
            & self.state.same(&other.state)
    }

    /// The same fields, as they stand in a slot: a value to look at, which can't be handed in.
    pub fn to_saved(&self) -> Saved
        ensures { result ≡ self.now }
    {
        Saved::new(
            self.atom,
            self.count,
            self.at,
            self.state.places(),
            self.state.values(),
        )
    }
}
