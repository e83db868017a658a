//! The condition of a rule, and what is seen of the atoms that it speaks of.
ghost use Rattle.std.specs.Prelude.{◌≡◌, ◌↔◌, ◌||◌, not, IsTrue};
ghost use Rattle.priority_filter.specs.Active.{may_be_marked};
ghost use Rattle.priority_filter.specs.Members.{has_bit};
ghost use Rattle.priority_filter.specs.Order.{IsKnownPlace};

/// How many atoms conditions can speak of.
pub const SEEN_ATOMS: usize = 64;

/// How many places of an atom conditions can speak of.
pub const SEEN_PLACES: usize = 64;

/// A condition: this place of this atom is marked.
#[derive(Clone, Copy, Debug, PartialEq, Eq)]
pub struct At {
    pub atom: u16,
    pub place: u16,
}

/// What is seen of one atom: whether its marking is known, and which places are marked then, bit k for place k.
#[derive(Clone, Copy, Debug, PartialEq, Eq)]
pub struct Seen {
    pub known: bool,
    pub places: u64,
}

impl At {
    /// Whether the atom and the place are among those that a row can show.
    pub(crate) fn is_known(self) -> bool
        ensures { IsTrue result ↔ IsKnownPlace self }
    {
        usize::from(self.atom) < SEEN_ATOMS && usize::from(self.place) < SEEN_PLACES
    }

    /// Whether the place is marked as far as is seen. It may be if nothing is known of its atom.
    pub fn may_be_marked(self, seen: &[Seen; SEEN_ATOMS]) -> bool
        ensures { result ≡ may_be_marked seen.now self }
    {
        match seen.get(usize::from(self.atom)) {
            Some(seen) => seen.may_have(self.place),
            None => false,
        }
    }
}

impl Seen {
    /// Whether the place of the atom is marked as far as is seen.
    pub fn may_have(self, place: u16) -> bool
        ensures { result ≡ (not self.known || has_bit self.places place) }
    {
        !self.known || has_place(self.places, place)
    }
}

/// Whether the place is one of these.
fn has_place(places: u64, place: u16) -> bool
    ensures { result ≡ has_bit places place }
{
    usize::from(place) < SEEN_PLACES && (places >> place) & 1 == 1
}
