//! What a condition may name.
ghost use Rattle.std.specs.Prelude.{◌≡◌, ℕ, List, Option};

/// The atoms whose places conditions may name.
pub trait Places {
    ghost atom_named: { Self → List ℕ → Option ℕ };

    ghost place_named: { Self → ℕ → List ℕ → Option ℕ };

    /// The number of the atom with the name.
    fn find_atom(&self, name: &[u8]) -> Option<u16>
        ensures { result ≡ atom_named self.now name.now };

    /// The number of the place with the name, of the atom with the number.
    fn find_place(&self, atom: u16, name: &[u8]) -> Option<u16>
        ensures { result ≡ place_named self.now atom name.now };
}
