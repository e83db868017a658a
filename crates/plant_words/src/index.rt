//! Names in written order, each found by its bytes.
ghost use Rattle.std.specs.Prelude.{◌≡◌, ◌<◌, ◌++◌, [], ◌∷◌, length, position, None, IfSome, OnOk, OnErr};
ghost use Rattle.petri_atom.specs.Name.{is_same_text};

use indexmap::IndexSet;
use std::alloc::{AllocError, Global};
use std::marker::Model;

/// Names in written order. In a contract it is the list of their bytes.
#[derive(Drop)]
pub struct NameIndex {
    alloc: Global,
    names: IndexSet<Vec<u8>>,
}

impl Model for NameIndex {
    ghost use Rattle.std.specs.Prelude.{List, ℕ, map};

    ghost Value = { List (List ℕ) };

    ghost view = { λ index. map (λ name. name.items) index.names.keys };
}

impl NameIndex {
    /// The index of no names.
    pub fn new(alloc: Global) -> Self
        ensures { result ≡ [] }
    {
        NameIndex {
            alloc,
            names: IndexSet::new(alloc),
        }
    }

    /// The place of the name, by one look-up of its hash.
    pub fn find(&self, name: &[u8]) -> Option<usize>
        ensures first { result ≡ position (λ known. is_same_text known name.now) self.now }
        ensures within { IfSome result (λ place. place < length self.now) }
    {
        self.names.get_index_of(name)
    }

    /// Puts a new name after the others. It holds a copy of the name's bytes.
    pub fn add(&mut self, name: &[u8]) -> Result<(), AllocError>
        requires { position (λ known. is_same_text known name.now) self.old ≡ None }
        ensures added { OnOk result (self.new ≡ self.old ++ name.now ∷ []) }
        ensures unchanged { OnErr result (self.new ≡ self.old) }
    {
        let bytes = name.to_vec(self.alloc)?;
        self.names.insert(bytes)?;
        Ok(())
    }
}
