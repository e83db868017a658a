//! Inputs with their variables found.
ghost use Rattle.std.specs.Prelude.{◌≡◌, ◌<◌, ◌^◌};
ghost use Rattle.petri_atom.specs.declared.state.TheConstants.{MAX_EXPORTS};

/// An input to an exported variable of an atom, with its leaf as a set. The other fields are as those of a `Delivery`.
#[derive(Drop)]
pub(crate) struct BoundInput {
    pub(crate) leaves: u32,
    pub(crate) lower: u64,
    pub(crate) atom: u16,
    pub(crate) export: u8,
    pub(crate) bit: u8,
    ghost exported: { export < MAX_EXPORTS },
    ghost its_bit: { bit ≡ 2 ^ export },
}
