//! A parcel with its body.
ghost use Rattle.std.specs.Prelude.{◌≡◌};
ghost use Rattle.record_codec.specs.Ring.{slot_cell};
ghost use Rattle.snapshot_writer.specs.Parcels.{IsBodyOf};

use crate::parcel::Parcel;
use record_codec::BODY;
use record_codec::ring::slot_cell;
use std::marker::Model;

/// A parcel with the body of a slot that holds it.
#[derive(Drop)]
pub struct Encoded {
    parcel: Parcel,
    body: [u8; BODY],
}

// Clauses see the parcel. The body is that parcel's and no other's.
impl Model for Encoded {
    ghost use Rattle.record_codec.specs.Saved.{SavedFields};
    ghost use Rattle.snapshot_writer.specs.Parcels.{IsBodyOf};

    ghost Value = { SavedFields };

    ghost view = { λ e. e.parcel };

    ghost invariant = { λ e. IsBodyOf e.body e.parcel };
}

/// Spells the parcel. No device is needed for it.
pub fn encode(parcel: Parcel) -> Encoded
    ensures { result ≡ parcel }
{
    let body = parcel.to_saved().to_body();
    Encoded { parcel, body }
}

impl Encoded {
    /// The parcel.
    pub fn parcel(&self) -> &Parcel
        ensures { result.now ≡ self.now }
    {
        &self.parcel
    }

    /// The parcel alone.
    pub fn into_parcel(self) -> Parcel
        ensures { result ≡ self }
    {
        let Encoded { parcel, .. } = self;
        parcel
    }

    /// The body of a slot that holds the parcel.
    pub(crate) fn body(&self) -> &[u8; BODY]
        ensures { IsBodyOf result.now self.now }
    {
        &self.body
    }

    /// The cell of the slot of the parcel's atom.
    pub(crate) fn cell(&self, slot: u8) -> u64
        ensures { result ≡ slot_cell self.now.atom slot }
    {
        slot_cell(self.parcel.atom(), slot)
    }
}
