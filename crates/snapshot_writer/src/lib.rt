//! Saving the states of atoms, one by itself or several at once: which slot holds the newest state, and what a stop inside storing leaves.
//!
//! Each atom has two slots. A slot holds a state if its cell is full and its body is a saved state of that very atom. The
//! *newest* of the two is the one that had taken part more often (`specs/Slots.antt`). A state is stored in the other slot, so
//! that the newest is never touched. A stop inside of storing leaves that other slot as it was, empty, or with the whole new state
//! (`specs/Storing.antt`): the newest is the old one or the new one.
//!
//! - A [`Parcel`] is the state of one atom on its way to a slot. It is moved and never copied, and its type keeps it in the ranges
//!   of the format.
//! - An [`Encoded`] is a parcel with the body that spells it, so that no other state's bytes are ever stored for it.
//! - A [`Batch`] has states of several atoms, with their slots and bodies (`specs/Batches.antt`).
//! - `read_slot`, `read_newest` and `slot_to_write` read slots; `store` writes one, and `store_batch` one of each atom of a batch. Who stores
//!   says whether the slot is full, so that storing reads nothing.
//!
//! A parcel is encoded away from the device. Storing is three syncs at most, for a batch too. A stop inside it leaves each slot by itself old,
//! empty or with its new state, which is what storing one after another may leave. Only making a batch takes memory.
//!
//! - `parcel`: a [`Parcel`]. `encoded`: an [`Encoded`]. `batch`: a [`Batch`]. `reading`: the calls that read slots. `storing`: the calls that write.
//! - `laws`: which state is the newest, before a store and after it.
#![tactic(auto)]

mod batch;
mod encoded;
pub mod laws;
mod parcel;
mod reading;
mod storing;

pub use batch::Batch;
pub use encoded::{Encoded, encode};
pub use parcel::Parcel;
pub use reading::{FreeSlot, read_newest, read_slot, slot_to_write};
pub use storing::{store, store_batch};

// The cells of the device and the bodies that are written into them have one length.
const _: () = prove!(disk_model::BODY == record_codec::BODY);

// A state of an atom has room in a body.
const _: () = prove!(petri_atom::MAX_VARIABLES == record_codec::MOST_VARIABLES);
