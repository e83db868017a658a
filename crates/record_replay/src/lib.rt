//! Records of a run, and how the state of an atom is brought forward over them.
//!
//! A fired choice leaves a *record*: its number, its connector, and for each participant its transition, which of its firings
//! this was, and what was delivered to it (`specs/Records.antt`). A restart never folds a global state: it takes each atom by
//! itself from its saved state over the records that came after that, with the values that these hold (`specs/Replay.antt`).
//! That this gives the state at the end of the run, whatever counts the saved states carry, is [`laws::mixed_counts`].
//!
//! Which records a plant can have follows from its interactions alone (`specs/OfPlant.antt`), so that a restart can judge what it reads.
//!
//! No device is known here, and nothing takes memory.
//!
//! - `records`: the record of a step, and how often each atom has taken part. `fitting`: whether a record can be of a plant.
//!   `finding`: the interaction that such a record names.
//! - `replay`: the replay of one atom. `parts`: which atoms have a part in a record. `fault`: why it ends. `laws`: what these say of one another.
#![tactic(auto)]

mod fault;
mod finding;
mod fitting;
pub mod laws;
mod parts;
mod records;
mod replay;

pub use fault::ReplayFault;
pub use fitting::is_record_of;
pub use parts::atoms_in;
pub use records::{FiredStep, count_participants, push_record};
pub use replay::replay_atom;

// What the model and the layout of a record say of the same numbers.
const _: () = prove!(connector_tree::MAX_LEAVES == record_codec::MOST_ENTRIES);

const _: () = prove!(plant_model::MAX_ATOMS == record_codec::MOST_ATOMS as usize);

const _: () = prove!(plant_model::MAX_WIRES == record_codec::MOST_CONNECTORS as usize);

const _: () = prove!(petri_atom::MAX_TRANSITIONS == record_codec::MOST_TRANSITIONS as usize);

const _: () = prove!(petri_atom::MAX_EXPORTS == record_codec::MOST_EXPORTED);
