//! A durable plant.
//!
//! A [`Plant`] steps in memory and keeps its records on a device. Firing makes no call of the device: the choice goes to the *tail* with the
//! values that come in, and its record is spelled into room that was made when the plant was booted. A flush writes the tail by two syncs, whatever its length, and
//! then all of it is acknowledged. Whenever no call runs and the device has not failed, whatever a stop leaves stands for the acknowledged
//! state. A stop inside a flush, and any stop after one that failed, leaves what stands for the state after some front of the tail.
//!
//! The state of each atom is saved by itself, while the others step: [`Plant::ask`] copies it, it is encoded away from the plant, and
//! [`Plant::put`] stores it, once all firings that it includes are acknowledged. A restart then replays for each atom what lies after its
//! newest saved state, however often the other atoms had taken part when theirs were saved. [`Plant::save`] stores the acknowledged states of all atoms
//! that are behind, by three syncs, however many they are. The records that no restart needs any more go from the front by [`Plant::trim`], and the
//! ring is used again.
//!
//! Contracts see a plant as its view (`specs/View.antt`: the acknowledged state, the tail, the present state, what is known of saved states)
//! and its device; what each event answers and changes is `specs/Events.antt`.
//!
//! - `plant`: what it holds. `making`: what it is made of, and how.
//! - `choosing`: what it can fire next. `fire`, `beginning`, `flush`, `asking`, `putting`, `saving`, `trimming`: its calls. `beginning` has both what gives jobs out and what takes them back.
//!   `driving`: any of them, and many.
//! - `snapshots`: what it knows of saved states. `marks`: what it knows of records. `hands`: the states and the jobs that are to be handed in.
//! - `front`: how far it is, and what it shows. `room`: how much room it has, and which atoms take it. `resting`: what it keeps whenever
//!   no call runs. `laws`: what runs of events do.
//! - `events`: what is asked of it and what it answers. `refused`: why a call is refused. `limits`: how much is held in memory.
#![tactic(auto)]

mod asking;
mod beginning;
mod choosing;
mod driving;
mod events;
mod fire;
mod flush;
mod front;
mod hands;
pub mod laws;
mod limits;
mod making;
mod marks;
mod plant;
mod putting;
mod refused;
mod resting;
mod room;
mod saving;
mod snapshots;
mod trimming;

pub use driving::{drive, meet};
pub use events::{Event, FiredAs, Happened, Returned, SavedTo};
pub use front::Front;
pub use hands::Hands;
pub use limits::MOST_TAIL;
pub use making::Parts;
pub use marks::marks_of;
pub use plant::Plant;
pub use refused::{BackRefused, PutRefused, Refused};
pub use snapshots::Snapshots;
