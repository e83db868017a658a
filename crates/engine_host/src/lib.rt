//! One plant under one lock, for many threads.
//!
//! A [`Host`] holds a durable plant under a lock, and each thread holds a [`Seat`]. A call of the host takes the lock and makes one event of
//! the plant. It adds what happened, with its answer, to one history ([`Entry`]), and publishes how far the plant is then, in a word that any
//! thread reads without waiting. So the answers of all threads stand in one legal history of the plant, and each seat knows a first part of
//! it.
//!
//! - `naming`, `opening`: a host is named ([`name`]) and then opened under its name ([`open`]), so that types say whose a seat or a watch is.
//! - `locked`: what lies under the lock ([`Locked`]). `entry`: what an entry of the history has ([`Entry`]). `making`: how an event is added to
//!   the history.
//! - `host`: the calls of a host. `seat`: what a thread holds. `gate`: where a host works outside its lock.
//! - `closing`: all seats come back, and the plant with them.
#![tactic(auto)]

mod closing;
mod entry;
mod gate;
mod host;
mod locked;
mod making;
mod naming;
mod opening;
mod seat;

pub use closing::{CloseRefused, Closed};
pub use entry::Entry;
pub use gate::Gate;
pub use host::Host;
pub use locked::Locked;
pub use naming::Naming;
pub use opening::{MOST_SEATS, Named, name, open};
pub use seat::Seat;
