//! A seat of a host.
ghost use Rattle.std.specs.Prelude.{◌≡◌};

use crate::entry::Entry;
use crate::naming::Naming;
use front_word::Watch;
use std::sync::ledger::Share;

/// What a thread holds of a host: its share of the choices that were fired, and a watch. Each call that is lent a seat tells its watch the
/// history up to that call.
#[derive(Drop)]
pub struct Seat<N: Naming> {
    /// How many choices were fired by this seat.
    pub share: Share<N>,
    /// What this seat knows of the history.
    pub watch: Watch<Entry, N>,
    pub ghost one_part: { share.parts ≡ 1 },
}
