//! What reasons are printed of.
ghost use Rattle.std.specs.Prelude.{◌≡◌, ℕ, None, slice_index_or};
ghost use Rattle.part_text.specs.Seen.{plant_of};
ghost use Rattle.blocked_text.specs.Reason.{reason_of};

use crate::reason::Reason;
use crate::reasons::Reasons;
use plant_model::{PlantState, System};
use priority_filter::INTERACTION_LIMIT;

/// What reasons are printed of: a plant in a state, the lines on which its rules stand in its text, and the reason of each interaction.
#[derive(Drop)]
pub(crate) struct Report<'a> {
    pub(crate) system: &'a System,
    pub(crate) states: &'a PlantState,
    pub(crate) lines: &'a [u32],
    pub(crate) reasons: [Option<Reason>; INTERACTION_LIMIT],
    ghost found: { (n : ℕ) → slice_index_or reasons n None ≡ reason_of (plant_of system.now) states.now n },
}

impl Reasons<'_> {
    ghost use Rattle.blocked_text.specs.Asked.{plant_asked};
    ghost use Rattle.blocked_text.specs.Report.{plant_in};

    /// A report on the plant in the states. Rule k of it stands on the line `lines[k]` of its text.
    pub(crate) fn report<'a>(&'a self, states: &'a PlantState, lines: &'a [u32]) -> Report<'a>
        ensures plant { plant_in result ≡ plant_asked self.now }
        ensures states { result.states.now ≡ states.now }
        ensures lines { result.lines.now ≡ lines.now }
    {
        Report {
            system: self.system,
            states,
            lines,
            reasons: self.reasons_in(states),
        }
    }
}

impl Report<'_> {
    ghost use Rattle.blocked_text.specs.Report.{plant_in};

    /// Why the state does not allow the interaction with this number.
    pub(crate) fn reason_of(&self, number: u16) -> Option<Reason>
        ensures { result ≡ reason_of (plant_in self.now) self.now.states.now number }
    {
        match self.reasons.get(usize::from(number)) {
            Some(reason) => *reason,
            None => None,
        }
    }
}
