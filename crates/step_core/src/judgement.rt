//! What a state offers, judged once and kept.

use crate::enabled_transitions::EnabledTransitions;
use crate::leaves::Leaves;
use crate::standing::Standing;
use crate::weights::Weights;
use priority_filter::{InteractionSet, SEEN_ATOMS, Seen};

/// What a state of a plant offers: what each atom offers, and each leaf of a connector, the possible interactions, what is seen of the atoms
/// for the conditions of priority rules, which connectors and interactions are rivals, the interactions that are kept, which no rival is
/// above, and how many choices those of each connector have, and all. It is of fixed size and takes no memory.
#[derive(Drop)]
pub(crate) struct Judgement {
    pub(crate) offers: EnabledTransitions,
    pub(crate) leaves: Leaves,
    pub(crate) possible: InteractionSet,
    pub(crate) seen: [Seen; SEEN_ATOMS],
    pub(crate) standing: Standing,
    pub(crate) kept: InteractionSet,
    pub(crate) weights: Weights,
}
