//! The choices of a plant in a state, and its steps.
//!
//! A plant is a [`System`](plant_model::System), and a [`PlantState`](plant_model::PlantState) is a local state for each atom. In a state
//! [`count_allowed`] and [`nth_allowed`] are the length and the entries of the list of its choices. They take no memory.
//!
//! A [`Stepper`] runs a plant, all of whose atoms are present. A [`Dispatcher`] runs one while some atoms are away, each with a [`Job`]
//! that another thread may do: a choice is then *sure* if it is allowed whatever the atoms that are away do (`specs/Sure.antt`).
//!
//! The choices of a plant in a state:
//! - `enabled_transitions`: which transitions each atom offers, and how many at each port. `leaves`: of each connector the leaves that offer
//!   nothing, and those that offer more than one transition. `changes`: both judged again behind a change, which tells the connectors that this
//!   reaches.
//! - `sights`: what is seen of the atoms, for the conditions of priority rules, seen again after a step.
//! - `judgement`: what a state offers, as it is kept. `choices`: how a judgement is made, and made again after a step: which interactions are
//!   possible, and which of these are kept, since no rival is above them. `settling`: what a step reached is judged again, kept and weighed,
//!   connector by connector. `alone`: so are connectors that no rule ties to others, each by itself.
//! - `standing`: which connectors have a rival, and what other connectors see of one. `keeping`: which interactions of a connector are kept.
//!   `renewal`: which are kept again where rules have conditions, or atoms are away. `words`: sets made right 64 interactions at a time.
//! - `weights`: how many choices the kept interactions of each connector have, and the choice with a place among them. `possible`: in how many
//!   ways an interaction can move. `places`: at which place of the list a choice stands.
//!
//! Its steps:
//! - `firing`: a choice is fired, and what that can change is judged again. `prefetch`: what it needs is read before it is needed.
//! - `stepper`: a plant that runs: its present state, and what that offers, judged again for what a step can change alone.
//!
//! Its steps while atoms are away:
//! - `parts`: what is known of its state then. `opening`: which interactions are open: they may become possible when atoms come back.
//!   `sure`: what is sure, judged again where parts of a state change.
//! - `dispatcher`: the plant that runs. `leaving`: how the participants of a choice leave. `job`: what an atom that is away has to do,
//!   and what is done. `jobs`: the jobs of a choice, and how one is done. `queue`: a row of places, in which they stand.
//!
//! `laws`: what the definitions say of what is sure.
//!
//! The lemmas (`proofs/*.antt`), each named for what it is about:
//! - One state: `Judging`, `Offering` (what atoms and interactions offer), `Flattened`, `Counted`, `LowestBits`, `LowestKept`,
//!   `Ones` (choices in order, by the bits of words), `ConnectorWords`, `ConnectorRange`, `WordChoices`, `SingleChoices`,
//!   `FirstRow` (those of one connector), `ConnectorChoices`, `Weighed`, `Sums` (those of all connectors), `InOrder`, `PlacesInOrder` (how they
//!   stand).
//! - What a system keeps: `OfSystem`, `SystemConnectors`, `OwnRange` (the words of a connector's interactions), `Ranked` (what is below what,
//!   by its ranks).
//! - Kept again: `Restood`, `Looked`, `ToldConnectors` (rivals that came or went), `Renewed` (what that did not reach), `AnyOf`, `OwnBits`.
//! - Judging again: `Recounted`, `Refreshing`, `Written`, `LeafStates`, `Telling`, `Again`, `Putting`, `UsualFirings` (what atoms and leaves offer
//!   behind a change), `Clean`, `Unchanged` (what a change did not reach), `Behind`, `FiringJudged`, `NextConnector`, `Unsettled`,
//!   `BoundedWeights`, `OfAlone`, `SettledBut`, `Judged` (the rest is settled), `WordByWord` (sets made right 64 numbers at a time).
//! - Atoms away: `PartsKept`, `PartsLeft`, `Presence`, `FiringOfParts`, `Queued` (parts, and the jobs that leave), `OfParts`, `Openness`,
//!   `Present`, `Alike`, `OfSure`, `SureAllowed`, `NoneAway` (what a sure choice is: allowed in the whole state), `ConnectorsOf`, `SureBehind`,
//!   `SureSettled` (what is sure, settled behind a change).
//! - `Crossing`: what may go to another thread. `SureRows`: worked examples, computed.
#![tactic(auto)]

mod alone;
mod changes;
mod choices;
mod dispatcher;
mod enabled_transitions;
mod firing;
mod job;
mod jobs;
mod judgement;
mod keeping;
pub mod laws;
mod leaves;
mod leaving;
mod opening;
mod parts;
mod places;
mod possible;
mod prefetch;
mod queue;
mod renewal;
mod settling;
mod sights;
mod standing;
mod stepper;
mod sure;
mod weights;
mod words;

pub use choices::{count_allowed, nth_allowed};
pub use dispatcher::Dispatcher;
pub use job::{Done, Job};
pub use jobs::{Jobs, work};
pub use parts::PlantParts;
pub use places::Listed;
pub use stepper::Stepper;
