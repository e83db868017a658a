//! A plant that is stepped by hand.
//!
//! An engineer types lines, and sees the answer to each: a number fires the choice with that number, `fire` the only one of a connector, `back` takes
//! the last firing back, `random N` fires random choices, `until` does so until a connector can be fired, `why` tells why one can't be, and `save`
//! saves what was fired, so that a trace can repeat it. Or a program sends the lines; then a [`Mark`] tells it where each answer ends.
//! [`step_by_hand`] is the whole session, from a reader of lines to a writer of answers. It begins behind picks: what they take is fired before anything
//! is printed, and may be taken back.
//!
//! What a session prints and saves is one definition, `transcript_of` (`specs/Transcript.antt`): of the plant, where the session begins, the lines, and what
//! the [`Saver`] says. A session keeps the places of the choices that were fired (`specs/Session.antt`), and the plant stands in the state that they lead to.
//! Behind picks these are the places of the choices that they take (`session_behind` in `specs/Behind.antt`). Contracts say that exactly
//! this text was appended to a writer, if its type says which bytes it took, and the type of the reader which bytes it gave, and that of the source of
//! picks which those are. If a pick is refused, the session does not begin, and nothing is printed. Contracts say nothing of when a reader or a writer fails.
//!
//! - `stepping`: the session, line by line. `lines`: how long a line may be. `command`: what a line asks for. `mark`: what tells where an answer ends.
//! - `session`: where the plant stands, and what was fired. `behind`: a session that begins behind picks. `answers`: the answer to each command. `random`: the generator of random picks.
//! - `by_name`: the answers to `fire` and `until`. `numbers`: how the numbers of a connector's choices are printed.
//! - `why`: why connectors can't be fired.
//! - `saver`: who saves what was fired.
//! - `mistakes`: what is said of a line that asks for nothing. `help`: the list of what can be asked for.
//! - `fault`: why a session was not held to its end.
//! - `laws`: what a session says of the plant.
//!
//! Memory is taken for the plant, for one line, for the places of what was fired, and for a word that is shown.
#![tactic(auto)]

mod answers;
mod behind;
mod by_name;
mod command;
mod fault;
mod help;
pub mod laws;
mod lines;
mod mark;
mod mistakes;
mod numbers;
mod random;
mod saver;
mod session;
mod stepping;
mod why;

pub use fault::{AnswerFault, StepFault};
pub use lines::MAX_LINE;
pub use mark::Mark;
pub use saver::Saver;
pub use session::Session;
pub use stepping::step_by_hand;
