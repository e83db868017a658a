//! What in a plant is probably a mistake, though the plant breaks no rule.
//!
//! [`print_warnings`] prints a line `PATH:LINE: warning: MESSAGE` for each [`Warning`] of a plant. Which they are, and in which order,
//! is one definition (`specs/Warnings.antt`): a list of warnings, each with the numbers of the parts that it is about. The contract
//! says that exactly their lines were appended to a writer, where its type says which bytes it took; it says nothing of when a
//! writer fails.
//!
//! | Warned of is | MESSAGE | LINE is that of |
//! |---|---|---|
//! | an atom of which no place is marked at first | `atom A has no place that is marked at first, so it never moves` | the atom |
//! | a port that no connector has | `port A.p is in no connector` | the port |
//! | a port that no transition has | `port A.p has no transition` | the port |
//! | a place that is neither marked at first nor a target of a transition | `place A.s is never marked` | the place |
//! | a variable that nothing reads: no guard and no update of its atom, and no guard clause and no transfer's value of a connector | `variable A.n is never read` | the variable |
//! | a guard clause that is the number 0 | `connector c can't be fired: a guard is 0` | the guard clause |
//! | a connector that is to be maximal, though none of its interactions has all leaves of another one and more | `rule orders nothing: connector c has no interaction within another` | the rule |
//! | a priority with a side of a connector that can't be fired, since a guard is 0 | `rule orders nothing: connector c can't be fired` | the rule |
//!
//! First come the warnings of each atom: of itself, its ports, its places and its variables; then those of each connector, and then
//! those of each rule. LINE is 0 if the table of lines has none for the part, as that of a text which is not the plant's.
//!
//! - `print`: the warnings of a whole plant. `atoms`, `connectors`, `rules`: those of each.
//! - `ports`, `places`, `reads`: what the ports, the places and the variables of an atom are tested for.
//! - `warning`: the warnings, as data, and the line of each. `message`: what a warning says. `names`: the names of the parts that it is about.
//! - `report`: what warnings are printed about, and the line of one.
//!
//! Nothing here takes memory.
#![tactic(auto)]

mod atoms;
mod connectors;
mod message;
mod names;
mod places;
mod ports;
mod print;
mod reads;
mod report;
mod rules;
mod warning;

pub use print::print_warnings;
pub use warning::Warning;
