//! The engine for programs in C: the calls that `kilnmace.h` names.
//!
//! C holds a text or a plant in a [`Variable`]: a pointer to a box of this library's, and a mark by which a variable that holds nothing is told apart. A call takes the
//! box out, asks what is in it (`plant_for_c`), and puts it back. It answers a number of a `Status`.
//!
//! - `texts`: a plant's text, and the parts of it. `devices`: images made, formatted and booted, and what is to be done to C's devices. `looks`: what a plant has.
//!   `events`: what is asked of it. `statuses`: their texts.
//! - `variable`: the variable. `handle`: its pointer, and what is behind it. `parts`: a box with its fields in sight. `told`: how an answer is told.
#![tactic(auto)]

pub mod devices;
pub mod events;
mod handle;
pub mod looks;
mod parts;
pub mod statuses;
pub mod texts;
mod told;
mod variable;

pub use handle::Handle;
pub use told::Detail;
pub use variable::Variable;
