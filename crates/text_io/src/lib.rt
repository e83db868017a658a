//! The two ends of the product's texts: one is read from a reader, and lines are printed to a writer.
//!
//! - `digest`: [`digest_of`] is a text's SHA-256.
//! - `printing`: [`print_text`], [`print_number`], [`print_signed`] and [`end_line`] print the parts of a line.
//!   Each says which bytes the writer took, so that what a function prints by them in turn is their `++`. They take
//!   no memory, and each makes one call of `write_all`: over a file, print to a `std::io::BufWriter`, and flush it.
//! - `handing`: [`hand_on`] hands on what a writer still keeps.
//! - `format`: the [`Format`]s that a run can be asked for in. What each prints is said above, where runs are printed.
//! - `line`: [`read_line`] reads one line of a reader, and keeps of it what there is room for.
//! - `reading`: [`read_text`] gives all bytes of a reader, or says why not ([`TextFault`]).
//!
//! Contracts name the bytes of a reader or writer where its type says them, as `std::io` does: `R.remaining` are
//! those that a reader goes on to give, and `W.contents` those that a writer took. Of another reader or writer,
//! such as a file, they say nothing.
#![tactic(auto)]

mod digest;
mod format;
mod handing;
mod line;
mod printing;
mod reading;

pub use digest::digest_of;
pub use format::Format;
pub use handing::hand_on;
pub use line::read_line;
pub use printing::{WriteFault, end_line, print_number, print_signed, print_text};
pub use reading::{MAX_TEXT, TextFault, read_text};
