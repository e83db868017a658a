//! A plant text with another first state, so that a changed plant can go on where an old one stood.
//!
//! [`print_restated`] prints a text with the state of a plant as its first one. What it prints is one definition, `restated_text`
//! (`specs/Text.antt`), which goes over the lines and needs no plant: a line `place` gets or loses its `init`, a line `var` gets another
//! number, and every other byte is as it was (`specs/Lines.antt`). A line that says what the state says stays byte for byte, as
//! `var n 007` where the value is 7.
//!
//! The k-th line that begins with `atom` begins the atom k, and the places and variables of the lines after it are numbered from 0, as in
//! the plant that the text means (`specs/Counts.antt`). A line whose atom or whose variable has nothing in the states stays as it is.
//!
//! If the text means a plant, the restated one means the plant with these first states, and nothing else of it is another: [`laws`] has
//! this outright. A restated text can be longer than its text. If it has more than [`MAX_TEXT`](text_io::MAX_TEXT) bytes it means no plant, and is
//! refused before a byte is written ([`RestateFault::TooLong`]).
//!
//! - `print`: [`print_restated`]. `fault`: why it printed nothing, or not all ([`RestateFault`]).
//! - `text`: the whole text, part by part. `line`: the line of a place or of a variable. `cuts`: a line, cut at its words. `counts`: which
//!   atom, which place and which variable a line is about.
//! - [`laws`]: what a restated text means.
//!
//! Memory is taken for the restated text alone.
#![tactic(auto)]

mod counts;
mod cuts;
mod fault;
pub mod laws;
mod line;
mod print;
mod text;

pub use fault::RestateFault;
pub use print::print_restated;
