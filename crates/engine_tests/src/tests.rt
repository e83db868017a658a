//! What no clause says and no run of the program shows, on values worked out by hand.
mod atoms;
mod faults;
mod orders;
mod reading;
mod steps;
mod sure_choices;
mod trees;
mod writing;
