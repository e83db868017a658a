//! What no clause says.
mod broken;
mod common;
mod host;
mod many;
mod memory;
mod replay;
mod rows;
mod told;
