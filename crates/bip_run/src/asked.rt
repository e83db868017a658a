//! What is asked for of a plant.
use command_line::Work;

/// What the words of the command line ask for of a plant.
#[derive(Drop)]
pub(crate) struct PlantRequest<'a> {
    /// The path of the plant's text: a file, or `-` for the standard input.
    pub(crate) plant: &'a str,
    /// What is to be done with the plant, and with what beside it.
    pub(crate) work: Work<'a>,
    /// Whether more is printed of a fault than its line, also where the standard error is no terminal.
    pub(crate) explain: bool,
    /// Whether of a plant text that is refused the first fault of each line is told.
    pub(crate) all: bool,
}
