//! An entry of the history.
use front_word::Fronted;
use plant_core::{Front, Happened};

/// What happened to the plant, and how far it was after it.
#[derive(Drop)]
pub struct Entry {
    /// What was asked of the plant, together with its answer.
    pub happened: Happened,
    /// How far the plant was then.
    pub front: Front,
}

impl Fronted for Entry {
    ghost front = { λ e. e.front };

    fn front(&self) -> Front {
        self.front
    }
}
