//! Paths as they are shown.
ghost use Rattle.std.specs.Prelude.{◌≡◌, IfOk, string_bytes};
ghost use Rattle.shown_fault.specs.Shown.{shown};

use command_line::shown_word;
use std::alloc::{AllocError, Global};

/// Where what a task reads and writes is, as the words of the command line name it.
#[derive(Clone, Copy)]
pub struct TaskPaths<'a> {
    /// The plant text; empty where the words name none.
    pub plant: &'a str,
    /// What is read beside the plant: the text of the picks, or the standard input of a run by hand that begins without any.
    pub input: Option<&'a str>,
    /// The file in which is saved what is fired.
    pub saved: Option<&'a str>,
}

impl<'a> TaskPaths<'a> {
    ghost use Rattle.std.specs.Prelude.{◌≡◌};
    ghost use Rattle.plant_tasks.specs.Paths.{plant_alone};

    /// A plant text at the path, and nothing beside it.
    pub fn of_plant(plant: &'a str) -> Self
        ensures { result ≡ plant_alone plant.entry }
    {
        TaskPaths {
            plant,
            input: None,
            saved: None,
        }
    }
}

/// A path as it is shown, byte by byte as a line of a plant text is.
pub fn shown_path(alloc: Global, path: &str) -> Result<String, AllocError>
    ensures { IfOk result (λ text. string_bytes text ≡ shown path.now) }
{
    shown_word(alloc, path)
}
