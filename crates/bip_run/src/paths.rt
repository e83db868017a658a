//! Where what is read and written is, as it is shown.
ghost use Rattle.std.specs.Prelude.{◌≡◌, IfOk, option_map, string_bytes};
ghost use Rattle.plant_tasks.specs.Paths.{path_of};
ghost use Rattle.shown_fault.specs.Shown.{shown};
ghost use Rattle.bip_run.specs.Paths.{input_in};

use crate::asked::PlantRequest;
use command_line::Work;
use plant_tasks::{TaskPaths, shown_path};
use std::alloc::{AllocError, Global};

/// The paths of a request, as they are shown.
#[derive(Drop)]
pub(crate) struct ShownPaths {
    plant: String,
    input: Option<String>,
    saved: Option<String>,
}

impl ShownPaths {
    ghost use Rattle.command_line.specs.Files.{saved_in};

    /// The paths of the request, byte by byte as a line of a plant text is shown.
    pub(crate) fn of(alloc: Global, request: &PlantRequest<'_>) -> Result<Self, AllocError>
        ensures plant { IfOk result (λ all. string_bytes all.plant ≡ shown request.now.plant.now) }
        ensures input { IfOk result (λ all. option_map string_bytes all.input ≡ option_map shown (input_in request.now.work)) }
        ensures saved { IfOk result (λ all. option_map string_bytes all.saved ≡ option_map shown (saved_in request.now.work)) }
    {
        Ok(ShownPaths {
            plant: shown_path(alloc, request.plant)?,
            input: shown_of(alloc, input_in(&request.work))?,
            saved: shown_of(alloc, request.work.saved())?,
        })
    }

    /// They are lent.
    pub(crate) fn lend(&self) -> TaskPaths<'_>
        ensures plant { result.plant.now ≡ string_bytes self.now.plant }
        ensures input { path_of result.input ≡ option_map string_bytes self.now.input }
        ensures saved { path_of result.saved ≡ option_map string_bytes self.now.saved }
    {
        TaskPaths {
            plant: &self.plant,
            input: lent(&self.input),
            saved: lent(&self.saved),
        }
    }
}

/// What is read beside the plant and can be at fault by its text: that of the picks, or else the standard input of a run by hand.
fn input_in<'a>(work: &Work<'a>) -> Option<&'a str>
    ensures { path_of result ≡ input_in work.now }
{
    match work.recording() {
        Some(path) => Some(path),
        None => work.input(),
    }
}

/// A path that may be there, as it is shown.
fn shown_of(alloc: Global, path: Option<&str>) -> Result<Option<String>, AllocError>
    ensures { IfOk result (λ text. option_map string_bytes text ≡ option_map shown (path_of path.entry)) }
{
    match path {
        Some(path) => Ok(Some(shown_path(alloc, path)?)),
        None => Ok(None),
    }
}

/// It is lent.
fn lent(path: &Option<String>) -> Option<&str>
    ensures { path_of result ≡ option_map string_bytes path.now }
{
    match path {
        Some(path) => Some(path.as_str()),
        None => None,
    }
}
