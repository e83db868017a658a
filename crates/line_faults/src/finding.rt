//! The faults of a text, one after the other.
ghost use Rattle.std.specs.Prelude.{◌≡◌, IfOk};
ghost use Rattle.line_faults.specs.Faults.{fault_in, faults_in};

use crate::blanking::blank_line;
use plant_text::{Fault, PlantFault, plant_of_text};
use std::alloc::{AllocError, Global};

/// The most faults that a program shows.
pub const MOST_FAULTS: usize = 20;

/// The faults of a plant text, that of each line which has one: this many at most. The list is empty if the text is a plant.
///
/// It takes one copy of the text, and reads it once for each fault. Want of memory is the error, and never a fault of the list.
pub fn faults_of_text(
    alloc: Global,
    text: &[u8],
    most: usize,
) -> Result<Vec<PlantFault>, AllocError>
    ensures { IfOk result (λ faults. faults.items ≡ faults_in most text.now) }
{
    let mut faults = Vec::new(alloc);
    let mut rest = Vec::from_slice(alloc, text)?;
    for _round in 0..most {
        let fault = match fault_of_text(alloc, &rest)? {
            Some(fault) => fault,
            None => return Ok(faults),
        };
        faults.push(fault)?;
        if fault.line == 0 {
            return Ok(faults);
        }
        blank_line(&mut rest, fault.line);
    }
    Ok(faults)
}

/// The first fault of a plant text, or `None` if the text is a plant.
#[tactic(auto, unfolding(crate::specs::Faults::fault_in))]
fn fault_of_text(alloc: Global, text: &[u8]) -> Result<Option<PlantFault>, AllocError>
    ensures { IfOk result (λ fault. fault ≡ fault_in text.now) }
{
    match plant_of_text(alloc, text) {
        Ok(_) => Ok(None),
        Err(
            PlantFault {
                fault: Fault::Memory,
                ..
            },
        ) => Err(AllocError),
        Err(fault) => Ok(Some(fault)),
    }
}
