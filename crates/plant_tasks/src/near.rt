//! A connector that was perhaps meant, where a name is of none.
ghost use Rattle.std.specs.Prelude.{◌≡◌, IfOk, map};
ghost use Rattle.run_text.specs.Seen.{plant_of};
ghost use Rattle.shown_fault.specs.Lent.{lists_of};
ghost use Rattle.shown_fault.specs.Near.{near_line};
ghost use Rattle.plant_tasks.specs.Near.{connector_names};

use plant_model::{System, Wire};
use plant_text::plant_of_text;
use run_text::{Misread, Refusal, RefusedPick};
use shown_fault::near_line;
use std::alloc::{AllocError, Global};
use std::str;

/// Tells which connector of the plant of the text has nearly the name that the first word of a pick is, where the pick is refused for that word.
pub(crate) fn tell_near_pick<R: Eprint + AllocGlobal>(rt: &R, text: &[u8], refusal: &Refusal) {
    if let RefusedPick::Misread(Misread::UnknownConnector(word)) = &refusal.why {
        tell_near_connector(rt, text, word.as_bytes());
    }
}

/// Tells which connector of the plant of the text has nearly this name, if one has.
pub fn tell_near_connector<R: Eprint + AllocGlobal>(rt: &R, text: &[u8], name: &[u8]) {
    // Where there is no memory for it, nothing is told.
    if let Ok(system) = plant_of_text(rt.alloc(), text)
        && let Ok(line) = near_connector(rt.alloc(), &system, name)
    {
        let _ = rt.eprint(str::from_utf8(&line).unwrap_or(""));
    }
}

/// A line with the name of the connector that was perhaps meant by a name; nothing if none has nearly that.
fn near_connector(alloc: Global, system: &System, name: &[u8]) -> Result<Vec<u8>, AllocError>
    ensures { IfOk result (λ line. line.items ≡ near_line name.now (connector_names (plant_of system.now))) }
{
    let names = names_of(alloc, system.wires())?;
    near_line(alloc, name, &names)
}

/// The names of these connectors.
fn names_of<'a>(alloc: Global, wires: &'a [Wire]) -> Result<Vec<&'a [u8]>, AllocError>
    ensures { IfOk result (λ names. lists_of names.items ≡ map (λ w. w.name) wires.now) }
{
    let mut names = Vec::new(alloc);
    for wire in wires {
        names.push(wire.name.as_bytes()).map_err(AllocError::from)?;
    }
    Ok(names)
}
