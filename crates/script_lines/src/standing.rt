//! Where a durable plant stands.
ghost use Rattle.std.specs.Prelude.{◌≡◌, ◌++◌, [], codes, OnOk};
ghost use Rattle.std.specs.Io.KnownBytes.{Appends};
ghost use Rattle.std.specs.Option.{option_map_or};
ghost use Rattle.petri_atom.specs.Atom.{definition_of as atom_definition_of};
ghost use Rattle.plant_model.specs.System.{plant_of};
ghost use Rattle.plant_core.specs.Plants.{definition_of, view_of};
ghost use Rattle.run_text.specs.Line.{state_line, states_text};
ghost use Rattle.script_lines.specs.Answers.{standing_text};

use crate::answers::print_front;
use disk_model::Disk;
use petri_atom::{Atom, AtomState};
use plant_core::Plant;
use plant_model::System;
use run_text::print_state;
use std::io::Write;
use text_io::{WriteFault, end_line, print_text};

/// Prints where a plant stands: a line for the present state of each atom, in the order of the atoms, as a trace prints it, and
/// a line that says how far the plant is.
pub fn print_standing<D: Disk, W: Write>(
    plant: &Plant<'_, D>,
    output: &mut W,
) -> Result<(), WriteFault>
    ensures { OnOk result (Appends (W.contents output.old) (W.contents output.new)
        (standing_text (definition_of plant.now) (view_of plant.now))) }
{
    print_present(plant.system(), plant, output)?;
    print_front(plant.front(), output)?;
    end_line(output)
}

/// Prints a line for the present state of each atom.
fn print_present<D: Disk, W: Write>(
    system: &System,
    plant: &Plant<'_, D>,
    output: &mut W,
) -> Result<(), WriteFault>
    ensures { OnOk result (Appends (W.contents output.old) (W.contents output.new)
        (states_text (plant_of system.now) (view_of plant.now).present)) }
{
    system.keeps_its_rules();
    for (number, atom) in system.atoms().iter().enumerate() {
        print_line(atom, plant.look(number as u16), output)?;
    }
    Ok(())
}

/// Prints the line of an atom in this state; nothing if there is none.
fn print_line<W: Write>(
    atom: &Atom,
    state: Option<AtomState>,
    output: &mut W,
) -> Result<(), WriteFault>
    ensures { OnOk result (Appends (W.contents output.old) (W.contents output.new)
        (option_map_or (λ s. state_line (atom_definition_of atom.now) s ++ codes "\n") state [])) }
{
    match state {
        Some(state) => {
            print_state(atom, &state, output)?;
            end_line(output)
        }
        None => print_text(output, b""),
    }
}
