//! How much room a plant has for records, and which atoms take it.
ghost use Rattle.std.specs.Prelude.{◌≡◌, OnOk};
ghost use Rattle.std.specs.Io.KnownBytes.{Appends};
ghost use Rattle.plant_core.specs.Plants.{definition_of, view_of};
ghost use Rattle.plant_service.specs.Queries.{held_text, part_text, room_text};

use disk_model::Disk;
use plant_core::Plant;
use script_lines::atom_name;
use std::io::Write;
use text_io::{WriteFault, end_line, print_number, print_text};

/// Prints for how many records there is room in all, how many are kept, for how many there is room yet, how many of those that are kept are not
/// acknowledged, and which atoms keep the first where it is.
pub(crate) fn print_room<D: Disk, W: Write>(
    plant: &Plant<'_, D>,
    output: &mut W,
) -> Result<(), WriteFault>
    ensures { OnOk result (Appends (W.contents output.old) (W.contents output.new) (room_text (definition_of plant.now) (view_of plant.now))) }
{
    let front = plant.front();
    let ring = u64::from(plant.ring());
    let live = front.fired + 1 - front.base;
    print_part(b"ring ", ring, output)?;
    print_part(b" live ", live, output)?;
    print_part(b" free ", ring - live, output)?;
    print_part(b" tail ", front.fired - front.acked, output)?;
    print_text(output, b" held")?;
    print_held(plant, output)?;
    end_line(output)
}

/// Prints a word, and a number behind it.
fn print_part<W: Write>(word: &[u8], number: u64, output: &mut W) -> Result<(), WriteFault>
    ensures { OnOk result (Appends (W.contents output.old) (W.contents output.new) (part_text word.now number)) }
{
    print_text(output, word)?;
    print_number(output, number)
}

/// Prints the names of the atoms that keep the first record where it is, each behind a blank; or that there are none.
fn print_held<D: Disk, W: Write>(plant: &Plant<'_, D>, output: &mut W) -> Result<(), WriteFault>
    ensures { OnOk result (Appends (W.contents output.old) (W.contents output.new) (held_text (definition_of plant.now) (view_of plant.now))) }
{
    let system = plant.system();
    system.keeps_its_rules();
    let mut is_any = false;
    for atom in 0..system.atoms().len() {
        if plant.is_base_held_by(atom as u16) {
            print_text(output, b" ")?;
            print_text(output, atom_name(system, atom as u16))?;
            is_any = true;
        }
    }
    if is_any {
        print_text(output, b"")
    } else {
        print_text(output, b" -")
    }
}
