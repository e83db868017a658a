//! Making of a device one that stands for the first state of a plant.
ghost use Rattle.std.specs.Prelude.{◌≡◌, ◌≢◌, ◌+◌, ◌*◌, ◌-◌, ◌≤◌, true, false, length, replicate, IfErr, IfOk, OnOk};
ghost use Rattle.std.specs.List.{range_with_len};
ghost use Rattle.recovery.specs.Seen.{plant_of, digest_of, initial_states, LEAST_RING, MOST_RING, device_cells, CountsUpTo, Reads, size_of, Leaves};
ghost use Rattle.recovery.specs.Formatting.{HasFormatted, IsFormatting, formatted_size, is_disk_error, is_disk_refusal, returned};

use crate::fault::{FormatFault, FormatRefused};
use crate::writing::{other_cells, write_image};
use disk_model::{BODY, Cells, Disk};
use plant_model::{MAX_ATOMS, PlantState, System};
use std::alloc::Global;

/// Makes of the device one that stands for the first state of the plant and for the number 0, with a ring of so many records. Whatever it
/// held is gone then. A stop inside leaves what it held, or an unformatted device, or the whole new one. All memory is taken before the first
/// call of the device, and its size is judged before the first write: if either is refused, the device is as it was.
pub fn format<D: Disk>(
    alloc: Global,
    disk: D,
    system: &System,
    ring: u32,
) -> Result<D, FormatRefused<D>>
    requires ring_from { LEAST_RING ≤ ring }
    requires ring_to { ring ≤ MOST_RING }
    ensures sized { OnOk result (size_of (D.state disk) ≡ formatted_size (plant_of system.now) ring) }
    ensures wrong_size { IfErr result (λ refused. refused.fault ≡ FormatFault.WrongSize
        → size_of (D.state disk) ≢ formatted_size (plant_of system.now) ring) }
    ensures untouched { IfErr result (λ refused. refused.fault ≢ FormatFault.Disk → Reads false (D.state disk) (D.state refused.disk)) }
    ensures uncalled { IfErr result (λ refused. refused.fault ≡ FormatFault.Memory → refused.disk ≡ disk) }
    ensures counts { CountsUpTo (is_disk_refusal result) (6 + 3 * length (plant_of system.now).atoms)
        (D.state disk) (D.state (returned result)) }
    ensures stops { (D.state disk).keeps ≡ true
        → Leaves (BODY + 1) (IsFormatting (plant_of system.now) (digest_of system.now) (D.state disk))
        (D.state disk) (D.state (returned result)) }
    ensures formatted { (D.state disk).keeps ≡ true → IfOk result
        (λ made. HasFormatted (plant_of system.now) (digest_of system.now) ring (D.state made)) }
{
    let Ok(states) = PlantState::init(alloc, system) else {
        return Err(FormatRefused {
            disk,
            fault: FormatFault::Memory,
        });
    };
    let Ok(others) = other_cells(alloc, system, ring) else {
        return Err(FormatRefused {
            disk,
            fault: FormatFault::Memory,
        });
    };
    let mut cells = Cells::new(disk);
    let formatted = format_cells(&mut cells, system, ring, &states, &others);
    let disk = cells.into_disk();
    match formatted {
        Ok(()) => Ok(disk),
        Err(fault) => Err(FormatRefused { disk, fault }),
    }
}

/// Writes the first state of the plant into the cells, if there are exactly as many as the plant and the ring ask for.
fn format_cells<D: Disk>(
    cells: &mut Cells<D>,
    system: &System,
    ring: u32,
    states: &PlantState,
    others: &[u64],
) -> Result<(), FormatFault>
    requires ring_from { LEAST_RING ≤ ring }
    requires ring_to { ring ≤ MOST_RING }
    requires states { states.now ≡ initial_states (plant_of system.now) }
    requires others { others.now ≡ range_with_len 1 (device_cells (length (plant_of system.now).atoms) ring - 1) }
    ensures sized { OnOk result (size_of cells.old ≡ formatted_size (plant_of system.now) ring) }
    ensures wrong_size { IfErr result (λ fault. fault ≡ FormatFault.WrongSize → size_of cells.old ≢ formatted_size (plant_of system.now) ring) }
    ensures untouched { IfErr result (λ fault. fault ≢ FormatFault.Disk → Reads false cells.old cells.new) }
    ensures memory { IfErr result (λ fault. fault ≢ FormatFault.Memory) }
    ensures counts { CountsUpTo (is_disk_error result) (6 + 3 * length (plant_of system.now).atoms) cells.old cells.new }
    ensures stops { cells.old.keeps ≡ true
        → Leaves (BODY + 1) (IsFormatting (plant_of system.now) (digest_of system.now) cells.old) cells.old cells.new }
    ensures formatted { cells.old.keeps ≡ true → OnOk result
        (HasFormatted (plant_of system.now) (digest_of system.now) ring cells.new) }
{
    system.keeps_its_rules();
    let counts = first_counts();
    let counts = &counts[..system.atoms().len()];
    write_image(cells, system, ring, states, counts, 0, others)
}

/// How often each atom has taken part at first: no atom has.
fn first_counts() -> [u64; MAX_ATOMS]
    ensures { result ≡ replicate MAX_ATOMS 0 }
{
    [0; MAX_ATOMS]
}
