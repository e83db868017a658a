//! The live records.
ghost use Rattle.std.specs.Prelude.{◌≡◌, ◌+◌, ◌<◌, ◌≤◌, length, is_some, vec_capacity, vec_len, IfOk, IsTrue, OnErr, OnOk};
ghost use Rattle.std.specs.List.{range_with_len};
ghost use Rattle.disk_model.specs.Cells.{cell};
ghost use Rattle.gated_journal.specs.Live.{live_among, record_in};
ghost use Rattle.record_codec.specs.Ring.{record_cell};
ghost use Rattle.record_codec.specs.declared.layout.TheConstants.{LAST_NUMBER, MOST_RING};
ghost use Rattle.plant_model.specs.System.{plant_of};
ghost use Rattle.plant_image.specs.Faults.{numbers_fault, record_fault};
ghost use Rattle.plant_image.specs.Reading.{Tells, added};

use crate::bodies::body_of;
use crate::fault::ImageFault;
use disk_model::BODY;
use plant_model::System;
use record_codec::Fired;
use record_codec::ring::record_cell;
use record_replay::is_record_of;
use std::alloc::Global;

/// The live records of a ring of so many: the base and those after it, up to the first cell that is empty or holds another number.
pub(crate) fn read_records(
    alloc: Global,
    system: &System,
    ring: u32,
    base: u64,
    cells: &[Option<[u8; BODY]>],
) -> Result<Vec<Fired>, ImageFault>
    requires some { 1 ≤ ring }
    requires few { ring ≤ MOST_RING }
    requires base { base ≤ LAST_NUMBER + 1 }
    ensures records { Tells (numbers_fault (plant_of system.now) cells.now ring (range_with_len base ring))
        (λ records. records.items ≡ live_among cells.now (record_cell (length (plant_of system.now).atoms) ring) (range_with_len base ring)) result }
    ensures in_range { IfOk result (λ records. base + length records.items ≤ LAST_NUMBER + 1) }
{
    let mut records = Vec::with_capacity(alloc, ring as usize)?;
    for number in base..base + u64::from(ring) {
        if !push_record(system, ring, number, cells, &mut records)? {
            return Ok(records);
        }
    }
    Ok(records)
}

/// Adds the record with the number behind the others, if its cell holds it, and says whether it does. A record is large, so it is put where
/// it stays.
fn push_record(
    system: &System,
    ring: u32,
    number: u64,
    cells: &[Option<[u8; BODY]>],
    records: &mut Vec<Fired>,
) -> Result<bool, ImageFault>
    requires some { 1 ≤ ring }
    requires room { vec_len records.old < vec_capacity records.old }
    ensures record { Tells (record_fault (plant_of system.now) cells.now ring number)
        (λ held. held ≡ is_some (record_in number (cell cells.now (record_cell (length (plant_of system.now).atoms) ring number)))) result }
    ensures added { OnOk result (records.new.items
        ≡ added records.old.items (record_in number (cell cells.now (record_cell (length (plant_of system.now).atoms) ring number)))) }
    ensures kept { OnErr result (records.new.items ≡ records.old.items) }
    ensures in_range { IfOk result (λ held. IsTrue held → number ≤ LAST_NUMBER) }
    ensures room { vec_capacity records.new ≡ vec_capacity records.old }
{
    system.keeps_its_rules();
    let k = record_cell(system.atoms().len() as u16, ring, number);
    let Some(body) = body_of(cells, k) else {
        return Ok(false);
    };
    let Some(fired) = Fired::from_body(body) else {
        return Err(ImageFault::Damaged(k));
    };
    if fired.number() != number {
        return Ok(false);
    }
    if !is_record_of(system, &fired) {
        return Err(ImageFault::Damaged(k));
    }
    records.push_reserved(fired);
    Ok(true)
}
