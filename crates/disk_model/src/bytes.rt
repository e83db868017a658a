//! Writes over a part of a slice, and what a stop makes of marked bytes.
ghost use Rattle.std.specs.Prelude.{◌≡◌, ℕ, ◌+◌, ◌<◌, ◌≤◌, true, false, length, replicate, slice_index, slice_index_or};
ghost use Rattle.disk_model.specs.DiskState.{overwritten};
ghost use Rattle.disk_model.specs.Recording.{byte_left};
ghost use Rattle.disk_model.specs.Stretch.{AreClearOutside, AreSameOutside};

use crate::change::Tear;
use crate::stretch::Stretch;

pub(crate) fn overwrite(whole: &mut [u8], at: usize, part: &[u8])
    requires { at + length part.now ≤ length whole.old }
    ensures { whole.new ≡ overwritten at part.now whole.old }
{
    whole[at..at + part.len()].copy_from_slice(part);
}

/// Makes the bytes those of `other`, from which they differ in the stretch alone.
pub(crate) fn take_over(bytes: &mut [u8], other: &[u8], stretch: Stretch)
    requires count { length bytes.old ≡ length other.now }
    requires inside { stretch.to ≤ length other.now }
    requires outside { AreSameOutside stretch bytes.old other.now }
    ensures { bytes.new ≡ other.now }
{
    if stretch.from < stretch.to {
        overwrite(bytes, stretch.from, &other[stretch.from..stretch.to]);
    }
}

pub(crate) fn mark(marks: &mut [bool], at: usize, count: usize, pending: bool)
    requires { at + count ≤ length marks.old }
    ensures { marks.new ≡ overwritten at (replicate count pending) marks.old }
{
    marks[at..at + count].fill(pending);
}

/// Clears all marks, which stand in the stretch alone.
pub(crate) fn unmark(marks: &mut [bool], stretch: Stretch)
    requires inside { stretch.to ≤ length marks.old }
    requires outside { AreClearOutside stretch marks.old }
    ensures { marks.new ≡ replicate (length marks.old) false }
{
    if stretch.from < stretch.to {
        mark(marks, stretch.from, stretch.to - stretch.from, false);
    }
}

/// Makes each marked byte what a stop leaves of it. The marks stand in the stretch alone.
pub(crate) fn tear_marked(
    bytes: &mut [u8],
    synced: &[u8],
    marks: &[bool],
    stretch: Stretch,
    tear: Tear,
    cell: u64,
)
    requires cell { 0 < cell }
    requires synced { length synced.now ≡ length bytes.old }
    requires marks { length marks.now ≡ length bytes.old }
    requires inside { stretch.to ≤ length bytes.old }
    requires outside { AreClearOutside stretch marks.now }
    ensures size { length bytes.new ≡ length bytes.old }
    ensures each { (i : ℕ) → i < length bytes.old → slice_index bytes.new i ≡ byte_left tear cell
        (slice_index_or marks.now i false) i (slice_index bytes.old i) (slice_index synced.now i) }
{
    for i in stretch.from..stretch.to {
        if marks[i] {
            bytes[i] = torn(tear, cell, i as u64, bytes[i], synced[i]);
        }
    }
}

fn torn(tear: Tear, cell: u64, i: u64, seen: u8, synced: u8) -> u8
    requires { 0 < cell }
    ensures { result ≡ byte_left tear cell true i seen synced }
{
    match tear {
        Tear::Old => synced,
        Tear::New => seen,
        Tear::Gates => 0xA5,
        Tear::Mixed => { if i / cell % 2 == 1 { seen } else { synced } }
    }
}
