//! What the statuses say.
ghost use Rattle.kilnmace_c.specs.Told.{IsToldStatus};

use crate::told::tell_bytes;
use plant_for_c::Status;

/// What a status means, in English.
#[unsafe(no_mangle)]
pub extern "C" fn kilnmace_raw_status_text(status: u32, text: &mut [u8], length: &mut usize) -> u32
    ensures { IsToldStatus status result text.old text.new length.old length.new }
{
    match Status::of_number(status) {
        Some(status) => tell_bytes(status.message().as_bytes(), text, length),
        None => Status::NoSuch.number(),
    }
}
