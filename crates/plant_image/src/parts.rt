//! Which atoms have a part in which of the live records.
ghost use Rattle.std.specs.Prelude.{IfOk};
ghost use Rattle.record_replay.specs.Parts.{AreParts};

use record_codec::Fired;
use record_replay::atoms_in;
use std::alloc::{AllocError, Global};

/// Of each of the records, in their order, the atoms that have a part in it: bit n for atom n.
pub fn parts_of(alloc: Global, records: &[Fired]) -> Result<Vec<u64>, AllocError>
    ensures { IfOk result (λ parts. AreParts records.now parts.items) }
{
    let mut parts = Vec::with_capacity(alloc, records.len())?;
    for fired in records {
        parts.push_reserved(atoms_in(fired));
    }
    Ok(parts)
}
