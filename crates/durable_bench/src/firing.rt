//! Firing a durable plant, alone or through a seat of a host, and settling it in between.
use disk_model::Disk;
use engine_host::{Gate, Host, Naming, Seat};
use plant_core::{Front, MOST_TAIL, Plant};
use plant_model::Inputs;
use record_codec::MOST_RING;
use snapshot_writer::encode;
use std::sync::Wait;

/// Whether the ring may have no room for two more runs as long as a plant fires without a flush.
fn is_nearly_full(front: Front) -> bool {
    front.fired.saturating_sub(front.base) > u64::from(MOST_RING) - 2 * MOST_TAIL as u64
}

/// Fires the choices at these picks until one is refused, and says how many it fired.
pub(crate) fn fire_alone<D: Disk>(plant: &mut Plant<'_, D>, picks: &[u64]) -> u64 {
    let mut fired = 0u64;
    for pick in picks {
        if plant.fire(u128::from(*pick), &Inputs::none()).is_err() {
            break;
        }
        fired = fired.saturating_add(1);
    }
    fired
}

/// Saves the present state of the atom, and says whether that was not refused.
fn save_alone<D: Disk>(plant: &mut Plant<'_, D>, atom: u16) -> bool {
    match plant.ask(atom) {
        Ok(parcel) => plant.put(encode(parcel)).is_ok(),
        Err(_) => false,
    }
}

/// Acknowledges what was fired; where the ring is nearly full all atoms are saved, and the records go. Says whether nothing was refused.
pub(crate) fn settle_alone<D: Disk>(plant: &mut Plant<'_, D>, atoms: u16) -> bool {
    let mut all = plant.flush().is_ok();
    if is_nearly_full(plant.front()) {
        for atom in 0..atoms {
            all &= save_alone(plant, atom);
        }
        all &= plant.trim().is_ok();
    }
    all
}

/// Nobody is held outside the lock.
pub(crate) struct Open;

impl Gate for Open {
    fn outside(&self, _atom: u16) {}
}

/// Fires through the seat as [`fire_alone`] does.
pub(crate) fn fire_seated<D: Disk, N: Naming>(
    rt: &impl Wait,
    host: &Host<'_, D, N>,
    seat: &mut Seat<N>,
    picks: &[u64],
) -> u64 {
    let mut fired = 0u64;
    for pick in picks {
        if host
            .fire(rt, seat, u128::from(*pick), &Inputs::none())
            .is_err()
        {
            break;
        }
        fired = fired.saturating_add(1);
    }
    fired
}

/// Settles through the seat as [`settle_alone`] does.
pub(crate) fn settle_seated<D: Disk, N: Naming>(
    rt: &impl Wait,
    host: &Host<'_, D, N>,
    seat: &mut Seat<N>,
    atoms: u16,
) -> bool {
    let mut all = host.flush(rt, seat).is_ok();
    if is_nearly_full(host.front(&mut seat.watch)) {
        for atom in 0..atoms {
            all &= host.save_one(rt, seat, atom, &Open).is_ok();
        }
        all &= host.trim(rt, seat).is_ok();
    }
    all
}
