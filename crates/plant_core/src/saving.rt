//! Storing the acknowledged states of all atoms that are behind.
ghost use Rattle.std.specs.Prelude.{◌≡◌, ◌≢◌, ◌+◌, ◌*◌, ◌<◌, ◌≤◌, ℕ, List, [], ◌++◌, Some, true, false, is_err, is_some, IfErr, OnOk, length, option_to_list, slice_get};
ghost use Rattle.disk_model.specs.Cells.{Cell, Leaves, MayBe, cell_count, seen_cells};
ghost use Rattle.disk_model.specs.DiskState.{CountsUpTo, IsSettled, Reads, size_of};
ghost use Rattle.disk_model.specs.declared.cells.TheConstants.{BODY};
ghost use Rattle.petri_atom.specs.Local.{has};
ghost use Rattle.record_codec.specs.Ring.{slot_cell};
ghost use Rattle.snapshot_writer.specs.Batches.{AreStored, HaveStored, SlottedFields};
ghost use Rattle.step_executor.specs.Executing.{committed_in, plant_in};
ghost use Rattle.plant_core.specs.Events.{IsEvent, is_disk};
ghost use Rattle.plant_core.specs.Invariant.{AreNextSlots};
ghost use Rattle.plant_core.specs.Plants.{definition_of, device_of, text_digest, view_of};
ghost use Rattle.plant_core.specs.Saves.{AreSavable, AreSmall, batch_of, states_in};
ghost use Rattle.plant_core.specs.Snapshots.{copies_behind, copies_below, copy_among, copy_if_behind};
ghost use Rattle.plant_core.specs.Stops.{StandsForAcked};
ghost use Rattle.plant_core.specs.View.{behind_state, behind_states};
ghost use Rattle.plant_core.specs.declared.events.Happened.TheVariants.{Save};
ghost use Rattle.plant_core.specs.declared.refused.Refused.{Refused};

use crate::events::SavedTo;
use crate::plant::Plant;
use crate::putting::free_slot;
use crate::refused::Refused;
use crate::snapshots::Snapshots;
use disk_model::{Cells, Disk, DiskFault};
use plant_model::MAX_ATOMS;
use snapshot_writer::{Batch, Parcel, store_batch};
use step_executor::Executor;

impl<'s, D: Disk> Plant<'s, D> {
    /// Stores the acknowledged state of each atom whose newest saved state is behind it, also of one that is away, and answers of which atoms, with the
    /// number of the last interaction that is acknowledged. A copy that was asked for of such an atom is given up. It makes three syncs, or two if the
    /// slots of all these atoms are empty, however many atoms there are. Also if the device fails in this call, a stop leaves what stands for the
    /// acknowledged state.
    ///
    /// The first state that is stored of an atom since the start makes it read both slots of the atom, to find the newest state. Else it reads nothing.
    pub fn save(&mut self) -> Result<SavedTo, Refused>
        ensures event { IsEvent (definition_of self.old) (view_of self.old) (Save result) (view_of self.new) }
        ensures refused { (view_of self.old).broken ≡ true → device_of self.new ≡ device_of self.old }
        ensures untouched { IfErr result (λ refused. refused ≢ Refused.Disk → device_of self.new ≡ device_of self.old) }
        ensures counts { CountsUpTo (is_disk result) 3 (device_of self.old) (device_of self.new) }
        ensures stops { (device_of self.old).keeps ≡ true → (view_of self.old).broken ≡ false
            → Leaves (BODY + 1) (StandsForAcked (definition_of self.old) (text_digest self.old) (size_of (device_of self.old)) (view_of self.old)) (device_of self.old) (device_of self.new) }
        ensures now { (device_of self.old).keeps ≡ true → (view_of self.old).broken ≡ false
            → (cells : List Cell) → MayBe (BODY + 1) (device_of self.new) cells
            → StandsForAcked (definition_of self.old) (text_digest self.old) (size_of (device_of self.old)) (view_of self.old) cells }
        ensures plant { definition_of self.new ≡ definition_of self.old }
        ensures digest { text_digest self.new ≡ text_digest self.old }
    {
        if self.broken {
            return Err(Refused::Broken);
        }
        let atoms = self.behind();
        if atoms == 0 {
            return Err(Refused::NothingNew);
        }
        self.broken = true;
        // A stop here leaves of each atom the newest state as it was, or the whole acknowledged one in its place: each of them leads to what is acknowledged.
        if store_behind(
            &self.executor,
            &self.acked_counts,
            self.number,
            &self.snapshots,
            &mut self.batch,
            &mut self.cells,
        )
        .is_err()
        {
            return Err(Refused::Disk);
        }
        self.snapshots.all_stored(&self.batch);
        self.broken = false;
        Ok(SavedTo {
            number: self.number,
            atoms,
        })
    }

    /// The atoms whose newest saved state is behind the acknowledged one.
    fn behind(&self) -> u64
        ensures atoms { (atom : ℕ) → has result atom ≡ is_some (behind_state (view_of self.now) atom) }
        ensures none { result ≡ 0 → behind_states (view_of self.now) ≡ [] }
        ensures some { behind_states (view_of self.now) ≡ [] → result ≡ 0 }
    {
        self.executor.system().keeps_its_rules();
        self.executor.fits();
        let mut atoms = 0;
        for atom in 0..self.executor.len() {
            atoms |= u64::from(self.is_behind(atom as u16)) << atom;
        }
        atoms
    }
}

/// Stores of each atom that is behind the committed state in the slot that does not hold its newest one, and leaves these states in the batch.
fn store_behind<D: Disk>(
    executor: &Executor<'_>,
    counts: &[u64; MAX_ATOMS],
    number: u64,
    snapshots: &Snapshots,
    batch: &mut Batch,
    cells: &mut Cells<D>,
) -> Result<(), DiskFault>
    requires savable { AreSavable (plant_in executor.now) (committed_in executor.now) counts.now number }
    requires known { cells.old.keeps ≡ true → AreNextSlots (plant_in executor.now) snapshots.now.next_slots (seen_cells (BODY + 1) cells.old) }
    requires inside { 3 + 2 * length (plant_in executor.now).atoms ≤ cell_count (BODY + 1) cells.old }
    requires settled { cells.old.keeps ≡ true → IsSettled cells.old.now }
    ensures counts { CountsUpTo (is_err result) 3 cells.old cells.new }
    ensures states { OnOk result (states_in batch.new ≡ copies_behind snapshots.now.saved counts.now number (committed_in executor.now)) }
    ensures batch { cells.old.keeps ≡ true → OnOk result
        (batch.new ≡ batch_of (seen_cells (BODY + 1) cells.old) (copies_behind snapshots.now.saved counts.now number (committed_in executor.now))) }
    ensures leaves { cells.old.keeps ≡ true → Leaves (BODY + 1)
        (HaveStored (batch_of (seen_cells (BODY + 1) cells.old) (copies_behind snapshots.now.saved counts.now number (committed_in executor.now))) (seen_cells (BODY + 1) cells.old))
        cells.old cells.new }
    ensures stored { cells.old.keeps ≡ true → OnOk result (AreStored batch.new cells.old cells.new) }
{
    gather(executor, counts, number, snapshots, batch, cells)?;
    store_batch(cells, batch)
}

/// Makes the batch that of the committed states of the atoms that are behind, each on its way to the slot that does not hold its atom's newest one.
fn gather<D: Disk>(
    executor: &Executor<'_>,
    counts: &[u64; MAX_ATOMS],
    number: u64,
    snapshots: &Snapshots,
    batch: &mut Batch,
    cells: &mut Cells<D>,
) -> Result<(), DiskFault>
    requires savable { AreSavable (plant_in executor.now) (committed_in executor.now) counts.now number }
    requires known { cells.old.keeps ≡ true → AreNextSlots (plant_in executor.now) snapshots.now.next_slots (seen_cells (BODY + 1) cells.old) }
    requires inside { 3 + 2 * length (plant_in executor.now).atoms ≤ cell_count (BODY + 1) cells.old }
    ensures states { OnOk result (states_in batch.new ≡ copies_behind snapshots.now.saved counts.now number (committed_in executor.now)) }
    ensures batch { cells.old.keeps ≡ true → OnOk result
        (batch.new ≡ batch_of (seen_cells (BODY + 1) cells.old) (copies_behind snapshots.now.saved counts.now number (committed_in executor.now))) }
    ensures small { AreSmall batch.new }
    ensures reads { Reads (is_err result) cells.old cells.new }
{
    executor.system().keeps_its_rules();
    executor.fits();
    batch.clear();
    for atom in 0..executor.len() {
        add_if_behind(
            executor,
            counts,
            number,
            snapshots,
            atom as u16,
            batch,
            cells,
        )?;
    }
    Ok(())
}

/// Adds the committed state of the atom to the batch, if it is behind.
fn add_if_behind<D: Disk>(
    executor: &Executor<'_>,
    counts: &[u64; MAX_ATOMS],
    number: u64,
    snapshots: &Snapshots,
    atom: u16,
    batch: &mut Batch,
    cells: &mut Cells<D>,
) -> Result<(), DiskFault>
    requires there { atom < length (committed_in executor.now) }
    requires savable { AreSavable (plant_in executor.now) (committed_in executor.now) counts.now number }
    requires known { cells.old.keeps ≡ true → AreNextSlots (plant_in executor.now) snapshots.now.next_slots (seen_cells (BODY + 1) cells.old) }
    requires inside { 3 + 2 * length (plant_in executor.now).atoms ≤ cell_count (BODY + 1) cells.old }
    requires rises { (i : ℕ) (s : SlottedFields) → slice_get batch.old i ≡ Some s → s.saved.atom < atom }
    requires small { AreSmall batch.old }
    ensures states { OnOk result (states_in batch.new ≡ states_in batch.old ++ option_to_list (copy_if_behind snapshots.now.saved counts.now number (committed_in executor.now) atom)) }
    ensures batch { cells.old.keeps ≡ true → OnOk result
        (batch.new ≡ batch.old ++ batch_of (seen_cells (BODY + 1) cells.old) (option_to_list (copy_if_behind snapshots.now.saved counts.now number (committed_in executor.now) atom))) }
    ensures small { AreSmall batch.new }
    ensures reads { Reads (is_err result) cells.old cells.new }
{
    if snapshots.saved_count(atom) >= counts[usize::from(atom)] {
        return Ok(());
    }
    let free = free_slot(cells, snapshots.next_slot(atom), atom)?;
    batch.push(free, committed_copy(executor, counts, number, atom));
    Ok(())
}

/// The committed state of the atom, as it is saved.
fn committed_copy(
    executor: &Executor<'_>,
    counts: &[u64; MAX_ATOMS],
    number: u64,
    atom: u16,
) -> Parcel
    requires there { atom < length (committed_in executor.now) }
    requires savable { AreSavable (plant_in executor.now) (committed_in executor.now) counts.now number }
    ensures { copy_among counts.now number (committed_in executor.now) atom ≡ Some result }
{
    executor.system().keeps_its_rules();
    Parcel::new(
        atom,
        counts[usize::from(atom)],
        number,
        executor.committed(atom),
    )
}
