//! Dropping the records that no restart needs.
ghost use Rattle.std.specs.Prelude.{◌≡◌, ◌≢◌, ◌+◌, ◌<◌, ◌≤◌, List, true, false, drop, length, vec_capacity, IfErr};
ghost use Rattle.disk_model.specs.Cells.{Cell, Leaves, MayBe};
ghost use Rattle.disk_model.specs.DiskState.{CountsUpTo, size_of};
ghost use Rattle.disk_model.specs.declared.cells.TheConstants.{BODY};
ghost use Rattle.plant_core.specs.Events.{IsEvent, is_disk};
ghost use Rattle.plant_core.specs.Plants.{definition_of, device_of, text_digest, view_of};
ghost use Rattle.plant_core.specs.Stops.{StandsForAcked};
ghost use Rattle.plant_core.specs.View.{may_go};
ghost use Rattle.plant_core.specs.declared.events.Happened.TheVariants.{Trim};
ghost use Rattle.plant_core.specs.declared.refused.Refused.{Refused};

use crate::plant::Plant;
use crate::refused::Refused;
use disk_model::Disk;
use trimmer::{Mark, cut};

impl<'s, D: Disk> Plant<'s, D> {
    /// Drops the longest front of the acknowledged records that are covered, those that no restart needs any more, and answers the number of the first
    /// that is kept, or of the next if none is. Their cells are used again. Also if the device fails in this call, a stop leaves what
    /// stands for the acknowledged state.
    pub fn trim(&mut self) -> Result<u64, Refused>
        ensures event { IsEvent (definition_of self.old) (view_of self.old) (Trim result) (view_of self.new) }
        ensures refused { (view_of self.old).broken ≡ true → device_of self.new ≡ device_of self.old }
        ensures untouched { IfErr result (λ refused. refused ≢ Refused.Disk → device_of self.new ≡ device_of self.old) }
        ensures counts { CountsUpTo (is_disk result) 4 (device_of self.old) (device_of self.new) }
        ensures stops { (device_of self.old).keeps ≡ true → (view_of self.old).broken ≡ false
            → Leaves (BODY + 1) (StandsForAcked (definition_of self.old) (text_digest self.old) (size_of (device_of self.old)) (view_of self.old)) (device_of self.old) (device_of self.new) }
        ensures now { (device_of self.old).keeps ≡ true → (view_of self.old).broken ≡ false
            → (cells : List Cell) → MayBe (BODY + 1) (device_of self.new) cells
            → StandsForAcked (definition_of self.old) (text_digest self.old) (size_of (device_of self.old)) (view_of self.old) cells }
        ensures plant { definition_of self.new ≡ definition_of self.old }
        ensures digest { text_digest self.new ≡ text_digest self.old }
    {
        if self.broken {
            return Err(Refused::Broken);
        }
        let count = self.covered();
        if count == 0 {
            return Err(Refused::NothingNew);
        }
        let base = self.journal.base() + count as u64;
        self.broken = true;
        // A stop here leaves the old base or the new one: the records between them are needed by no atom.
        if self.journal.move_base(&mut self.cells, base).is_err() {
            return Err(Refused::Disk);
        }
        drop_first(&mut self.marks, count);
        self.broken = false;
        Ok(base)
    }

    /// How many records may go.
    fn covered(&self) -> usize
        ensures { result ≡ may_go (view_of self.now) }
    {
        let acked = self.number + 1 - self.journal.base();
        cut(&self.marks[..acked as usize], self.snapshots.saved())
    }
}

/// Drops the first marks.
fn drop_first(marks: &mut Vec<Mark>, count: usize)
    requires { count ≤ length marks.old.items }
    ensures items { marks.new.items ≡ drop count marks.old.items }
    ensures room { vec_capacity marks.new ≡ vec_capacity marks.old }
{
    let kept = marks.len() - count;
    marks.rotate_left(count);
    marks.truncate(kept);
}
