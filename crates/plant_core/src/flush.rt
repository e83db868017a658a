//! Acknowledging what was fired.
ghost use Rattle.std.specs.Prelude.{◌≡◌, ◌≢◌, ◌+◌, [], true, false, is_ok};
ghost use Rattle.disk_model.specs.DiskState.{CountsTwo, counted, size_of};
ghost use Rattle.disk_model.specs.Cells.{Leaves};
ghost use Rattle.disk_model.specs.declared.cells.TheConstants.{BODY};
ghost use Rattle.plant_core.specs.Events.{IsEvent, is_disk};
ghost use Rattle.plant_core.specs.declared.events.Happened.TheVariants.{Flush};
ghost use Rattle.plant_core.specs.Plants.{definition_of, device_of, text_digest, view_of};
ghost use Rattle.plant_core.specs.Stops.{StandsForFront};

use crate::plant::Plant;
use crate::refused::Refused;
use disk_model::Disk;

impl<'s, D: Disk> Plant<'s, D> {
    /// Acknowledges all that was fired, and answers the number of the last: their records are written, by two syncs. If nothing was
    /// fired since the last flush no call of the device is made.
    pub fn flush(&mut self) -> Result<u64, Refused>
        ensures event { IsEvent (definition_of self.old) (view_of self.old) (Flush result) (view_of self.new) }
        ensures idle { (view_of self.old).tail ≡ [] → device_of self.new ≡ device_of self.old }
        ensures refused { (view_of self.old).broken ≡ true → device_of self.new ≡ device_of self.old }
        ensures counts { (view_of self.old).tail ≢ [] → (view_of self.old).broken ≡ false → CountsTwo (is_ok result) (device_of self.old) (device_of self.new) }
        ensures cause { (device_of self.new).failures ≡ counted (is_disk result) (device_of self.old).failures }
        ensures stops { (device_of self.old).keeps ≡ true
            → Leaves (BODY + 1) (StandsForFront (definition_of self.old) (text_digest self.old) (size_of (device_of self.old)) (view_of self.old)) (device_of self.old) (device_of self.new) }
        ensures plant { definition_of self.new ≡ definition_of self.old }
        ensures digest { text_digest self.new ≡ text_digest self.old }
    {
        if self.broken {
            return Err(Refused::Broken);
        }
        if self.tail.is_empty() {
            return Ok(self.number);
        }
        self.executor.system().keeps_its_rules();
        self.broken = true;
        if self
            .journal
            .append_run(&mut self.cells, &self.bodies)
            .is_err()
        {
            return Err(Refused::Disk);
        }
        self.executor.commit();
        self.acked_counts = self.counts;
        self.number += self.tail.len() as u64;
        self.tail.clear();
        self.bodies.clear();
        self.broken = false;
        Ok(self.number)
    }
}
