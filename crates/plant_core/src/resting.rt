//! What each plant keeps by its type, whenever no call runs. These functions make no call: their clauses are the laws.
ghost use Rattle.std.specs.Prelude.{◌≡◌, ◌+◌, List, true, false, length, map};
ghost use Rattle.disk_model.specs.Cells.{Cell, MayBe, seen_cells};
ghost use Rattle.disk_model.specs.DiskState.{size_of};
ghost use Rattle.disk_model.specs.declared.cells.TheConstants.{BODY};
ghost use Rattle.plant_image.specs.Contents.{contents_of};
ghost use Rattle.plant_core.specs.Plants.{definition_of, device_of, text_digest, view_of};
ghost use Rattle.plant_core.specs.Marks.{marks_of};
ghost use Rattle.plant_core.specs.Snapshots.{known_of};
ghost use Rattle.plant_core.specs.Stops.{StandsForAcked, StandsForFront};
ghost use Rattle.plant_core.specs.View.{acked_marks};
ghost use Rattle.plant_model.specs.Runs.{IsRun};

use crate::plant::Plant;
use disk_model::Disk;

impl<'s, D: Disk> Plant<'s, D> {
    /// If the device has not failed, whatever a stop leaves now stands for the acknowledged state.
    pub fn stands(&self)
        ensures { (device_of self.now).keeps ≡ true → (view_of self.now).broken ≡ false
            → (cells : List Cell) → MayBe (BODY + 1) (device_of self.now) cells
            → StandsForAcked (definition_of self.now) (text_digest self.now) (size_of (device_of self.now)) (view_of self.now) cells }
    {}

    /// Whatever a stop leaves now stands for the state after some front of the tail, also if the device has failed.
    pub fn stands_for_a_front(&self)
        ensures { (device_of self.now).keeps ≡ true
            → (cells : List Cell) → MayBe (BODY + 1) (device_of self.now) cells
            → StandsForFront (definition_of self.now) (text_digest self.now) (size_of (device_of self.now)) (view_of self.now) cells }
    {}

    /// If the device has not failed, what is known of saved states is what the slots of the atoms hold.
    pub fn knows_its_slots(&self)
        ensures { (device_of self.now).keeps ≡ true → (view_of self.now).broken ≡ false
            → (view_of self.now).saved ≡ map known_of (contents_of (length (definition_of self.now).atoms) (seen_cells (BODY + 1) (device_of self.now))).slots }
    {}

    /// If the device has not failed, the marks of the acknowledged records are those of the live ones on the device, and the base and the ring are
    /// its own.
    pub fn knows_its_records(&self)
        ensures marks { (device_of self.now).keeps ≡ true → (view_of self.now).broken ≡ false
            → acked_marks (view_of self.now) ≡ marks_of (contents_of (length (definition_of self.now).atoms) (seen_cells (BODY + 1) (device_of self.now))).records }
        ensures base { (device_of self.now).keeps ≡ true → (view_of self.now).broken ≡ false
            → (view_of self.now).base ≡ (contents_of (length (definition_of self.now).atoms) (seen_cells (BODY + 1) (device_of self.now))).base }
        ensures ring { (device_of self.now).keeps ≡ true → (view_of self.now).broken ≡ false
            → (view_of self.now).ring ≡ (contents_of (length (definition_of self.now).atoms) (seen_cells (BODY + 1) (device_of self.now))).ring }
    {}

    /// The tail is a run from the acknowledged state to the present one.
    pub fn tail_is_a_run(&self)
        ensures { IsRun (definition_of self.now) (view_of self.now).acked (view_of self.now).tail (view_of self.now).present }
    {}
}
