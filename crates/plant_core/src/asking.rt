//! Copying the present state of an atom, to be saved.
ghost use Rattle.std.specs.Prelude.{◌≡◌, ◌<◌, ◌≢◌, Some, length};
ghost use Rattle.std.specs.Option.{option_map};
ghost use Rattle.trimmer.specs.Covered.{saved_count};
ghost use Rattle.record_replay.specs.Records.{count_of};
ghost use Rattle.plant_core.specs.Events.{IsEvent, copy_in};
ghost use Rattle.plant_core.specs.declared.events.Happened.TheVariants.{Ask};
ghost use Rattle.plant_core.specs.Plants.{definition_of, device_of, text_digest, view_of};
ghost use Rattle.plant_core.specs.View.{with_asked};

use crate::plant::Plant;
use crate::refused::Refused;
use disk_model::Disk;
use snapshot_writer::Parcel;

impl<'s, D: Disk> Plant<'s, D> {
    /// The present state of the atom with the number, with how often the atom has taken part and the number of the last choice that was
    /// fired. A copy of it is kept, in place of one that was kept before, until the state is stored. No call of the device is made, and no
    /// memory taken.
    pub fn ask(&mut self, atom: u16) -> Result<Parcel, Refused>
        ensures event { IsEvent (definition_of self.old) (view_of self.old) (Ask atom result) (view_of self.new) }
        ensures device { device_of self.new ≡ device_of self.old }
        ensures plant { definition_of self.new ≡ definition_of self.old }
        ensures digest { text_digest self.new ≡ text_digest self.old }
    {
        if self.broken {
            return Err(Refused::Broken);
        }
        self.executor.system().keeps_its_rules();
        self.executor.fits();
        if usize::from(atom) >= self.executor.len() {
            return Err(Refused::Stranger);
        }
        if self.executor.is_away(atom) {
            return Err(Refused::Away(atom));
        }
        if self.counts[usize::from(atom)] == self.snapshots.saved_count(atom) {
            return Err(Refused::NothingNew);
        }
        self.keep_copy(atom);
        Ok(self.copy_of(atom))
    }

    /// Keeps a copy of the present state of the atom, which has taken part since its newest state was saved.
    fn keep_copy(&mut self, atom: u16)
        requires there { atom < length (view_of self.old).present }
        requires new { count_of (view_of self.old).counts atom ≢ saved_count (view_of self.old).saved atom }
        ensures view { Some (view_of self.new) ≡ option_map (λ saved. with_asked saved (view_of self.old)) (copy_in (view_of self.old) atom) }
        ensures device { device_of self.new ≡ device_of self.old }
        ensures plant { definition_of self.new ≡ definition_of self.old }
        ensures digest { text_digest self.new ≡ text_digest self.old }
    {
        self.executor.fits();
        let copy = self.copy_of(atom);
        self.snapshots.keep(copy);
    }

    /// The present state of the atom, as it is saved.
    fn copy_of(&self, atom: u16) -> Parcel
        requires { atom < length (view_of self.now).present }
        ensures { copy_in (view_of self.now) atom ≡ Some result }
    {
        self.executor.system().keeps_its_rules();
        self.executor.fits();
        Parcel::new(
            atom,
            self.counts[usize::from(atom)],
            self.fired(),
            self.executor.state(atom),
        )
    }
}
