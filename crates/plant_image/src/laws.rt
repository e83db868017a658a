//! What becomes of what an image stands for. These functions make no call: their clauses are the laws.
ghost use Rattle.std.specs.Prelude.{◌≡◌, ◌⊎◌, ◌+◌, ◌<◌, ◌≤◌, ℕ, List, Some, None, true, length, take, slice_get};
ghost use Rattle.std.specs.List.{list_all};
ghost use Rattle.disk_model.specs.Cells.{Cell};
ghost use Rattle.gated_journal.specs.Bases.{other_cell};
ghost use Rattle.gated_journal.specs.Stops.{HasAppended, HasCleaned, IsMoved, IsUnmoved};
ghost use Rattle.petri_atom.specs.Definition.{AtomDefinition};
ghost use Rattle.petri_atom.specs.Local.{Local};
ghost use Rattle.record_codec.specs.Fired.{FiredFields};
ghost use Rattle.record_codec.specs.Identity.{IsIdentity};
ghost use Rattle.record_codec.specs.Saved.{SavedFields};
ghost use Rattle.record_replay.specs.OfPlant.{is_record_of};
ghost use Rattle.record_replay.specs.Records.{counts_after_all, records_of};
ghost use Rattle.snapshot_writer.specs.Slots.{IsFree};
ghost use Rattle.snapshot_writer.specs.Storing.{HasStored};
ghost use Rattle.plant_model.specs.Firing.{FiringDefinition};
ghost use Rattle.plant_model.specs.Plant.{PlantDefinition};
ghost use Rattle.plant_model.specs.Runs.{IsRun};
ghost use Rattle.plant_model.specs.Step.{initial_states};
ghost use Rattle.plant_image.specs.Contents.{Contents, contents_of, counts_of, ring_in};
ghost use Rattle.plant_image.specs.Faults.{cells_fault, is_of_atom};
ghost use Rattle.plant_image.specs.Standing.{AreIncluded, HasRoom, HoldsState, IsFormatted, IsOnTheWay, Leads, StandsFor, cut_to, identity_for, with_records, with_saved};
ghost use Rattle.plant_image.specs.declared.counts.TheConstants.{MOST_AHEAD};

// ---- what stands leads

/// What an image stands for is what its contents lead to.
pub fn what_stands_leads()
    ensures leads { (plant : PlantDefinition) (digest : List ℕ) (bytes number : ℕ) (cells : List Cell) (states : List Local)
        → StandsFor plant digest bytes cells states number
        → Leads plant (contents_of (length plant.atoms) cells) states (counts_of plant (contents_of (length plant.atoms) cells)) number }
    ensures stands { (plant : PlantDefinition) (digest : List ℕ) (bytes number : ℕ) (cells : List Cell) (states : List Local) (counts : List ℕ)
        → cells_fault plant digest bytes cells ≡ None → Leads plant (contents_of (length plant.atoms) cells) states counts number
        → StandsFor plant digest bytes cells states number }
{}

// ---- the first image

/// A device that is written afresh with a state leads to it, and stands for it and for the number that it was saved at.
pub fn a_device_that_holds_a_state_stands_for_it()
    ensures leads { (plant : PlantDefinition) (digest : List ℕ) (ring bytes number : ℕ) (states : List Local) (counts : List ℕ) (cells : List Cell)
        → IsIdentity (identity_for plant digest ring) → HasRoom plant states counts number
        → HoldsState plant digest ring bytes states counts number cells
        → Leads plant (contents_of (length plant.atoms) cells) states counts number }
    ensures stands { (plant : PlantDefinition) (digest : List ℕ) (ring bytes number : ℕ) (states : List Local) (counts : List ℕ) (cells : List Cell)
        → IsIdentity (identity_for plant digest ring) → HasRoom plant states counts number
        → HoldsState plant digest ring bytes states counts number cells
        → StandsFor plant digest bytes cells states number }
{}

/// A freshly formatted device stands for the first state of the plant, and for the number 0.
pub fn a_formatted_device_stands_for_the_first_state()
    ensures { (plant : PlantDefinition) (digest : List ℕ) (ring bytes : ℕ) (cells : List Cell) → IsIdentity (identity_for plant digest ring)
        → IsFormatted plant digest ring bytes cells → StandsFor plant digest bytes cells (initial_states plant) 0 }
{}

// ---- events, on contents

/// The records of a run from the state that the contents lead to lead on to its end.
pub fn the_records_of_a_run_lead_on()
    ensures { (plant : PlantDefinition) (c : Contents) (start end : List Local) (counts : List ℕ) (number : ℕ) (cs : List FiringDefinition)
        → Leads plant c start counts number → IsRun plant start cs end
        → Leads plant (with_records (records_of plant start counts number cs) c) end (counts_after_all cs counts) (number + length cs) }
{}

/// A saved state that is on the way of its atom's replay may take the place of the atom's newest, unless it was copied too late.
pub fn a_state_on_the_way_leads_to_the_same()
    ensures { (plant : PlantDefinition) (c : Contents) (states : List Local) (counts : List ℕ) (number : ℕ) (a : AtomDefinition) (saved : SavedFields)
        → Leads plant c states counts number → slice_get plant.atoms saved.atom ≡ Some a → length c.slots ≡ length plant.atoms
        → IsOnTheWay c a saved → saved.at ≤ number + MOST_AHEAD → Leads plant (with_saved saved c) states counts number }
{}

/// The first records may go if each atom's newest state includes them.
pub fn included_records_may_go()
    ensures { (plant : PlantDefinition) (c : Contents) (states : List Local) (counts : List ℕ) (number base_cell count : ℕ)
        → Leads plant c states counts number → count ≤ length c.records → AreIncluded c (take count c.records)
        → Leads plant (cut_to base_cell (c.base + count) c) states counts number }
{}

// ---- events, on cells

/// Emptying record cells that are not live leaves what the cells hold, and puts nothing wrong.
pub fn cleaning_reads_the_same()
    ensures { (plant : PlantDefinition) (digest : List ℕ) (bytes : ℕ) (before cells : List Cell)
        → cells_fault plant digest bytes before ≡ None
        → HasCleaned (ring_in (length plant.atoms) (contents_of (length plant.atoms) before)) before cells
        → (cells_fault plant digest bytes cells ≡ None) × (contents_of (length plant.atoms) cells ≡ contents_of (length plant.atoms) before) }
{}

/// Appending records of the plant adds a front of them to what the cells hold, and puts nothing wrong.
pub fn appending_reads_on()
    ensures { (plant : PlantDefinition) (digest : List ℕ) (bytes : ℕ) (news : List FiredFields) (before cells : List Cell)
        → cells_fault plant digest bytes before ≡ None → list_all (is_record_of plant) news ≡ true
        → HasAppended (ring_in (length plant.atoms) (contents_of (length plant.atoms) before)) news before cells
        → (count : ℕ) × (count ≤ length news) × (cells_fault plant digest bytes cells ≡ None)
        × (contents_of (length plant.atoms) cells ≡ with_records (take count news) (contents_of (length plant.atoms) before)) }
{}

/// Storing a state of an atom in the slot that is not the newest's leaves what the cells hold, or puts this state in the place of
/// the atom's newest; and puts nothing wrong.
pub fn storing_reads_the_old_or_the_new()
    ensures { (plant : PlantDefinition) (digest : List ℕ) (bytes slot : ℕ) (a : AtomDefinition) (saved : SavedFields) (before cells : List Cell)
        → cells_fault plant digest bytes before ≡ None → slot < 2 → slice_get plant.atoms saved.atom ≡ Some a → is_of_atom saved.atom a saved ≡ true
        → IsFree saved.atom slot before → HasStored slot saved before cells
        → (cells_fault plant digest bytes cells ≡ None)
        × ((contents_of (length plant.atoms) cells ≡ contents_of (length plant.atoms) before)
        ⊎ (contents_of (length plant.atoms) cells ≡ with_saved saved (contents_of (length plant.atoms) before))) }
{}

/// Moving the base leaves what the cells hold, or cuts the records before the new base; and puts nothing wrong.
pub fn moving_the_base_reads_the_old_or_the_cut()
    ensures unmoved { (plant : PlantDefinition) (digest : List ℕ) (bytes : ℕ) (before cells : List Cell)
        → cells_fault plant digest bytes before ≡ None
        → IsUnmoved (ring_in (length plant.atoms) (contents_of (length plant.atoms) before)) before cells
        → (cells_fault plant digest bytes cells ≡ None) × (contents_of (length plant.atoms) cells ≡ contents_of (length plant.atoms) before) }
    ensures moved { (plant : PlantDefinition) (digest : List ℕ) (bytes base : ℕ) (before cells : List Cell)
        → cells_fault plant digest bytes before ≡ None
        → (contents_of (length plant.atoms) before).base < base
        → base ≤ (contents_of (length plant.atoms) before).base + length (contents_of (length plant.atoms) before).records
        → IsMoved base (ring_in (length plant.atoms) (contents_of (length plant.atoms) before)) before cells
        → (cells_fault plant digest bytes cells ≡ None)
        × (contents_of (length plant.atoms) cells
        ≡ cut_to (other_cell (ring_in (length plant.atoms) (contents_of (length plant.atoms) before))) base (contents_of (length plant.atoms) before)) }
{}
