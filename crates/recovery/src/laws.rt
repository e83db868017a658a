//! What the life of a plant comes to. These functions make no call: their clauses are the laws.
ghost use Rattle.std.specs.Prelude.{◌≡◌, ◌⊎◌, ◌+◌, ◌++◌, ◌<◌, ℕ, List, is_none, length, option_and_then};
ghost use Rattle.std.specs.Option.{option_map};
ghost use Rattle.disk_model.specs.declared.cells.TheConstants.{BODY};
ghost use Rattle.record_codec.specs.declared.v1.TheConstants.{VERSION as FIRST_VERSION, MOST_ENTRIES as FIRST_MOST_ENTRIES};
ghost use Rattle.record_codec.specs.Base.{base_in};
ghost use Rattle.record_codec.specs.Fired.{fired_in, fired_up_to};
ghost use Rattle.record_codec.specs.FirstLayout.{todays_version};
ghost use Rattle.record_codec.specs.Identity.{identity_in, identity_of, version_in};
ghost use Rattle.record_codec.specs.Saved.{saved_in};
ghost use Rattle.plant_core.specs.Stops.{StandsForFront};
ghost use Rattle.plant_core.specs.View.{View, fired_number};
ghost use Rattle.recovery.specs.Seen.{PlantDefinition, FiringDefinition, IsRun, fold, initial_states, Local, StandsFor, base_cell, identity_cell, record_cell, slot_cell, DiskState, size_of, Cell, MayBe, cell, seen_cells};
ghost use Rattle.recovery.specs.Booting.{IsBooted, IsBooting, StandAlike};
ghost use Rattle.recovery.specs.Lifetimes.{HoldAcknowledged, IsLifetime, IsPeriod, Period, all_kept, cut_short};
ghost use Rattle.recovery.specs.Migrating.{IsMigrated};
ghost use Rattle.recovery.specs.OldImage.{AreOldCells, OldStandsFor, old_contents, todays_cells};

/// A plant that is booted from what stands for a state and a number has acknowledged that state, with that number, and is in it.
pub fn an_image_boots_to_what_it_stands_for()
    ensures acked { (plant : PlantDefinition) (digest : List ℕ) (bytes number : ℕ) (cells : List Cell) (states : List Local) (v : View)
        → StandsFor plant digest bytes cells states number → IsBooted plant digest bytes cells v → v.acked ≡ states }
    ensures present { (plant : PlantDefinition) (digest : List ℕ) (bytes number : ℕ) (cells : List Cell) (states : List Local) (v : View)
        → StandsFor plant digest bytes cells states number → IsBooted plant digest bytes cells v → v.present ≡ states }
    ensures number { (plant : PlantDefinition) (digest : List ℕ) (bytes number : ℕ) (cells : List Cell) (states : List Local) (v : View)
        → StandsFor plant digest bytes cells states number → IsBooted plant digest bytes cells v → fired_number v ≡ number }
{}

/// However many periods a plant has, each booted from what the one before left at any moment: what the last one leaves stands for the state that
/// some run leads to from the state at the beginning. The run joins what each period fired and its stop left, and of each period that holds
/// all that the period acknowledged.
pub fn a_life_goes_on()
    ensures stands { (plant : PlantDefinition) (digest : List ℕ) (bytes : ℕ) (first last : List Cell) (periods : List Period) (states : List Local) (number : ℕ)
        → StandsFor plant digest bytes first states number → IsLifetime plant digest bytes first periods last
        → StandsFor plant digest bytes last (fold plant states (all_kept plant periods)) (number + length (all_kept plant periods)) }
    ensures run { (plant : PlantDefinition) (digest : List ℕ) (bytes : ℕ) (first last : List Cell) (periods : List Period) (states : List Local) (number : ℕ)
        → StandsFor plant digest bytes first states number → IsLifetime plant digest bytes first periods last
        → IsRun plant states (all_kept plant periods) (fold plant states (all_kept plant periods)) }
    ensures acknowledged { (plant : PlantDefinition) (digest : List ℕ) (bytes : ℕ) (first last : List Cell) (periods : List Period)
        → IsLifetime plant digest bytes first periods last → HoldAcknowledged plant periods }
{}

/// The same of a device that was formatted for the plant: the run begins in the first state of the plant, and its length is the number
/// of the last record.
pub fn lifetimes()
    ensures stands { (plant : PlantDefinition) (digest : List ℕ) (bytes : ℕ) (first last : List Cell) (periods : List Period)
        → StandsFor plant digest bytes first (initial_states plant) 0 → IsLifetime plant digest bytes first periods last
        → StandsFor plant digest bytes last (fold plant (initial_states plant) (all_kept plant periods)) (length (all_kept plant periods)) }
    ensures run { (plant : PlantDefinition) (digest : List ℕ) (bytes : ℕ) (first last : List Cell) (periods : List Period)
        → StandsFor plant digest bytes first (initial_states plant) 0 → IsLifetime plant digest bytes first periods last
        → IsRun plant (initial_states plant) (all_kept plant periods) (fold plant (initial_states plant) (all_kept plant periods)) }
    ensures acknowledged { (plant : PlantDefinition) (digest : List ℕ) (bytes : ℕ) (first last : List Cell) (periods : List Period)
        → IsLifetime plant digest bytes first periods last → HoldAcknowledged plant periods }
{}

/// The same of a device that an image of the first layout was brought over to: whatever a stop leaves of it stands for what the old image stood
/// for. Where that was the end of a run from the first state of the plant, this run stands in front, and the length of both is the
/// number of the last record.
pub fn a_life_goes_on_from_the_first_layout()
    ensures begins { (plant : PlantDefinition) (digest : List ℕ) (bytes ring : ℕ) (cells first : List Cell) (made : DiskState) (states : List Local) (number : ℕ)
        → OldStandsFor plant digest bytes cells states number → IsMigrated plant digest ring (old_contents plant cells) made → MayBe (BODY + 1) made first
        → StandsFor plant digest (size_of made) first states number }
    ensures stands { (plant : PlantDefinition) (digest : List ℕ) (bytes ring : ℕ) (cells first last : List Cell) (made : DiskState) (before : List FiringDefinition) (periods : List Period)
        → OldStandsFor plant digest bytes cells (fold plant (initial_states plant) before) (length before)
        → IsMigrated plant digest ring (old_contents plant cells) made → MayBe (BODY + 1) made first → IsLifetime plant digest (size_of made) first periods last
        → StandsFor plant digest (size_of made) last (fold plant (initial_states plant) (before ++ all_kept plant periods)) (length (before ++ all_kept plant periods)) }
    ensures run { (plant : PlantDefinition) (digest : List ℕ) (bytes ring : ℕ) (cells first last : List Cell) (made : DiskState) (before : List FiringDefinition) (periods : List Period)
        → OldStandsFor plant digest bytes cells (fold plant (initial_states plant) before) (length before)
        → IsRun plant (initial_states plant) before (fold plant (initial_states plant) before)
        → IsMigrated plant digest ring (old_contents plant cells) made → MayBe (BODY + 1) made first → IsLifetime plant digest (size_of made) first periods last
        → IsRun plant (initial_states plant) (before ++ all_kept plant periods) (fold plant (initial_states plant) (before ++ all_kept plant periods)) }
    ensures acknowledged { (plant : PlantDefinition) (digest : List ℕ) (bytes : ℕ) (first last : List Cell) (periods : List Period)
        → IsLifetime plant digest bytes first periods last → HoldAcknowledged plant periods }
{}

/// A boot that a stop cuts short is a period in which nothing happens. If the plant is booted again without a stop, something of what it wrote last
/// may be pending still, until the boot's first sync: then the stop may also end the period before with another front.
pub fn a_boot_cut_short_is_a_period()
    ensures alike { (plant : PlantDefinition) (digest : List ℕ) (bytes : ℕ) (cells left : List Cell)
        → StandAlike plant digest bytes cells left → IsPeriod plant digest bytes cells (cut_short plant cells left) }
    ensures pending { (plant : PlantDefinition) (digest : List ℕ) (s : DiskState) (closed : View) (left : List Cell)
        → ((cells : List Cell) → MayBe (BODY + 1) s cells → StandsForFront plant digest (size_of s) closed cells) → IsBooting plant digest s left
        → StandsForFront plant digest (size_of s) closed left
        ⊎ IsPeriod plant digest (size_of s) (seen_cells (BODY + 1) s) (cut_short plant (seen_cells (BODY + 1) s) left) }
{}

/// Today's cells of an image of the first layout are as many, full if its own are, and hold the same: the identity that its first layout
/// tells, each base, each saved state, and each record of no more entries than the first layout has. What holds none there holds none here.
pub fn todays_cells_hold_the_same()
    ensures count { (atoms : ℕ) (cells : List Cell) → length (todays_cells atoms cells) ≡ length cells }
    ensures full { (atoms k : ℕ) (cells : List Cell) → is_none (cell (todays_cells atoms cells) k) ≡ is_none (cell cells k) }
    ensures version { (atoms : ℕ) (cells : List Cell) → AreOldCells cells
        → option_and_then version_in (cell (todays_cells atoms cells) identity_cell) ≡ option_map todays_version (option_and_then version_in (cell cells identity_cell)) }
    ensures identity { (atoms : ℕ) (cells : List Cell) → AreOldCells cells
        → option_and_then identity_in (cell (todays_cells atoms cells) identity_cell) ≡ option_and_then (identity_of FIRST_VERSION) (cell cells identity_cell) }
    ensures bases { (atoms base : ℕ) (cells : List Cell) → AreOldCells cells → base < 2
        → option_and_then base_in (cell (todays_cells atoms cells) (base_cell base)) ≡ option_and_then base_in (cell cells (base_cell base)) }
    ensures slots { (atoms atom slot : ℕ) (cells : List Cell) → AreOldCells cells → atom < atoms → slot < 2
        → option_and_then saved_in (cell (todays_cells atoms cells) (slot_cell atom slot)) ≡ option_and_then saved_in (cell cells (slot_cell atom slot)) }
    ensures records { (atoms ring number : ℕ) (cells : List Cell) → AreOldCells cells
        → option_and_then fired_in (cell (todays_cells atoms cells) (record_cell atoms ring number))
        ≡ option_and_then (fired_up_to FIRST_MOST_ENTRIES) (cell cells (record_cell atoms ring number)) }
{}
