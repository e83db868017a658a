//! What the definitions say of one another. These functions make no call: their clauses are the laws.
ghost use Rattle.std.specs.Prelude.{◌≡◌, ◌+◌, ◌<◌, ◌≤◌, ◌++◌, ℕ, List, Some, None, Ok, All, true, length, map, slice_get};
ghost use Rattle.std.specs.List.{list_all, range_with_len};
ghost use Rattle.petri_atom.specs.Definition.{AtomDefinition, Fits, is_well_formed};
ghost use Rattle.petri_atom.specs.Local.{Local, Row};
ghost use Rattle.record_codec.specs.Fired.{FiredFields, IsFired};
ghost use Rattle.record_codec.specs.declared.layout.TheConstants.{LAST_NUMBER};
ghost use Rattle.plant_model.specs.Choice.{IsAllowed};
ghost use Rattle.plant_model.specs.Delivery.{IsDelivered};
ghost use Rattle.plant_model.specs.Firing.{FiringDefinition, choice_in};
ghost use Rattle.plant_model.specs.Plant.{PlantDefinition};
ghost use Rattle.plant_model.specs.Rules.{fault_of};
ghost use Rattle.plant_model.specs.Runs.{IsRun, fold};
ghost use Rattle.plant_model.specs.Step.{transfer};
ghost use Rattle.record_replay.specs.OfPlant.{is_record_of};
ghost use Rattle.record_replay.specs.Records.{count_of, counts_after_all, record_by, record_delivered, records_of};
ghost use Rattle.record_replay.specs.Replay.{Position, is_included, ok_then, replay, replay_from};

/// A record of what a step delivered is the record of the choice.
pub fn a_record_of_what_was_delivered_is_that_of_the_choice()
    ensures { (plant : PlantDefinition) (states : List Local) (counts : List ℕ) (n : ℕ) (c : FiringDefinition) (rows : List Row)
        → length c.moves ≤ length rows → IsDelivered c.moves (transfer plant states c) rows
        → record_delivered n (choice_in c) rows counts ≡ record_by plant states counts n c }
{}

/// The record of an allowed choice of a plant of well-formed atoms is in the ranges of a record, and can be of the plant.
pub fn the_record_of_a_step_is_of_its_plant()
    ensures in_range { (plant : PlantDefinition) (states : List Local) (counts : List ℕ) (n : ℕ) (c : FiringDefinition)
        → fault_of plant ≡ None → list_all is_well_formed plant.atoms ≡ true → All (λ count. count < n) counts → 1 ≤ n → n ≤ LAST_NUMBER
        → IsAllowed plant states (choice_in c) → IsFired (record_by plant states counts n c) }
    ensures of_plant { (plant : PlantDefinition) (states : List Local) (counts : List ℕ) (n : ℕ) (c : FiringDefinition)
        → fault_of plant ≡ None → IsAllowed plant states (choice_in c) → is_record_of plant (record_by plant states counts n c) ≡ true }
{}

/// The records of choices are numbered in a row, there are as many as choices, and those of two lists of choices stand one after the other.
pub fn records_stand_in_a_row()
    ensures numbers { (plant : PlantDefinition) (states : List Local) (counts : List ℕ) (n : ℕ) (cs : List FiringDefinition)
        → map (λ (r : FiredFields). r.number) (records_of plant states counts n cs) ≡ range_with_len (n + 1) (length cs) }
    ensures as_many { (plant : PlantDefinition) (states : List Local) (counts : List ℕ) (n : ℕ) (cs : List FiringDefinition)
        → length (records_of plant states counts n cs) ≡ length cs }
    ensures joined { (plant : PlantDefinition) (states : List Local) (counts : List ℕ) (n : ℕ) (xs ys : List FiringDefinition)
        → records_of plant states counts n (xs ++ ys)
        ≡ records_of plant states counts n xs ++ records_of plant (fold plant states xs) (counts_after_all xs counts) (n + length xs) ys }
    ensures counted { (counts : List ℕ) (xs ys : List FiringDefinition)
        → counts_after_all (xs ++ ys) counts ≡ counts_after_all ys (counts_after_all xs counts) }
{}

/// No atom has taken part more often than there were choices.
pub fn no_atom_counts_faster_than_the_choices()
    ensures counts { (counts : List ℕ) (n : ℕ) (cs : List FiringDefinition)
        → All (λ count. count ≤ n) counts → All (λ count. count ≤ n + length cs) (counts_after_all cs counts) }
    ensures as_many { (counts : List ℕ) (cs : List FiringDefinition) → length (counts_after_all cs counts) ≡ length counts }
{}

/// Replay over two lists of records, one after the other, is replay over the first and then over the second.
pub fn replay_goes_from_list_to_list()
    ensures { (a : AtomDefinition) (atom saved : ℕ) (xs ys : List FiredFields) (p : Position)
        → replay a atom saved (xs ++ ys) p ≡ ok_then (replay a atom saved xs p) (λ q. replay a atom saved ys q) }
{}

/// Replay may begin anew at any place on its way: from there, over all of the records, it leads to the same end.
pub fn replay_begins_anew_on_its_way()
    ensures { (a : AtomDefinition) (atom saved : ℕ) (xs ys : List FiredFields) (p q e : Position) → saved ≤ p.count
        → replay a atom saved xs p ≡ Ok q → replay a atom saved (xs ++ ys) p ≡ Ok e → replay_from a atom q (xs ++ ys) ≡ Ok e }
{}

/// Records that a saved state includes are passed over.
pub fn included_records_are_passed_over()
    ensures { (a : AtomDefinition) (atom saved : ℕ) (xs ys : List FiredFields) (p : Position) → list_all (is_included atom saved) xs ≡ true
        → replay a atom saved (xs ++ ys) p ≡ replay a atom saved ys p }
{}

/// An atom that replay has brought to a state of the plant is brought forward with the plant by the records of its run.
pub fn the_records_of_a_run_lead_on()
    ensures { (plant : PlantDefinition) (start end : List Local) (counts : List ℕ) (n : ℕ) (cs : List FiringDefinition) (atom saved : ℕ)
        (a : AtomDefinition) (s e : Local) (rs : List FiredFields) (p : Position)
        → IsRun plant start cs end → slice_get plant.atoms atom ≡ Some a → atom < length counts
        → slice_get start atom ≡ Some s → slice_get end atom ≡ Some e → saved ≤ count_of counts atom
        → replay a atom saved rs p ≡ Ok (record { state = s; count = count_of counts atom })
        → replay a atom saved (rs ++ records_of plant start counts n cs) p
        ≡ Ok (record { state = e; count = count_of (counts_after_all cs counts) atom }) }
{}

/// Mixed counts: of a run that is cut in two anywhere, each atom is brought from its state at the cut to its state at the end by the
/// records of the whole run, whatever stands in them of its firings before the cut and of other atoms.
pub fn mixed_counts()
    ensures { (plant : PlantDefinition) (start end : List Local) (counts : List ℕ) (n : ℕ) (xs ys : List FiringDefinition) (atom : ℕ)
        (a : AtomDefinition) (s e : Local)
        → IsRun plant start (xs ++ ys) end → slice_get plant.atoms atom ≡ Some a → atom < length counts
        → slice_get (fold plant start xs) atom ≡ Some s → slice_get end atom ≡ Some e
        → replay_from a atom (record { state = s; count = count_of (counts_after_all xs counts) atom }) (records_of plant start counts n (xs ++ ys))
        ≡ Ok (record { state = e; count = count_of (counts_after_all (xs ++ ys) counts) atom }) }
{}

/// Replay keeps a state in its atom, and never counts back.
pub fn replay_keeps_to_its_atom()
    ensures fits { (a : AtomDefinition) (atom saved : ℕ) (rs : List FiredFields) (p q : Position) → is_well_formed a ≡ true
        → Fits a p.state → replay a atom saved rs p ≡ Ok q → Fits a q.state }
    ensures count { (a : AtomDefinition) (atom saved : ℕ) (rs : List FiredFields) (p q : Position)
        → replay a atom saved rs p ≡ Ok q → p.count ≤ q.count }
{}
