//! What follows of the meaning of a text. Each function does nothing: its contract is the law.
ghost use Rattle.std.specs.Prelude.{◌≡◌, ℕ, List, Ok, None, true};
ghost use Rattle.std.specs.List.{list_all};
ghost use Rattle.plant_model.specs.Plant.{PlantDefinition};
ghost use Rattle.plant_model.specs.declared.system.System.{System};
ghost use Rattle.plant_model.specs.System.{plant_of};
ghost use Rattle.sha2.specs.Sha256.{sha256};
ghost use Rattle.plant_model.specs.Rules.{fault_of};
ghost use Rattle.plant_words.specs.Lines.{is_legal_line, lines_of};
ghost use Rattle.plant_text.specs.Meaning.{meaning};
ghost use Rattle.plant_text.specs.Text.{PlantText, text_of};

/// A plant that is written as a text means breaks no rule of plants.
pub fn a_text_means_a_sound_plant()
    ensures { (text : List ℕ) (plant : PlantDefinition) → meaning text ≡ Ok (text_of plant) → fault_of plant ≡ None }
{}

/// Each line of a text that means a plant, comments too, holds bytes alone that a text may hold.
pub fn a_text_that_means_a_plant_is_legal()
    ensures { (text : List ℕ) (plant : PlantText) → meaning text ≡ Ok plant → list_all is_legal_line (lines_of text) ≡ true }
{}

/// A text means one plant: two that are written as it means are the same.
pub fn a_text_means_one_plant()
    ensures { (text : List ℕ) (one other : PlantDefinition) → meaning text ≡ Ok (text_of one)
        → meaning text ≡ Ok (text_of other) → one ≡ other }
{}

/// So systems that were read from equal texts are of one plant, and have one digest. Reading ensures what is asked here.
pub fn equal_texts_are_read_as_one_plant()
    ensures plant { (one_text other_text : List ℕ) (one other : System) → one_text ≡ other_text
        → meaning one_text ≡ Ok (text_of (plant_of one)) → meaning other_text ≡ Ok (text_of (plant_of other))
        → plant_of one ≡ plant_of other }
    ensures digest { (one_text other_text : List ℕ) (one other : System) → one_text ≡ other_text
        → one.digest ≡ sha256 one_text → other.digest ≡ sha256 other_text → one.digest ≡ other.digest }
{}
