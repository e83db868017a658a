//! What a restated text means. The clauses are the laws.
ghost use Rattle.std.specs.Prelude.{◌≡◌, ◌≤◌, ℕ, List, Ok, true, length, map};
ghost use Rattle.std.specs.List.{list_all};
ghost use Rattle.petri_atom.specs.Local.{Local};
ghost use Rattle.plant_model.specs.Fitting.{AllFit, IsOf};
ghost use Rattle.plant_model.specs.Plant.{PlantDefinition};
ghost use Rattle.plant_model.specs.Step.{initial_states};
ghost use Rattle.text_io.specs.declared.reading.TheConstants.{MAX_TEXT};
ghost use Rattle.plant_text.specs.Meaning.{meaning};
ghost use Rattle.plant_text.specs.Text.{text_of};
ghost use Rattle.restated_text.specs.Plants.{but_for_its_state, is_in_memory, plant_in_states};
ghost use Rattle.restated_text.specs.Text.{restated_text};

use plant_text::laws::a_text_that_means_a_plant_is_legal;

/// A text that means a plant, restated, means the plant with these first states, if it is not too long. No rule of plants stands in
/// the way: it is asked of the states alone that memory can hold them.
pub fn a_restated_text_means_the_plant_in_its_states()
    ensures { (plant : PlantDefinition) (states : List Local) (text : List ℕ) → list_all is_in_memory states ≡ true
        → length (restated_text states text) ≤ MAX_TEXT → meaning text ≡ Ok (text_of plant)
        → meaning (restated_text states text) ≡ Ok (text_of (plant_in_states states plant)) }
{
    a_text_that_means_a_plant_is_legal();
}

/// The first states of that plant are these, if there is one for each atom that fits the atom, as in each state that a run comes to. All
/// else is as it was: the connectors, the rules, and of each atom all but which places are marked at first and the variables' first values.
pub fn a_plant_in_its_states_is_the_same_but_for_the_first_ones()
    ensures first { (plant : PlantDefinition) (states : List Local) → IsOf plant states → AllFit plant states → list_all is_in_memory states ≡ true
        → initial_states (plant_in_states states plant) ≡ states }
    ensures atoms { (plant : PlantDefinition) (states : List Local)
        → map but_for_its_state (plant_in_states states plant).atoms ≡ map but_for_its_state plant.atoms }
    ensures connectors { (plant : PlantDefinition) (states : List Local) → (plant_in_states states plant).wires ≡ plant.wires }
    ensures rules { (plant : PlantDefinition) (states : List Local) → (plant_in_states states plant).rules ≡ plant.rules }
{}
