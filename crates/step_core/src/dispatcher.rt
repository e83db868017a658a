//! A plant that runs while some of its atoms are away.
ghost use Rattle.std.specs.Prelude.{◌≡◌, ◌<◌, [], false, None, Some, IfSome, map, length, slice_get, slice_set, is_none};
ghost use Rattle.std.specs.Option.{option_map_or};
ghost use Rattle.petri_atom.specs.Definition.{AtomDefinition, Fits};
ghost use Rattle.petri_atom.specs.Local.{Local};
ghost use Rattle.plant_model.specs.Chosen.{choice_of, firing_of};
ghost use Rattle.plant_model.specs.Delivery.{IsDelivered};
ghost use Rattle.plant_model.specs.Fitting.{IsOf, AllFit};
ghost use Rattle.plant_model.specs.Interaction.{interaction_of};
ghost use Rattle.plant_model.specs.Step.{transfer};
ghost use Rattle.plant_model.specs.System.{plant_of};
ghost use Rattle.step_core.specs.Dispatching.{AllPresentFit, ArePartsOf, state_at};
ghost use Rattle.step_core.specs.Parts.{shown_in};
ghost use Rattle.step_core.specs.Sure.{IsSure, left_by, sure_choices, went_on};
ghost use Rattle.step_core.specs.SureJudgement.{IsSureJudgement};

use crate::jobs::Jobs;
use crate::laws::sure_choices_stand_in_order;
use crate::leaving::leave;
use crate::parts::PlantParts;
use crate::places::find;
use crate::prefetch::Prefetch;
use crate::sure::{
    SureJudgement, count_sure_among, judge_sure, judge_sure_flipped, judge_sure_moved,
    nth_sure_among,
};
use connector_tree::MAX_LEAVES;
use petri_atom::{AtomState, Delivered};
use plant_model::{Choice, MAX_ATOMS, PlantState, System, atoms_of};

/// A plant that runs while some of its atoms are away: a system, the parts of its present state, in which the state of each atom that
/// is present fits it, and what is sure.
///
/// The participants of a sure choice fire at once, or they leave: each of their states goes away in a job, which can be done anywhere,
/// and comes back as what is done. It takes no memory once it is made of states.
#[derive(Drop)]
pub struct Dispatcher<'s> {
    system: &'s System,
    parts: PlantParts,
    judgement: SureJudgement,
    prefetch: Prefetch,
    ghost of_plant: { ArePartsOf (plant_of system.now) parts },
    ghost fits: { AllPresentFit (plant_of system.now) parts },
    ghost judged: { IsSureJudgement (plant_of system.now) (map interaction_of system.now.interactions.items) system.now.ranks parts judgement },
}

impl<'s> Dispatcher<'s> {
    ghost use Rattle.step_core.specs.Dispatcher.{parts_in, system_of};
    ghost use Rattle.step_core.specs.Jobs.{AreJobsOf, jobs_of};

    /// The plant in this state of it, with no atom away. It takes no memory.
    pub fn at(system: &'s System, states: PlantState) -> Self
        requires of_plant { IsOf (plant_of system.now) states }
        requires fits { AllFit (plant_of system.now) states }
        ensures system { system_of result ≡ system.now }
        ensures parts { parts_in result ≡ map Some states }
    {
        system.keeps_its_rules();
        let judgement = judge_sure(system, &states);
        Dispatcher {
            system,
            parts: PlantParts::all(states),
            judgement,
            prefetch: Prefetch::of(system),
        }
    }

    /// The system that runs.
    pub fn system(&self) -> &'s System
        ensures { result.now ≡ system_of self.now }
    {
        self.system
    }

    /// The parts of the present state.
    pub fn parts(&self) -> &PlantParts
        ensures parts { result.now ≡ parts_in self.now }
        ensures of_plant { ArePartsOf (plant_of (system_of self.now)) result.now }
        ensures fits { AllPresentFit (plant_of (system_of self.now)) result.now }
    {
        &self.parts
    }

    /// Whether the atom is there and away.
    pub fn is_away(&self, atom: u16) -> bool
        ensures { result ≡ option_map_or is_none (slice_get (parts_in self.now) atom) false }
    {
        self.parts.is_away(atom)
    }

    /// The present state of the atom, if it is there and present.
    pub fn state(&self, atom: u16) -> Option<AtomState>
        ensures state { result ≡ state_at (parts_in self.now) atom }
        ensures fits { (a : AtomDefinition) (s : Local) → slice_get (plant_of (system_of self.now)).atoms atom ≡ Some a → result ≡ Some s → Fits a s }
    {
        match self.parts.state(atom) {
            Some(state) => Some(state.copy()),
            None => None,
        }
    }

    /// How many sure choices there are.
    pub fn count_sure(&self) -> u128
        ensures { result ≡ length (sure_choices (plant_of (system_of self.now)) (parts_in self.now)) }
    {
        count_sure_among(self.system, &self.parts, &self.judgement)
    }

    /// The sure choice with this place, from 0, in the order of the choices.
    pub fn nth_sure(&self, place: u128) -> Choice
        requires { place < length (sure_choices (plant_of (system_of self.now)) (parts_in self.now)) }
        ensures entry { slice_get (sure_choices (plant_of (system_of self.now)) (parts_in self.now)) place ≡ Some (choice_of result) }
        ensures sure { IsSure (plant_of (system_of self.now)) (parts_in self.now) (choice_of result) }
    {
        let mut choice = Choice::none();
        self.nth_sure_into(place, &mut choice);
        choice
    }

    /// Writes the sure choice with this place, from 0, in the order of the choices.
    pub fn nth_sure_into(&self, place: u128, choice: &mut Choice)
        requires { place < length (sure_choices (plant_of (system_of self.now)) (parts_in self.now)) }
        ensures entry { slice_get (sure_choices (plant_of (system_of self.now)) (parts_in self.now)) place ≡ Some (choice_of choice.new) }
        ensures sure { IsSure (plant_of (system_of self.now)) (parts_in self.now) (choice_of choice.new) }
    {
        nth_sure_among(self.system, &self.parts, &self.judgement, place, choice);
    }

    /// The place of the choice in the list of the sure choices, if it is one of them.
    pub fn find_sure(&self, choice: &Choice) -> Option<u128>
        ensures there { IfSome result (λ place. slice_get (sure_choices (plant_of (system_of self.now)) (parts_in self.now)) place ≡ Some (choice_of choice.now)) }
        ensures none { result ≡ None → IsSure (plant_of (system_of self.now)) (parts_in self.now) (choice_of choice.now) → ⊥ }
    {
        sure_choices_stand_in_order();
        find(self, choice)
    }

    /// Fires the sure choice, and writes what it delivered: at the place of each move, what its atom got. All atoms that were away
    /// stay so.
    pub fn fire_telling(
        &mut self,
        choice: &Choice,
        inputs: &[i64],
        delivered: &mut [Delivered; MAX_LEAVES],
    )
        requires { IsSure (plant_of (system_of self.old)) (parts_in self.old) (choice_of choice.now) }
        ensures system { system_of self.new ≡ system_of self.old }
        ensures parts { parts_in self.new ≡ went_on (plant_of (system_of self.old)) (parts_in self.old) (firing_of choice.now inputs.now) }
        ensures delivered { IsDelivered choice.now.moves (transfer (plant_of (system_of self.old)) (shown_in (parts_in self.old)) (firing_of choice.now inputs.now)) delivered.new }
    {
        self.prefetch.read(self.system, choice);
        self.parts.fire(self.system, choice, inputs, delivered);
        let moves = choice.moves.as_slice();
        judge_sure_moved(self.system, &self.parts, moves, &mut self.judgement);
    }

    /// Begins the sure choice: its participants leave, and for each there is a job, in the order of the moves. A job has the atom's
    /// state, and what the choice delivers to it on the values from before. It carries the atom's count of these.
    pub fn begin(
        &mut self,
        choice: &Choice,
        inputs: &[i64],
        counts: &[u64; MAX_ATOMS],
        jobs: &mut Jobs<'s>,
    )
        requires sure { IsSure (plant_of (system_of self.old)) (parts_in self.old) (choice_of choice.now) }
        requires empty { jobs_of jobs.old ≡ [] }
        ensures system { system_of self.new ≡ system_of self.old }
        ensures parts { parts_in self.new ≡ left_by (parts_in self.old) choice.now.moves }
        ensures jobs { AreJobsOf (plant_of (system_of self.old)) (parts_in self.old) (firing_of choice.now inputs.now) counts.now choice.now.moves (jobs_of jobs.new) }
    {
        leave(self.system, &mut self.parts, choice, inputs, counts, jobs);
        let moves = choice.moves.as_slice();
        let atoms = atoms_of(moves);
        let left = &atoms[..moves.len()];
        judge_sure_flipped(self.system, &self.parts, left, &mut self.judgement);
    }

    /// Puts a state of the atom in its place: it is away, and is then back.
    pub fn back(&mut self, atom: u16, state: AtomState)
        requires away { slice_get (parts_in self.old) atom ≡ Some None }
        requires fits { (a : AtomDefinition) → slice_get (plant_of (system_of self.old)).atoms atom ≡ Some a → Fits a state }
        ensures system { system_of self.new ≡ system_of self.old }
        ensures parts { parts_in self.new ≡ slice_set (parts_in self.old) atom (Some state) }
    {
        self.parts.put(atom, &state);
        judge_sure_flipped(self.system, &self.parts, &[atom], &mut self.judgement);
    }
}
