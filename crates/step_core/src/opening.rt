//! Which interactions are open while atoms are away: those with a participant that is away whose other ports are all offered.
ghost use Rattle.std.specs.Prelude.{◌≡◌, ◌||◌, ℕ, ◌<◌, ◌≤◌, false, not, map, length};
ghost use Rattle.std.specs.FinSet.{contains};
ghost use Rattle.std.specs.List.{list_all};
ghost use Rattle.petri_atom.specs.Atom.{definition_of};
ghost use Rattle.plant_model.specs.Choice.{is_offered_port};
ghost use Rattle.plant_model.specs.Interaction.{interaction_of};
ghost use Rattle.plant_model.specs.declared.limits.TheConstants.{MAX_INTERACTIONS};
ghost use Rattle.step_core.specs.Parts.{is_present, shown_in};
ghost use Rattle.step_core.specs.Sure.{is_open, is_open_at};
ghost use Rattle.priority_filter.specs.declared.interaction_set.TheConstants.{ROW_WORDS};
ghost use Rattle.step_core.specs.Words.{in_word, IsRightIn};

use crate::parts::PlantParts;
use crate::possible::InteractionJudge;
use connector_tree::Port;
use plant_model::Interaction;
use priority_filter::InteractionSet;

/// The parts of a state, with the offered transitions of what they show.
#[derive(Drop)]
pub(crate) struct OpenJudge<'a> {
    pub(crate) judged: InteractionJudge<'a>,
    pub(crate) parts: &'a PlantParts,
    ghost shown: { judged.states.now ≡ shown_in parts.now },
}

impl OpenJudge<'_> {
    /// Judges again which interactions of the set `touched` are open, by their numbers in the list; what is kept of all others is
    /// right. Says whether that changed anything.
    pub(crate) fn judge_touched(
        &self,
        interactions: &[Interaction],
        touched: &InteractionSet,
        opened: &mut InteractionSet,
    ) -> bool
        requires few { length interactions.now ≤ MAX_INTERACTIONS }
        requires others { (n : ℕ) → (n < length interactions.now → contains touched.now n ≡ false) → contains opened.old n ≡ is_open_at (map definition_of self.now.judged.atoms.now) self.now.parts.now (map interaction_of interactions.now) n }
        ensures opened { (n : ℕ) → contains opened.new n ≡ is_open_at (map definition_of self.now.judged.atoms.now) self.now.parts.now (map interaction_of interactions.now) n }
        ensures same { result ≡ false → (n : ℕ) → contains opened.new n ≡ contains opened.old n }
    {
        let mut changed = false;
        for place in 0..interactions.len().div_ceil(64) {
            changed |= self.judge_word(interactions, place, touched.word(place), opened);
        }
        changed
    }

    /// Judges those of the 64 interactions from 64 times the place on whose bit in the word is set. Says whether that changed
    /// anything.
    fn judge_word(
        &self,
        interactions: &[Interaction],
        place: usize,
        word: u64,
        opened: &mut InteractionSet,
    ) -> bool
        requires place { place < ROW_WORDS }
        ensures opened { IsRightIn (in_word place word) (λ n is. is ≡ is_open_at (map definition_of self.now.judged.atoms.now) self.now.parts.now (map interaction_of interactions.now) n) (contains opened.old) (contains opened.new) }
        ensures same { result ≡ false → (n : ℕ) → contains opened.new n ≡ contains opened.old n }
    {
        let mut changed = false;
        let mut left = word;
        while left != 0 {
            let bit = left.trailing_zeros() as usize;
            left &= left - 1;
            changed |= self.judge_one(interactions, 64 * place + bit, opened);
        }
        changed
    }

    /// Judges the interaction with this number; one that is not there is not open. Says whether that changed anything.
    fn judge_one(
        &self,
        interactions: &[Interaction],
        number: usize,
        opened: &mut InteractionSet,
    ) -> bool
        requires { number < MAX_INTERACTIONS }
        ensures here { contains opened.new number ≡ is_open_at (map definition_of self.now.judged.atoms.now) self.now.parts.now (map interaction_of interactions.now) number }
        ensures others { (n : ℕ) → ¬ (n ≡ number) → contains opened.new n ≡ contains opened.old n }
        ensures same { result ≡ false → (n : ℕ) → contains opened.new n ≡ contains opened.old n }
    {
        put(opened, number as u16, self.is_open_at(interactions, number))
    }

    /// Whether the interaction with this number is there and open.
    fn is_open_at(&self, interactions: &[Interaction], number: usize) -> bool
        ensures { result ≡ is_open_at (map definition_of self.now.judged.atoms.now) self.now.parts.now (map interaction_of interactions.now) number }
    {
        match interactions.get(number) {
            Some(interaction) => self.is_open(interaction),
            None => false,
        }
    }

    /// Whether the interaction is open.
    fn is_open(&self, interaction: &Interaction) -> bool
        ensures { result ≡ is_open (map definition_of self.now.judged.atoms.now) self.now.parts.now (interaction_of interaction.now) }
    {
        !self.is_whole(&interaction.ports) && self.may_all_move(&interaction.ports)
    }

    /// Whether the atoms of all ports are present.
    fn is_whole(&self, ports: &[Port]) -> bool
        ensures { result ≡ list_all (λ p. is_present self.now.parts.now p.atom) ports.now }
    {
        ports.iter().all(|port| !self.parts.is_away(port.atom))
    }

    /// Whether each port whose atom is present is offered.
    fn may_all_move(&self, ports: &[Port]) -> bool
        ensures { result ≡ list_all (λ p. not (is_present self.now.parts.now p.atom) || is_offered_port (map definition_of self.now.judged.atoms.now) (shown_in self.now.parts.now) p) ports.now }
    {
        ports.iter().all(|port| self.may_move(port))
    }

    /// Whether the atom of the port is away, or the port is offered.
    fn may_move(&self, port: &Port) -> bool
        ensures { result ≡ (not (is_present self.now.parts.now port.now.atom) || is_offered_port (map definition_of self.now.judged.atoms.now) (shown_in self.now.parts.now) port.now) }
    {
        self.parts.is_away(port.atom) || self.judged.is_offered(port)
    }
}

/// Puts the number into the set, or takes it out, and says whether that changed anything.
fn put(set: &mut InteractionSet, number: u16, is_in: bool) -> bool
    requires { number < MAX_INTERACTIONS }
    ensures here { contains set.new number ≡ is_in }
    ensures others { (n : ℕ) → ¬ (n ≡ number) → contains set.new n ≡ contains set.old n }
    ensures same { result ≡ false → (n : ℕ) → contains set.new n ≡ contains set.old n }
{
    if set.contains(number) == is_in {
        return false;
    }
    if is_in {
        set.insert(number);
    } else {
        take_out(set, number);
    }
    true
}

/// Takes the number out of the set.
fn take_out(set: &mut InteractionSet, number: u16)
    requires { number < MAX_INTERACTIONS }
    ensures here { contains set.new number ≡ false }
    ensures others { (n : ℕ) → ¬ (n ≡ number) → contains set.new n ≡ contains set.old n }
{
    let place = usize::from(number) / 64;
    let bit = usize::from(number) % 64;
    let word = set.word(place);
    set.set_word(place, word & !(1 << bit));
}
