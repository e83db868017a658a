//! What a change at some atoms can change of the connectors: what the atoms offer is judged again, and the connectors that this reaches
//! are told.
ghost use Rattle.std.specs.Prelude.{IfSome, ◌≡◌, ◌<◌, ◌≤◌, ◌==◌, ◌||◌, not, List, ℕ, false, length, Some, slice_get, slice_index_or, slice_set};
ghost use Rattle.petri_atom.specs.Behind.{movable_set};
ghost use Rattle.petri_atom.specs.Local.{Local, has};
ghost use Rattle.petri_atom.specs.Definition.{AtomDefinition, offered_set};
ghost use Rattle.petri_atom.specs.declared.parts.TheConstants.{MAX_PORTS};
ghost use Rattle.connector_tree.specs.Masks.{is_set};
ghost use Rattle.connector_tree.specs.declared.tree.TheConstants.{MAX_LEAVES};
ghost use Rattle.priority_filter.specs.Members.{has_bit};
ghost use Rattle.plant_model.specs.Delivery.{AreApart};
ghost use Rattle.plant_model.specs.Fitting.{IsOf};
ghost use Rattle.plant_model.specs.Reach.{can_read};
ghost use Rattle.plant_model.specs.System.{plant_of};
ghost use Rattle.plant_model.specs.Usual.{IsUsual, leaves_of};
ghost use Rattle.plant_model.specs.declared.choice.Move.{Move};
ghost use Rattle.plant_model.specs.declared.limits.TheConstants.{MAX_WIRES};
ghost use Rattle.plant_model.specs.declared.reach.ConnectorLeaf.{ConnectorLeaf};
ghost use Rattle.step_core.specs.EnabledTransitions.{AreOffered, AreMovable, AreCounted, AreFiredBehind, AreOfferedBehind, IsFired, atoms_of};
ghost use Rattle.step_core.specs.Leaves.{AreLeaves, AreToldOf, count_of, is_many, is_none};
ghost use Rattle.step_core.specs.Told.{IsOfState, IsRecounted, IsTold};

use crate::enabled_transitions::EnabledTransitions;
use crate::leaves::Leaves;
use petri_atom::{MAX_PORTS, TransitionSet};
use plant_model::{Move, PlantState, PortReach, System, Usual, port_row};

/// The connectors that a change reaches: bit k for connector k.
#[derive(Clone, Copy, Drop)]
pub(crate) struct Changes {
    /// Those to judge again: a leaf offers something that offered nothing, or nothing any more, or a guard can read a changed atom.
    pub(crate) dirty: u64,
    /// Those to weigh again: a leaf offers another number of transitions.
    pub(crate) heavy: u64,
}

impl Changes {
    /// None.
    fn none() -> Self
        ensures dirty { result.dirty ≡ 0 }
        ensures heavy { result.heavy ≡ 0 }
    {
        Changes { dirty: 0, heavy: 0 }
    }

    /// Tells of a port that offered so many transitions, and offers another number now.
    fn tell(&mut self, reach: &PortReach, before: u8, after: u8, leaves: &mut Leaves)
        requires there { (n : ℕ) (l : ConnectorLeaf) → slice_get reach.now.leaves.items n ≡ Some l → (l.connector < MAX_WIRES) × (l.leaf < MAX_LEAVES) }
        ensures heavy { (k : ℕ) → has_bit self.new.heavy k ≡ (has_bit self.old.heavy k || has_bit reach.now.connectors k) }
        ensures dirty { ¬ (is_none after ≡ is_none before) → (k : ℕ) → has_bit self.new.dirty k ≡ (has_bit self.old.dirty k || has_bit reach.now.connectors k) }
        ensures not_dirty { is_none after ≡ is_none before → self.new.dirty ≡ self.old.dirty }
        ensures off { (n : ℕ) (l : ConnectorLeaf) → slice_get reach.now.leaves.items n ≡ Some l → is_set (slice_index_or leaves.old.off l.connector 0) l.leaf ≡ is_none before → is_set (slice_index_or leaves.new.off l.connector 0) l.leaf ≡ is_none after }
        ensures many { (n : ℕ) (l : ConnectorLeaf) → slice_get reach.now.leaves.items n ≡ Some l → is_set (slice_index_or leaves.old.many l.connector 0) l.leaf ≡ is_many before → is_set (slice_index_or leaves.new.many l.connector 0) l.leaf ≡ is_many after }
        ensures others_off { (k leaf : ℕ) → ((n : ℕ) (l : ConnectorLeaf) → slice_get reach.now.leaves.items n ≡ Some l → ¬ ((l.connector ≡ k) × (l.leaf ≡ leaf))) → is_set (slice_index_or leaves.new.off k 0) leaf ≡ is_set (slice_index_or leaves.old.off k 0) leaf }
        ensures others_many { (k leaf : ℕ) → ((n : ℕ) (l : ConnectorLeaf) → slice_get reach.now.leaves.items n ≡ Some l → ¬ ((l.connector ≡ k) × (l.leaf ≡ leaf))) → is_set (slice_index_or leaves.new.many k 0) leaf ≡ is_set (slice_index_or leaves.old.many k 0) leaf }
    {
        self.heavy |= reach.connectors;
        let flips_off = (before == 0) != (after == 0);
        if flips_off {
            self.dirty |= reach.connectors;
        }
        if flips_off | ((before > 1) != (after > 1)) {
            leaves.set_all(&reach.leaves, after);
        }
    }

    /// Tells of the atom's ports whose bit in the word is set: they offered so many transitions.
    fn tell_ports(
        &mut self,
        system: &System,
        atom: u16,
        ports: u32,
        before: &[u8; MAX_PORTS],
        after: &[u8; MAX_PORTS],
        leaves: &mut Leaves,
    )
        requires atom { atom < length (plant_of system.now).atoms }
        requires ports { (port : ℕ) → has ports port ≡ not (slice_index_or after.now port 0 == slice_index_or before.now port 0) }
        ensures leaves { (old new : List (List ℕ)) → IsRecounted atom before.now after.now old new → AreLeaves (plant_of system.now).wires old leaves.old → AreLeaves (plant_of system.now).wires new leaves.new }
        ensures told { (old new : List (List ℕ)) → IsRecounted atom before.now after.now old new → IsTold (plant_of system.now).wires (count_of old) (count_of new) self.old self.new }
    {
        let mut left = ports;
        while left != 0 {
            let port = left.trailing_zeros() as usize;
            left &= left - 1;
            let reach = &system.reach.ports[port_row(atom, port as u16)];
            self.tell(reach, before[port], after[port], leaves);
        }
    }

    /// Counts again what the atom offers, which offered the set `before` until now, and tells of the ports whose number changed. Where it
    /// offers the same, nothing does.
    fn recount(
        &mut self,
        system: &System,
        atom: u16,
        before: TransitionSet,
        offers: &mut EnabledTransitions,
        leaves: &mut Leaves,
    )
        requires atom { atom < length (plant_of system.now).atoms }
        requires before { (a : AtomDefinition) → slice_get (plant_of system.now).atoms atom ≡ Some a → IsOfState a before }
        requires counted { AreCounted (plant_of system.now).atoms (slice_set offers.old.sets atom before) offers.old.counts }
        requires leaves { AreLeaves (plant_of system.now).wires offers.old.counts leaves.old }
        ensures sets { offers.new.sets ≡ offers.old.sets }
        ensures movable { offers.new.movable ≡ offers.old.movable }
        ensures counted { AreCounted (plant_of system.now).atoms offers.new.sets offers.new.counts }
        ensures leaves { AreLeaves (plant_of system.now).wires offers.new.counts leaves.new }
        ensures told { IsTold (plant_of system.now).wires (count_of offers.old.counts) (count_of offers.new.counts) self.old self.new }
    {
        let index = usize::from(atom);
        if offers.sets[index] == before {
            return;
        }
        let old = offers.counts[index];
        let ports = system.atoms[index].recount(
            before,
            offers.sets[index],
            &mut offers.counts[index],
        );
        self.tell_ports(system, atom, ports, &old, &offers.counts[index], leaves);
    }

    /// Judges again what the atom of the move offers, which fired it.
    #[inline(always)]
    fn judge_move(
        &mut self,
        system: &System,
        states: &PlantState,
        step: Move,
        offers: &mut EnabledTransitions,
        leaves: &mut Leaves,
    )
        requires of_plant { IsOf (plant_of system.now) states.now }
        requires atom { step.atom < length (plant_of system.now).atoms }
        requires fired { (a : AtomDefinition) (s : Local) → slice_get (plant_of system.now).atoms step.atom ≡ Some a → slice_get states.now step.atom ≡ Some s → IsFired a step.transition s (slice_index_or offers.old.sets step.atom 0) (slice_index_or offers.old.movable step.atom 0) }
        requires counted { AreCounted (plant_of system.now).atoms offers.old.sets offers.old.counts }
        requires leaves { AreLeaves (plant_of system.now).wires offers.old.counts leaves.old }
        ensures offered { (a : AtomDefinition) (s : Local) → slice_get (plant_of system.now).atoms step.atom ≡ Some a → slice_get states.now step.atom ≡ Some s → slice_index_or offers.new.sets step.atom 0 ≡ offered_set a s }
        ensures movable { (a : AtomDefinition) (s : Local) → slice_get (plant_of system.now).atoms step.atom ≡ Some a → slice_get states.now step.atom ≡ Some s → slice_index_or offers.new.movable step.atom 0 ≡ movable_set a s }
        ensures other_sets { (n : ℕ) → ¬ (n ≡ step.atom) → slice_index_or offers.new.sets n 0 ≡ slice_index_or offers.old.sets n 0 }
        ensures other_movable { (n : ℕ) → ¬ (n ≡ step.atom) → slice_index_or offers.new.movable n 0 ≡ slice_index_or offers.old.movable n 0 }
        ensures counted { AreCounted (plant_of system.now).atoms offers.new.sets offers.new.counts }
        ensures leaves { AreLeaves (plant_of system.now).wires offers.new.counts leaves.new }
        ensures told { IsTold (plant_of system.now).wires (count_of offers.old.counts) (count_of offers.new.counts) self.old self.new }
        ensures read { (k : ℕ) → has_bit self.new.dirty k ≡ false → can_read (plant_of system.now).wires step.atom k ≡ false }
    {
        let index = usize::from(step.atom);
        let atom = &system.atoms[index];
        self.dirty |= system.reach.readers[index];
        if atom.is_quiet(step.transition) {
            return;
        }
        if let Some(usual) = usual_of(system, states, step, offers) {
            self.dirty |= usual.dirty;
            self.heavy |= usual.heavy;
            offers.take(usual, index);
            leaves.put_all(&usual.puts);
            return;
        }
        let before = offers.sets[index];
        let state = &states.states[index];
        offers.judge_fired(atom, state, step.transition, index);
        self.recount(system, step.atom, before, offers, leaves);
    }

    /// Judges anew what the atom offers, if there is one.
    fn judge_atom(
        &mut self,
        system: &System,
        states: &PlantState,
        number: u16,
        offers: &mut EnabledTransitions,
        leaves: &mut Leaves,
    )
        requires of_plant { IsOf (plant_of system.now) states.now }
        requires before { (a : AtomDefinition) → slice_get (plant_of system.now).atoms number ≡ Some a → IsOfState a (slice_index_or offers.old.sets number 0) }
        requires counted { AreCounted (plant_of system.now).atoms offers.old.sets offers.old.counts }
        requires leaves { AreLeaves (plant_of system.now).wires offers.old.counts leaves.old }
        ensures offered { (a : AtomDefinition) (s : Local) → slice_get (plant_of system.now).atoms number ≡ Some a → slice_get states.now number ≡ Some s → slice_index_or offers.new.sets number 0 ≡ offered_set a s }
        ensures movable { (a : AtomDefinition) (s : Local) → slice_get (plant_of system.now).atoms number ≡ Some a → slice_get states.now number ≡ Some s → slice_index_or offers.new.movable number 0 ≡ movable_set a s }
        ensures other_sets { (n : ℕ) → ¬ (n ≡ number) → slice_index_or offers.new.sets n 0 ≡ slice_index_or offers.old.sets n 0 }
        ensures other_movable { (n : ℕ) → ¬ (n ≡ number) → slice_index_or offers.new.movable n 0 ≡ slice_index_or offers.old.movable n 0 }
        ensures counted { AreCounted (plant_of system.now).atoms offers.new.sets offers.new.counts }
        ensures leaves { AreLeaves (plant_of system.now).wires offers.new.counts leaves.new }
        ensures told { IsTold (plant_of system.now).wires (count_of offers.old.counts) (count_of offers.new.counts) self.old self.new }
        ensures read { (k : ℕ) → has_bit self.new.dirty k ≡ false → can_read (plant_of system.now).wires number k ≡ false }
    {
        let index = usize::from(number);
        if index < system.atoms.len() {
            self.dirty |= system.reach.readers[index];
            let before = offers.sets[index];
            offers.judge_one(&system.atoms[index], &states.states[index], index);
            self.recount(system, number, before, offers, leaves);
        }
    }
}

/// What the firing of the move changes, which left these states, if that was made with the system for where its atom offered what is kept
/// and the places are marked that are marked now.
fn usual_of<'a>(
    system: &'a System,
    states: &PlantState,
    step: Move,
    offers: &EnabledTransitions,
) -> Option<&'a Usual>
    requires of_plant { IsOf (plant_of system.now) states.now }
    requires atom { step.atom < length (plant_of system.now).atoms }
    requires transition { (a : AtomDefinition) → slice_get (plant_of system.now).atoms step.atom ≡ Some a → step.transition < length a.transitions }
    ensures usual { IfSome result (λ usual. (a : AtomDefinition) → slice_get (plant_of system.now).atoms step.atom ≡ Some a → IsUsual a (leaves_of (plant_of system.now).wires) step.atom usual.now) }
    ensures before { IfSome result (λ usual. usual.now.before ≡ slice_index_or offers.now.sets step.atom 0) }
    ensures places { IfSome result (λ usual. (s : Local) → slice_get states.now step.atom ≡ Some s → s.marking ≡ usual.now.places) }
{
    let index = usize::from(step.atom);
    let targets = system.atoms[index].targets_of(step.transition);
    // It is made for the targets alone. Where others are marked too, its row is not read, which in a large plant is in no near cache.
    if states.states[index].places() != targets {
        return None;
    }
    usual_there(system, states, step, offers)
}

/// The same, where the row is read. Sets and states are looked at only where something was made.
fn usual_there<'a>(
    system: &'a System,
    states: &PlantState,
    step: Move,
    offers: &EnabledTransitions,
) -> Option<&'a Usual>
    requires of_plant { IsOf (plant_of system.now) states.now }
    requires atom { step.atom < length (plant_of system.now).atoms }
    requires transition { (a : AtomDefinition) → slice_get (plant_of system.now).atoms step.atom ≡ Some a → step.transition < length a.transitions }
    ensures usual { IfSome result (λ usual. (a : AtomDefinition) → slice_get (plant_of system.now).atoms step.atom ≡ Some a → IsUsual a (leaves_of (plant_of system.now).wires) step.atom usual.now) }
    ensures before { IfSome result (λ usual. usual.now.before ≡ slice_index_or offers.now.sets step.atom 0) }
    ensures places { IfSome result (λ usual. (s : Local) → slice_get states.now step.atom ≡ Some s → s.marking ≡ usual.now.places) }
{
    let index = usize::from(step.atom);
    let Some(usual) = &system.usual[index][usize::from(step.transition)] else {
        return None;
    };
    let state = &states.states[index];
    if (usual.before == offers.sets[index]) & (usual.places == state.places()) {
        Some(usual)
    } else {
        None
    }
}

/// Judges again what the atoms of the moves offer, which these fired; what is kept of them is right for the states before, and what is
/// kept of all others for these states. Tells which connectors that reaches.
#[inline(always)]
pub(crate) fn judge_moved(
    system: &System,
    states: &PlantState,
    moves: &[Move],
    offers: &mut EnabledTransitions,
    leaves: &mut Leaves,
) -> Changes
    requires of_plant { IsOf (plant_of system.now) states.now }
    requires apart { AreApart moves.now }
    requires there { (k : ℕ) (m : Move) → slice_get moves.now k ≡ Some m → m.atom < length (plant_of system.now).atoms }
    requires behind { AreFiredBehind (plant_of system.now).atoms moves.now states.now offers.old.sets offers.old.movable }
    requires counted { AreCounted (plant_of system.now).atoms offers.old.sets offers.old.counts }
    requires leaves { AreLeaves (plant_of system.now).wires offers.old.counts leaves.old }
    ensures offered { AreOffered (plant_of system.now).atoms states.now offers.new.sets }
    ensures movable { AreMovable (plant_of system.now).atoms states.now offers.new.movable }
    ensures counted { AreCounted (plant_of system.now).atoms offers.new.sets offers.new.counts }
    ensures leaves { AreLeaves (plant_of system.now).wires offers.new.counts leaves.new }
    ensures within { (k : ℕ) → length (plant_of system.now).wires ≤ k → (has_bit result.dirty k ≡ false) × (has_bit result.heavy k ≡ false) }
    ensures told { AreToldOf (plant_of system.now).wires (atoms_of moves.now) offers.old.counts offers.new.counts result }
{
    let mut changes = Changes::none();
    for step in moves {
        changes.judge_move(system, states, *step, offers, leaves);
    }
    changes
}

/// Judges anew what the atoms offer; what is kept of all others is right. Tells which connectors that reaches.
pub(crate) fn judge_anew(
    system: &System,
    states: &PlantState,
    atoms: &[u16],
    offers: &mut EnabledTransitions,
    leaves: &mut Leaves,
) -> Changes
    requires of_plant { IsOf (plant_of system.now) states.now }
    requires behind { AreOfferedBehind (plant_of system.now).atoms atoms.now states.now offers.old.sets offers.old.movable }
    requires counted { AreCounted (plant_of system.now).atoms offers.old.sets offers.old.counts }
    requires leaves { AreLeaves (plant_of system.now).wires offers.old.counts leaves.old }
    ensures offered { AreOffered (plant_of system.now).atoms states.now offers.new.sets }
    ensures movable { AreMovable (plant_of system.now).atoms states.now offers.new.movable }
    ensures counted { AreCounted (plant_of system.now).atoms offers.new.sets offers.new.counts }
    ensures leaves { AreLeaves (plant_of system.now).wires offers.new.counts leaves.new }
    ensures within { (k : ℕ) → length (plant_of system.now).wires ≤ k → (has_bit result.dirty k ≡ false) × (has_bit result.heavy k ≡ false) }
    ensures told { AreToldOf (plant_of system.now).wires atoms.now offers.old.counts offers.new.counts result }
{
    let mut changes = Changes::none();
    for number in atoms {
        changes.judge_atom(system, states, *number, offers, leaves);
    }
    changes
}
