//! What a step needs of each transition in a small row: the places that it joins as words, its port, and what that exports.
ghost use Rattle.std.specs.Prelude.{◌≡◌, ◌<◌, IfOk, IsTrue, length, map, nat_lt};
ghost use Rattle.std.specs.List.{list_all};
ghost use Rattle.petri_atom.specs.Arcs.{AreArcsOf, AreExported, IsArcsOf, IsExported};
ghost use Rattle.petri_atom.specs.Definition.{TransitionDefinition, can_move, exports_few};
ghost use Rattle.petri_atom.specs.Local.{moved};
ghost use Rattle.petri_atom.specs.Parts.{port_of};
ghost use Rattle.petri_atom.specs.Transition.{transition_of};

use crate::exports::Exports;
use crate::parts::Port;
use crate::state::AtomState;
use crate::transition::Transition;
use std::alloc::{AllocError, Global};

/// The places of a transition, bit k for place k, its port, and what that exports. A [`Transition`] tells them too, but its row is five times
/// as long.
#[derive(Clone, Copy, Drop)]
pub(crate) struct Arcs {
    pub(crate) sources: u64,
    pub(crate) targets: u64,
    pub(crate) port: u16,
    pub(crate) exports: Exports,
}

impl Arcs {
    /// Those of the transition, of which these are all ports.
    fn of(ports: &[Port], transition: &Transition) -> Self
        requires known { (transition_of transition.now).port < length ports.now }
        requires few { IsTrue (list_all exports_few (map port_of ports.now)) }
        ensures drawn { IsArcsOf result (transition_of transition.now) }
        ensures exported { IsExported (map port_of ports.now) result (transition_of transition.now) }
    {
        Arcs {
            sources: transition.source_word,
            targets: transition.target_word,
            port: transition.port,
            exports: Exports::of(&ports[usize::from(transition.port)]),
        }
    }

    /// Whether a marking lets the transition move: all its sources are marked, and no target that is no source.
    pub(crate) fn can_move(&self, marking: u64) -> bool
        ensures { (t : TransitionDefinition) → IsArcsOf self.now t → result ≡ can_move marking t }
    {
        let blocking = self.targets & !self.sources;
        (marking & self.sources == self.sources) & (marking & blocking == 0)
    }

    /// The marking after the transition moved.
    fn marking_after(&self, marking: u64) -> u64
        ensures { (t : TransitionDefinition) → IsArcsOf self.now t → result ≡ moved marking t.sources t.targets }
    {
        marking & !self.sources | self.targets
    }

    /// Moves the marking of the state as the transition does.
    pub(crate) fn shift(&self, state: &mut AtomState)
        ensures marking { (t : TransitionDefinition) → IsArcsOf self.now t → state.new.marking ≡ moved state.old.marking t.sources t.targets }
        ensures values { state.new.values ≡ state.old.values }
    {
        state.mark(self.marking_after(state.places()));
    }
}

/// The arcs of each transition, of which these are all ports.
pub(crate) fn arcs_of(
    alloc: Global,
    ports: &[Port],
    transitions: &[Transition],
) -> Result<Vec<Arcs>, AllocError>
    requires known { IsTrue (list_all (λ t. nat_lt t.port (length ports.now)) (map transition_of transitions.now)) }
    requires few { IsTrue (list_all exports_few (map port_of ports.now)) }
    ensures drawn { IfOk result (λ arcs. AreArcsOf arcs.items (map transition_of transitions.now)) }
    ensures exported { IfOk result (λ arcs. AreExported (map port_of ports.now) arcs.items (map transition_of transitions.now)) }
{
    let mut arcs = Vec::with_capacity(alloc, transitions.len())?;
    for transition in transitions {
        arcs.push(Arcs::of(ports, transition))?;
    }
    Ok(arcs)
}
