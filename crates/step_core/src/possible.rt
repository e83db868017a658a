//! A global state with the offered transitions of its atoms, each judged once: how the participants of its interactions can move.
ghost use Rattle.std.specs.Prelude.{◌≡◌, ◌≤◌, ◌<◌, ◌+◌, ◌*◌, ◌/◌, ◌%◌, ◌^◌, ◌++◌, [], map, length, get_or, slice_get, Some, option_map};
ghost use Rattle.petri_atom.specs.Atom.{definition_of};
ghost use Rattle.petri_atom.specs.declared.parts.TheConstants.{MAX_TRANSITIONS};
ghost use Rattle.connector_tree.specs.declared.tree.TheConstants.{MAX_LEAVES};
ghost use Rattle.plant_model.specs.Choice.{is_offered_port, move_of, moves_of, combinations};
ghost use Rattle.plant_model.specs.declared.limits.TheConstants.{PORTS_IN_A_WORD};
ghost use Rattle.step_core.specs.EnabledTransitions.{AreOffered, AreCounted};

use crate::enabled_transitions::EnabledTransitions;
use connector_tree::Port;
use petri_atom::Atom;
use plant_model::{Move, Moves, PORTS_IN_A_WORD, PlantState};

/// A global state with the offered transitions of its atoms.
#[derive(Drop)]
pub(crate) struct InteractionJudge<'a> {
    pub(crate) atoms: &'a [Atom],
    pub(crate) states: &'a PlantState,
    pub(crate) offers: &'a EnabledTransitions,
    ghost as_many: { length states.now ≡ length atoms.now },
    ghost exact: { AreOffered (map definition_of atoms.now) states.now offers.now.sets },
    ghost counted: { AreCounted (map definition_of atoms.now) offers.now.sets offers.now.counts },
}

impl InteractionJudge<'_> {
    ghost use Rattle.step_core.specs.Judges.{judged_atoms};

    /// How many moves the atom of the port can make.
    fn move_count(&self, port: &Port) -> u64
        ensures few { result ≤ MAX_TRANSITIONS }
        ensures count { result ≡ length (moves_of (judged_atoms self.now) self.now.states.now port.now) }
    {
        u64::from(self.offers.count_at(port))
    }

    /// Whether the port is offered.
    pub(crate) fn is_offered(&self, port: &Port) -> bool
        ensures { result ≡ is_offered_port (judged_atoms self.now) self.now.states.now port.now }
    {
        self.move_count(port) != 0
    }

    /// The number of the transition of the move with this place among those that the atom of the port can make, if there
    /// is one.
    fn nth_transition(&self, port: &Port, place: usize) -> Option<u16>
        ensures { option_map (move_of port.now.atom) result ≡ slice_get (moves_of (judged_atoms self.now) self.now.states.now port.now) place }
    {
        match self.atoms.get(usize::from(port.atom)) {
            Some(atom) => atom.nth_among(self.offers.set_of(port.atom), port.port, place),
            None => None,
        }
    }

    /// How many rows of one move for each port there are, of so few ports that the number fits a word.
    fn row_count(&self, ports: &[Port]) -> u64
        requires { length ports.now ≤ PORTS_IN_A_WORD }
        ensures few { result ≤ 2 ^ (7 * length ports.now) }
        ensures count { result ≡ length (combinations (map (moves_of (judged_atoms self.now) self.now.states.now) ports.now)) }
    {
        match ports {
            [] => 1,
            [first, later @ ..] => {
                let count = self.move_count(first);
                count * self.row_count(later)
            }
        }
    }

    /// How many rows of one move for each port there are.
    #[inline]
    pub(crate) fn long_row_count(&self, ports: &[Port]) -> u128
        requires { length ports.now ≤ MAX_LEAVES }
        ensures few { result ≤ 2 ^ (7 * length ports.now) }
        ensures count { result ≡ length (combinations (map (moves_of (judged_atoms self.now) self.now.states.now) ports.now)) }
    {
        if ports.len() <= PORTS_IN_A_WORD {
            return u128::from(self.row_count(ports));
        }
        self.wide_row_count(ports)
    }

    /// The same for more ports.
    #[inline(never)]
    fn wide_row_count(&self, ports: &[Port]) -> u128
        requires more { PORTS_IN_A_WORD < length ports.now }
        requires few { length ports.now ≤ MAX_LEAVES }
        ensures few { result ≤ 2 ^ (7 * length ports.now) }
        ensures count { result ≡ length (combinations (map (moves_of (judged_atoms self.now) self.now.states.now) ports.now)) }
    {
        u128::from(self.row_count(&ports[..PORTS_IN_A_WORD]))
            * u128::from(self.row_count(&ports[PORTS_IN_A_WORD..]))
    }

    /// Adds the row with this place, from 0, of one move for each port, of which the last varies fastest; `total` is how
    /// many rows there are.
    fn push_row(&self, ports: &[Port], total: u128, place: u128, moves: &mut Moves)
        requires room { length moves.old + length ports.now ≤ MAX_LEAVES }
        requires total { total ≡ length (combinations (map (moves_of (judged_atoms self.now) self.now.states.now) ports.now)) }
        requires place { place < total }
        ensures { moves.new ≡ moves.old ++ get_or (combinations (map (moves_of (judged_atoms self.now) self.now.states.now) ports.now)) place [] }
    {
        match ports {
            [] => {}
            [first, later @ ..] => {
                let count = u128::from(self.move_count(first));
                let split = split_place(total, count, place);
                moves.push(self.nth_move(first, split.own as usize));
                self.push_row(later, split.below, split.rest, moves);
            }
        }
    }

    /// The move with this place among those that the atom of the port can make.
    fn nth_move(&self, port: &Port, place: usize) -> Move
        requires { place < length (moves_of (judged_atoms self.now) self.now.states.now port.now) }
        ensures { slice_get (moves_of (judged_atoms self.now) self.now.states.now port.now) place ≡ Some result }
    {
        match self.nth_transition(port, place) {
            Some(transition) => Move {
                atom: port.atom,
                transition,
            },
            None => unreachable!(),
        }
    }

    /// The first of the moves that the atom of the port can make, of which there is one.
    fn first_move(&self, port: &Port) -> Move
        requires { 0 < length (moves_of (judged_atoms self.now) self.now.states.now port.now) }
        ensures { slice_get (moves_of (judged_atoms self.now) self.now.states.now port.now) 0 ≡ Some result }
    {
        let atom = &self.atoms[usize::from(port.atom)];
        Move {
            atom: port.atom,
            transition: atom.first_among(self.offers.set_at(port.atom), port.port),
        }
    }

    /// Writes the first row of one move for each port: the first move of each.
    pub(crate) fn first_row(&self, ports: &[Port], moves: &mut Moves)
        requires few { length ports.now ≤ MAX_LEAVES }
        requires some { 0 < length (combinations (map (moves_of (judged_atoms self.now) self.now.states.now) ports.now)) }
        ensures { moves.new ≡ get_or (combinations (map (moves_of (judged_atoms self.now) self.now.states.now) ports.now)) 0 [] }
    {
        moves.clear();
        for port in ports {
            moves.push(self.first_move(port));
        }
    }

    /// Writes the row with this place, from 0, of one move for each port, of which there are `total`.
    pub(crate) fn nth_row(&self, ports: &[Port], total: u128, place: u128, moves: &mut Moves)
        requires few { length ports.now ≤ MAX_LEAVES }
        requires total { total ≡ length (combinations (map (moves_of (judged_atoms self.now) self.now.states.now) ports.now)) }
        requires place { place < total }
        ensures { moves.new ≡ get_or (combinations (map (moves_of (judged_atoms self.now) self.now.states.now) ports.now)) place [] }
    {
        moves.clear();
        self.push_row(ports, total, place, moves);
    }
}

/// A place among rows as the first port sees it.
#[derive(Drop)]
struct Split {
    /// The place among the moves of the first port.
    own: u128,
    /// How many rows there are for each of these.
    below: u128,
    /// The place among those.
    rest: u128,
}

/// Splits the place of a row of `total`, where the first port has `count` moves.
fn split_place(total: u128, count: u128, place: u128) -> Split
    requires some { 0 < count }
    requires whole { 0 < total / count }
    requires place { place < total }
    ensures own { result.own ≡ place / (total / count) }
    ensures below { result.below ≡ total / count }
    ensures rest { result.rest ≡ place % (total / count) }
{
    // Most atoms offer one transition: these need no division.
    if count == 1 {
        return Split {
            own: 0,
            below: total,
            rest: place,
        };
    }
    // Nearly all numbers of rows fit a word, in which a division is cheap.
    if total <= u128::from(u64::MAX) {
        return split_word(total as u64, count as u64, place as u64);
    }
    let below = total / count;
    Split {
        own: place / below,
        below,
        rest: place % below,
    }
}

/// Splits the place of a row of `total` that fit a word, where the first port has `count` moves.
fn split_word(total: u64, count: u64, place: u64) -> Split
    requires some { 0 < count }
    requires whole { 0 < total / count }
    requires place { place < total }
    ensures own { result.own ≡ place / (total / count) }
    ensures below { result.below ≡ total / count }
    ensures rest { result.rest ≡ place % (total / count) }
{
    let below = total / count;
    Split {
        own: u128::from(place / below),
        below: u128::from(below),
        rest: u128::from(place % below),
    }
}
