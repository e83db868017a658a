//! The warnings, each with the numbers of the parts that it is about.
ghost use Rattle.std.specs.Prelude.{◌≡◌, unwrap_or};
ghost use Rattle.plant_warnings.specs.Lines.{line_of};

use part_lines::PartLines;
use plant_words::{AtomPart, WirePart};

/// Something in a plant that is probably a mistake. Parts are numbered from 0, in the order in which they are written.
#[derive(Clone, Copy, Debug, PartialEq, Eq)]
pub enum Warning {
    /// No place of the atom is marked at first.
    NoMarkedPlace { atom: usize },
    /// No connector has the port.
    PortInNoConnector { atom: usize, port: usize },
    /// No transition has the port.
    PortWithoutTransition { atom: usize, port: usize },
    /// The place is neither marked at first nor a target of a transition.
    PlaceNeverMarked { atom: usize, place: usize },
    /// Nothing reads the variable.
    VariableNeverRead { atom: usize, variable: usize },
    /// The guard clause is the number 0.
    ZeroGuard { connector: usize, guard: usize },
    /// The rule wants the connector to be maximal, but none of its interactions is within another.
    NothingWithin { rule: usize, connector: usize },
    /// A side of the rule is of the connector, which is dead: a guard clause of it is 0, so it can't be fired.
    DeadSide { rule: usize, connector: usize },
}

impl Warning {
    /// The line of the part that the warning is about; 0 if it stands on no line.
    pub(crate) fn line(self, lines: &PartLines) -> u32
        ensures { result ≡ line_of lines.now self }
    {
        let line = match self {
            Warning::NoMarkedPlace { atom } => lines.atom(atom),
            Warning::PortInNoConnector { atom, port } => lines.part_of_atom(
                atom,
                AtomPart::Port,
                port,
            ),
            Warning::PortWithoutTransition { atom, port } => lines.part_of_atom(
                atom,
                AtomPart::Port,
                port,
            ),
            Warning::PlaceNeverMarked { atom, place } => lines.part_of_atom(
                atom,
                AtomPart::Place,
                place,
            ),
            Warning::VariableNeverRead { atom, variable } => lines.part_of_atom(
                atom,
                AtomPart::Variable,
                variable,
            ),
            Warning::ZeroGuard { connector, guard } => lines.part_of_connector(
                connector,
                WirePart::Guard,
                guard,
            ),
            Warning::NothingWithin { rule, .. } => lines.rule(rule),
            Warning::DeadSide { rule, .. } => lines.rule(rule),
        };
        line.unwrap_or(0)
    }
}
