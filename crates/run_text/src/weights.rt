//! The weights of connectors.
ghost use Rattle.std.specs.Prelude.{◌≡◌, ◌≤◌, min, replicate, slice_index, slice_set};
ghost use Rattle.plant_model.specs.declared.limits.TheConstants.{MAX_WIRES};

use plant_model::MAX_WIRES;
use std::marker::Model;

/// The weight of a connector for which no other is set.
pub const USUAL_WEIGHT: u16 = 100;

/// The most weight that a connector can have.
pub const MOST_WEIGHT: u16 = 1_000;

/// The weight of each connector, by the connectors' numbers: by them random picks take one connector rather than another. In a contract it is
/// their list.
#[derive(Clone, Copy, Debug, PartialEq, Eq)]
pub struct Weights {
    row: [u16; MAX_WIRES],
}

impl Model for Weights {
    ghost use Rattle.std.specs.Prelude.{ℕ, ◌≤◌, List, slice_index};
    ghost use Rattle.run_text.specs.declared.weights.TheConstants.{MOST_WEIGHT};

    ghost Value = { List ℕ };

    ghost view = { λ weights. weights.row };

    ghost invariant = { λ weights. (connector : ℕ) → slice_index weights.row connector ≤ MOST_WEIGHT };

    ghost inverse = { λ row. record { row = row } };
}

impl Weights {
    /// Each connector has the usual weight.
    pub fn usual() -> Self
        ensures { result ≡ replicate MAX_WIRES USUAL_WEIGHT }
    {
        Weights {
            row: [USUAL_WEIGHT; MAX_WIRES],
        }
    }

    /// Gives a connector another weight, or the most if it is more than that. A number past those of connectors changes nothing.
    pub fn set(&mut self, connector: u16, weight: u16)
        ensures { self.new ≡ slice_set self.old connector (min weight MOST_WEIGHT) }
    {
        if usize::from(connector) < MAX_WIRES {
            self.row[usize::from(connector)] = weight.min(MOST_WEIGHT);
        }
    }

    /// The weight of a connector; 0 of a number past those of connectors.
    pub fn of(&self, connector: usize) -> u16
        ensures weight { result ≡ slice_index self.now connector }
        ensures few { result ≤ MOST_WEIGHT }
    {
        self.row.get(connector).copied().unwrap_or(0)
    }
}
