//! What was fired: a choice, with the values that came in.
ghost use Rattle.std.specs.Prelude.{◌≡◌};

use crate::choice::Choice;
use crate::limits::MAX_INPUTS;
use std::marker::Model;

/// The values that come in where a choice is fired: one for each input of its connector, in their order; at most as many as a connector may
/// have inputs. It takes no memory. In a contract it is the list of the values.
#[derive(Drop)]
pub struct Inputs {
    row: [i64; MAX_INPUTS],
    count: usize,
}

impl Model for Inputs {
    ghost use Rattle.std.specs.Prelude.{◌≤◌, ℤ, List, take};
    ghost use Rattle.plant_model.specs.declared.limits.TheConstants.{MAX_INPUTS};

    ghost Value = { List ℤ };

    ghost view = { λ i. take i.count i.row };

    ghost invariant = { λ i. i.count ≤ MAX_INPUTS };
}

impl Inputs {
    ghost use Rattle.std.specs.Prelude.{◌≤◌, ◌<◌, [], IfSome, IfNone, length};
    ghost use Rattle.plant_model.specs.declared.limits.TheConstants.{MAX_INPUTS};

    /// No value: what a connector without inputs takes.
    pub fn none() -> Self
        ensures { result ≡ [] }
    {
        Inputs {
            row: [0; MAX_INPUTS],
            count: 0,
        }
    }

    /// These values; none if they are more than a connector may take.
    pub fn of(values: &[i64]) -> Option<Self>
        ensures values { IfSome result (λ inputs. inputs ≡ values.now) }
        ensures too_many { IfNone result (MAX_INPUTS < length values.now) }
    {
        let count = values.len();
        if count > MAX_INPUTS {
            return None;
        }
        let mut row = [0; MAX_INPUTS];
        row[..count].copy_from_slice(values);
        Some(Inputs { row, count })
    }

    /// A second row of the same values.
    pub fn copy(&self) -> Self
        ensures { result ≡ self.now }
    {
        Inputs {
            row: self.row,
            count: self.count,
        }
    }

    /// The values, in the order of the inputs.
    pub fn as_slice(&self) -> &[i64]
        ensures values { result.now ≡ self.now }
        ensures few { length result.now ≤ MAX_INPUTS }
    {
        &self.row[..self.count]
    }
}

/// A choice that was fired, with the values that came in.
#[derive(Drop)]
pub struct Firing {
    /// The choice.
    pub choice: Choice,
    /// A value for each input of its connector.
    pub inputs: Inputs,
}
