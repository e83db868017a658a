//! The inputs of a connector, and whether values may come in.
ghost use Rattle.std.specs.Prelude.{◌≡◌};
ghost use Rattle.plant_model.specs.Chosen.{firing_of};
ghost use Rattle.plant_model.specs.Firing.{has_its_inputs, inputs_at, may_all_come, may_come};

use crate::choice::Choice;
use crate::interactions::has_leaf;
use crate::system::System;
use crate::wire::Input;
use connector_tree::Mask;

impl System {
    ghost use Rattle.plant_model.specs.System.{plant_of};

    /// The inputs of the connector with this number; none if it is not there.
    pub fn inputs(&self, connector: u16) -> &[Input]
        ensures { result.now ≡ inputs_at (plant_of self.now) connector }
    {
        match self.wires().get(usize::from(connector)) {
            Some(wire) => wire.inputs.as_slice(),
            None => &[],
        }
    }

    /// Whether these values may come in where the choice is fired: there is one for each input of its connector, in the range of the input if
    /// its leaf takes part, and else 0.
    pub fn takes(&self, choice: &Choice, values: &[i64]) -> bool
        ensures { result ≡ has_its_inputs (plant_of self.now) (firing_of choice.now values.now) }
    {
        may_all_come(choice.mask, self.inputs(choice.connector), values)
    }
}

/// Whether there is a value for each of the inputs, and each may come in.
fn may_all_come(mask: Mask, inputs: &[Input], values: &[i64]) -> bool
    ensures { result ≡ may_all_come mask inputs.now values.now }
{
    match inputs {
        [] => values.is_empty(),
        [input, later @ ..] => match values {
            [] => false,
            [value, others @ ..] => {
                may_come(mask, input, *value) && may_all_come(mask, later, others)
            }
        },
    }
}

/// Whether the value may come in: it lies in the range of the input if its leaf takes part, and else it is 0.
fn may_come(mask: Mask, input: &Input, value: i64) -> bool
    ensures { result ≡ may_come mask input.now value }
{
    if has_leaf(mask, usize::from(input.target.leaf)) {
        input.low <= value && value <= input.high
    } else {
        value == 0
    }
}
