//! What a port exports, as an array.
ghost use Rattle.std.specs.Prelude.{◌≡◌, ◌≤◌, length, take};
ghost use Rattle.petri_atom.specs.declared.state.TheConstants.{MAX_EXPORTS};

use crate::parts::Port;
use crate::state::MAX_EXPORTS;

/// The numbers of the variables that a port exports, in order.
#[derive(Clone, Copy, Drop)]
pub(crate) struct Exports {
    used: u8,
    variables: [u8; MAX_EXPORTS],
    ghost few: { used ≤ MAX_EXPORTS },
}

impl Exports {
    ghost use Rattle.petri_atom.specs.Parts.{port_of};

    /// Those of the port.
    pub(crate) fn of(port: &Port) -> Self
        requires { length (port_of port.now).exports ≤ MAX_EXPORTS }
        ensures { take result.used result.variables ≡ (port_of port.now).exports }
    {
        let exports: &[u8] = &port.exports;
        let mut variables = [0; MAX_EXPORTS];
        variables[..exports.len()].copy_from_slice(exports);
        Exports {
            used: exports.len() as u8,
            variables,
        }
    }

    /// The numbers.
    pub(crate) fn as_slice(&self) -> &[u8]
        ensures { result.now ≡ take self.now.used self.now.variables }
    {
        &self.variables[..usize::from(self.used)]
    }
}
