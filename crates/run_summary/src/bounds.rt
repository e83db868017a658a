//! The least and the greatest of values.
ghost use Rattle.std.specs.Prelude.{◌≡◌, [], IfOk};
ghost use Rattle.run_summary.specs.Bounds.{bounds_of, widened, widened_from};
ghost use Rattle.run_summary.specs.Totals.{bounds_from};

use petri_atom::Variable;
use run_text::value_at;
use std::alloc::{AllocError, Global};

/// The least and the greatest of some values.
#[derive(Clone, Copy)]
pub struct Bounds {
    /// The least.
    pub least: i64,
    /// The greatest.
    pub greatest: i64,
}

impl Bounds {
    /// Those of one value.
    fn of(value: i64) -> Self
        ensures { result ≡ bounds_of value [] }
    {
        Bounds {
            least: value,
            greatest: value,
        }
    }

    /// Those with one more value.
    fn widened(self, value: i64) -> Self
        ensures { result ≡ widened self value }
    {
        Bounds {
            least: self.least.min(value),
            greatest: self.greatest.max(value),
        }
    }
}

/// The bounds of variables of which there was the first value alone. It takes memory for them.
pub(crate) fn first_bounds(alloc: Global, variables: &[Variable]) -> Result<Vec<Bounds>, AllocError>
    ensures { IfOk result (λ bounds. bounds.items ≡ bounds_from 0 variables.now []) }
{
    let mut bounds = Vec::with_capacity(alloc, variables.len())?;
    for variable in variables {
        bounds.push(Bounds::of(variable.first))?;
    }
    Ok(bounds)
}

/// The variables have these values once more.
pub(crate) fn widen(bounds: &mut Vec<Bounds>, values: &[i64])
    ensures { bounds.new.items ≡ widened_from 0 bounds.old.items values.now }
{
    for number in 0..bounds.len() {
        bounds[number] = bounds[number].widened(value_at(values, number));
    }
}
