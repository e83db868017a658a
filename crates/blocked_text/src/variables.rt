//! The variables that an expression names, in their order.
ghost use Rattle.std.specs.Prelude.{◌≡◌, Bool, false, slice_get};
ghost use Rattle.std.specs.Option.{option_map_or};
ghost use Rattle.part_text.specs.Seen.{tree_of};
ghost use Rattle.blocked_text.specs.Variables.{is_before, sought, variables_in};

use petri_atom::Expression;
use plant_model::Export;

/// A variable as an expression names it.
pub(crate) trait Same: Copy {
    ghost same: { Self → Self → Bool };

    /// Whether it is the same variable.
    fn is_same(self, other: Self) -> bool
        ensures { result ≡ same self other };
}

impl Same for u8 {
    ghost use Rattle.std.specs.Prelude.{nat_eq};

    ghost same = { nat_eq };

    fn is_same(self, other: u8) -> bool {
        self == other
    }
}

impl Same for Export {
    ghost use Rattle.plant_model.specs.Rules.{is_same_export};

    ghost same = { is_same_export };

    fn is_same(self, other: Export) -> bool {
        self.leaf == other.leaf && self.export == other.export
    }
}

/// The variable with this place among those that the expression names, if there is one.
pub(crate) fn variable_at<V: Copy>(expression: &Expression<V>, place: usize) -> Option<V>
    ensures { result ≡ slice_get (variables_in (tree_of expression.now)) place }
{
    match seek(expression, place) {
        Ok(variable) => Some(variable),
        Err(_) => None,
    }
}

/// Seeks a variable by its place; an error has the place that it has after this expression.
fn seek<V: Copy>(expression: &Expression<V>, place: usize) -> Result<V, usize>
    ensures { result ≡ sought place (variables_in (tree_of expression.now)) }
{
    match expression {
        Expression::Number(_) => Err(place),
        Expression::Variable(variable) => match place.checked_sub(1) {
            Some(later) => Err(later),
            None => Ok(*variable),
        },
        Expression::Not(operand) => seek(operand, place),
        Expression::Apply(_, left, right) => match seek(left, place) {
            Ok(variable) => Ok(variable),
            Err(later) => seek(right, later),
        },
    }
}

/// Whether the expression names the variable before this place.
pub(crate) fn is_before<V: Same>(expression: &Expression<V>, place: usize, variable: V) -> bool
    ensures { result ≡ is_before V.same (variables_in (tree_of expression.now)) place variable }
{
    for earlier in 0..place {
        if is_at(expression, earlier, variable) {
            return true;
        }
    }
    false
}

/// Whether the expression names the variable at this place.
fn is_at<V: Same>(expression: &Expression<V>, place: usize, variable: V) -> bool
    ensures { result ≡ option_map_or (λ v. V.same v variable) (slice_get (variables_in (tree_of expression.now)) place) false }
{
    match variable_at(expression, place) {
        Some(there) => there.is_same(variable),
        None => false,
    }
}
