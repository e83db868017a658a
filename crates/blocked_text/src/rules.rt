//! Whether one priority rule counts, and what it puts below what. An interaction is a connector and a mask.
ghost use Rattle.std.specs.Prelude.{◌≡◌};
ghost use Rattle.priority_filter.specs.Decided.{is_on, is_proper_subset, puts};
ghost use Rattle.priority_filter.specs.Active.{is_active};
ghost use Rattle.plant_model.specs.Choice.{is_marked_at};
ghost use Rattle.blocked_text.specs.Way.{first_rule};

use plant_model::PlantState;
use priority_filter::{Rule, Side};

/// The number of the first rule that counts in the states and puts the lower interaction below the higher.
pub(crate) fn first_rule(
    rules: &[Rule],
    states: &PlantState,
    lower: (u16, u16),
    higher: (u16, u16),
) -> Option<usize>
    ensures { result ≡ first_rule (is_marked_at states.now) rules.now lower higher }
{
    rules.iter().position(|rule| is_active(*rule, states) && puts(*rule, lower, higher))
}

/// Whether the rule counts in the states: it has no condition, or its place is marked.
fn is_active(rule: Rule, states: &PlantState) -> bool
    ensures { result ≡ is_active (is_marked_at states.now) rule }
{
    match rule {
        Rule::UnderAt(_, _, at) => states.is_marked(at),
        Rule::Under(_, _) | Rule::Maximal(_) => true,
    }
}

/// Whether the rule puts the lower interaction below the higher.
fn puts(rule: Rule, lower: (u16, u16), higher: (u16, u16)) -> bool
    ensures { result ≡ puts rule lower higher }
{
    match rule {
        Rule::Under(left, right) | Rule::UnderAt(left, right, _) => {
            is_on(left, lower) && is_on(right, higher)
        }
        Rule::Maximal(connector) => {
            lower.0 == connector && (higher.0 == connector && is_proper_subset(lower.1, higher.1))
        }
    }
}

/// Whether the interaction is on the side.
fn is_on(side: Side, interaction: (u16, u16)) -> bool
    ensures { result ≡ is_on side interaction }
{
    match side {
        Side::Whole(connector) => interaction.0 == connector,
        Side::One(connector, mask) => interaction.0 == connector && interaction.1 == mask,
    }
}

/// Whether each leaf of the first mask is one of the second, and the masks differ.
fn is_proper_subset(mask: u16, other: u16) -> bool
    ensures { result ≡ is_proper_subset mask other }
{
    mask & other == mask && mask != other
}
