//! Finding the interaction that a record can be of.
ghost use Rattle.std.specs.Prelude.{◌≡◌, ◌<◌, ◌≤◌, ℕ, None, Some, MatchOption, find, length};
ghost use Rattle.connector_tree.specs.Masks.{is_set};
ghost use Rattle.connector_tree.specs.declared.tree.TheConstants.{MAX_LEAVES};
ghost use Rattle.plant_model.specs.Choice.{plant_interactions};
ghost use Rattle.plant_model.specs.Interaction.{interaction_of};
ghost use Rattle.plant_model.specs.System.{plant_of};
ghost use Rattle.record_replay.specs.Finding.{is_leaf_of, is_named};

use crate::parts::has_atom;
use connector_tree::{Mask, Port};
use plant_model::{Interaction, System};

/// Those of the leaves whose atom is one of these: bit j for leaf j.
pub(crate) fn leaves_of(leaves: &[Port], atoms: u64) -> Mask
    requires { length leaves.now ≤ MAX_LEAVES }
    ensures { (j : ℕ) → is_set result j ≡ is_leaf_of leaves.now atoms j }
{
    let mut mask = 0;
    for (leaf, port) in leaves.iter().enumerate() {
        mask |= Mask::from(has_atom(atoms, port.atom)) << leaf;
    }
    mask
}

/// The interaction of the connector with the mask, if there is one. The masks of a connector's interactions rise, so few of them are looked at.
pub(crate) fn find_interaction(system: &System, connector: u16, mask: Mask) -> Option<&Interaction>
    requires { connector < length (plant_of system.now).wires }
    ensures { MatchOption result
        (find (is_named connector mask) (plant_interactions (plant_of system.now)) ≡ None)
        (λ interaction. find (is_named connector mask) (plant_interactions (plant_of system.now)) ≡ Some (interaction_of interaction.now)) }
{
    let rows = &system.connector_rows[usize::from(connector)];
    let first = usize::from(rows.first);
    let own = &system.interactions[first..first + usize::from(rows.count)];
    let place = own
        .binary_search_by_key(&mask, |interaction| interaction.mask)
        .ok()?;
    Some(&own[place])
}
