//! Laws of the algebra, and of connectors as tokens. Each function does nothing: its contract is the law.

ghost use Rattle.std.specs.Prelude.{◌≡◌, ℕ, ◌-◌, ◌^◌, Bool, true, false, [], ◌∷◌, length, IsTrue};
ghost use Rattle.connector_tree.specs.Tree.{Tree, no_child, child, Branch, bracket, leaves, has_empty};
ghost use Rattle.connector_tree.specs.Faults.{has_repeat, atoms, fault_of};
ghost use Rattle.connector_tree.specs.PortSets.{branch_sets, port_sets, is_port_set};
ghost use Rattle.connector_tree.specs.Masks.{is_set, ports_of, interactions_of, IsInteraction};
ghost use Rattle.connector_tree.specs.Ports.{beside, are_synchrons, is_port, are_ports};
ghost use Rattle.connector_tree.specs.Tokens.{tokens_of, ports_in};
ghost use Rattle.connector_tree.specs.TokenFaults.{fault_in};
ghost use Rattle.connector_tree.specs.TokenMeaning.{port_sets_in, interactions_in};

/// Ports without a trigger act together or not at all.
pub fn synchrons_act_together()
    ensures { (tree : Tree) → IsTrue (are_synchrons tree) → IsTrue (are_ports tree)
        → port_sets tree ≡ leaves tree ∷ [] }
{}

/// One trigger among ports acts with any of the others: the masks are those that have its leaf.
pub fn one_trigger_leads()
    ensures { (before after : Tree) (leader : Branch)
        → IsTrue (are_synchrons before) → IsTrue (are_ports before) → IsTrue (is_port leader)
        → IsTrue (are_synchrons after) → IsTrue (are_ports after)
        → has_repeat (atoms (leaves (beside before (child true leader after)))) ≡ false
        → (mask : ℕ) → is_port_set (beside before (child true leader after))
        (ports_of (beside before (child true leader after)) mask) ≡ is_set mask (length (leaves before)) }
{}

/// A bracket round one child alone means what the child does.
pub fn bracket_of_one_changes_nothing()
    ensures { (trigger : Bool) (branch : Branch)
        → branch_sets (bracket (child trigger branch no_child)) ≡ branch_sets branch }
{}

/// A bracket of synchrons among synchrons may be left out.
pub fn synchrons_flatten()
    ensures { (before inner after : Tree)
        → IsTrue (are_synchrons before) → IsTrue (are_synchrons inner) → IsTrue (are_synchrons after)
        → port_sets (beside before (child false (bracket inner) after))
        ≡ port_sets (beside before (beside inner after)) }
{}

/// All ports of a connector together are one of its port sets.
pub fn all_ports_may_act()
    ensures { (tree : Tree) → IsTrue (is_port_set tree (leaves tree)) }
{}

/// So the mask of all ones is an interaction of each connector.
pub fn full_mask_is_an_interaction()
    ensures { (tree : Tree) → IsInteraction tree (2 ^ length (leaves tree) - 1) }
{}

/// If no bracket is empty, some port takes part in each interaction.
pub fn some_port_acts()
    ensures { (tree : Tree) → has_empty tree ≡ false → is_port_set tree [] ≡ false }
{}

/// The ports among the tokens are the leaves.
pub fn tokens_have_the_leaves()
    ensures { (tree : Tree) → ports_in (tokens_of tree) ≡ leaves tree }
{}

/// The fault of the tokens is the connector's.
pub fn tokens_have_the_fault()
    ensures { (tree : Tree) → fault_in (tokens_of tree) ≡ fault_of tree }
{}

/// The port sets and the interactions that the tokens say are the connector's.
pub fn tokens_have_the_interactions()
    ensures port_sets { (tree : Tree) → port_sets_in (tokens_of tree) ≡ port_sets tree }
    ensures interactions { (tree : Tree) → interactions_in (tokens_of tree) ≡ interactions_of tree }
{}

/// Connectors with the same tokens are the same.
pub fn tokens_are_of_one_tree()
    ensures { (one other : Tree) → tokens_of one ≡ tokens_of other → one ≡ other }
{}
