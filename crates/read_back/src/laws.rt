//! What the definitions of writing and of reading say of one another. These functions make no call: their clauses are the laws.
ghost use Rattle.std.specs.Prelude.{◌≡◌, ◌<◌, ◌++◌, ◌∷◌, [], ℕ, List, Some, None, Ok, Err, true, false, Contains, codes, length, nat_lt};
ghost use Rattle.std.specs.List.{list_all};
ghost use Rattle.petri_atom.specs.Definition.{AtomDefinition, TransitionDefinition, UpdateDefinition, is_well_formed, variable_name};
ghost use Rattle.petri_atom.specs.Expression.{Tree};
ghost use Rattle.connector_tree.specs.Faults as tree;
ghost use Rattle.connector_tree.specs.Tokens.{tokens_of};
ghost use Rattle.connector_tree.specs.Tree as connectors;
ghost use Rattle.connector_tree.specs.declared.faults.TreeFault.{TreeFault};
ghost use Rattle.connector_tree.specs.declared.tree.Port.{Port};
ghost use Rattle.priority_filter.specs.declared.rule.Rule.{Rule};
ghost use Rattle.priority_filter.specs.declared.rule.Side.{Side};
ghost use Rattle.plant_model.specs.Plant.{PlantDefinition, TransferDefinition, WireDefinition};
ghost use Rattle.plant_model.specs.Rules.{fault_of, is_known_export, is_known_port};
ghost use Rattle.plant_model.specs.declared.limits.TheConstants.{MAX_RULES};
ghost use Rattle.plant_model.specs.declared.wire.Export.{Export};
ghost use Rattle.plant_words.specs.Expressions.{expression_in};
ghost use Rattle.plant_words.specs.Words.{words_of};
ghost use Rattle.atom_lines.specs.Lookup.{variable_number};
ghost use Rattle.connector_lines.specs.Exports.{variable_in};
ghost use Rattle.connector_lines.specs.Sides.{side_of};
ghost use Rattle.connector_lines.specs.Trees.{tree_in};
ghost use Rattle.connector_lines.specs.declared.tree_words_fault.TreeWordsFault.TheVariants as words_fault;
ghost use Rattle.plant_text.specs.Interactions.{has_interaction};
ghost use Rattle.plant_text.specs.Names.{atom_number, export_named, port_named, wire_number};
ghost use Rattle.plant_text.specs.Rows.{words_row};
ghost use Rattle.plant_text.specs.Text.{text_of};
ghost use Rattle.part_text.specs.Export.{export_name};
ghost use Rattle.part_text.specs.Expression.{expression_text};
ghost use Rattle.part_text.specs.Rule.{rule_text, side_word};
ghost use Rattle.read_back.specs.Expressions.{has_numbers_in_range, is_over_atom, is_over_ports};
ghost use Rattle.read_back.specs.Names.{are_named, are_named_atoms, plant_has_names};
ghost use Rattle.read_back.specs.Plants.{KeepsTheRules};
ghost use Rattle.read_back.specs.ReadBack.{IsFoundAtPorts, IsFoundInAtom, IsReadAtPorts, IsReadInAtom, IsReadTree, tree_words};
ghost use Rattle.read_back.specs.Rules.{has_named_condition, is_rule_of, is_side_of, with_rules};

/// A variable of an atom is found by its name, and an expression over such variables is read back: alone, and before other words,
/// which are left.
pub fn an_expression_of_an_atom_is_read_back()
    ensures variable { (a : AtomDefinition) (v : ℕ) → are_named (λ v. v.name) a.variables ≡ true → nat_lt v (length a.variables) ≡ true
        → IsFoundInAtom a v }
    ensures alone { (a : AtomDefinition) (e : Tree ℕ) → are_named (λ v. v.name) a.variables ≡ true → is_over_atom a e ≡ true
        → IsReadInAtom a e }
    ensures before { (a : AtomDefinition) (e : Tree ℕ) (behind : List ℕ) → are_named (λ v. v.name) a.variables ≡ true → is_over_atom a e ≡ true
        → expression_in (variable_number a) (words_of (expression_text (variable_name a) e ++ codes " " ++ behind)) ≡ Ok (e, words_of behind) }
{}

/// So is a variable that a port exports, one of ports of different atoms, as those of a connector's leaves; and an expression over them.
pub fn an_expression_of_a_connector_is_read_back()
    ensures variable { (atoms : List AtomDefinition) (ports : List Port) (e : Export)
        → are_named_atoms atoms ≡ true → list_all is_well_formed atoms ≡ true → tree.has_repeat (tree.atoms ports) ≡ false
        → is_known_export atoms ports e ≡ true → IsFoundAtPorts atoms ports e }
    ensures alone { (atoms : List AtomDefinition) (ports : List Port) (e : Tree Export)
        → are_named_atoms atoms ≡ true → list_all is_well_formed atoms ≡ true → tree.has_repeat (tree.atoms ports) ≡ false
        → is_over_ports atoms ports e ≡ true → IsReadAtPorts atoms ports e }
    ensures before { (atoms : List AtomDefinition) (ports : List Port) (e : Tree Export) (behind : List ℕ)
        → are_named_atoms atoms ≡ true → list_all is_well_formed atoms ≡ true → tree.has_repeat (tree.atoms ports) ≡ false
        → is_over_ports atoms ports e ≡ true
        → expression_in (variable_in (atom_number atoms) (export_named atoms) ports) (words_of (expression_text (export_name atoms ports) e ++ codes " " ++ behind)) ≡ Ok (e, words_of behind) }
{}

/// The words of a connector's tree over ports of the atoms are read as its tokens, which are those of no other tree; or the fault of the
/// tree is found, if it has one.
pub fn a_tree_is_read_back()
    ensures read { (atoms : List AtomDefinition) (t : connectors.Tree) → are_named_atoms atoms ≡ true
        → list_all (is_known_port atoms) (connectors.leaves t) ≡ true → tree.fault_of t ≡ None → IsReadTree atoms t }
    ensures one { (atoms : List AtomDefinition) (t other : connectors.Tree) → are_named_atoms atoms ≡ true
        → list_all (is_known_port atoms) (connectors.leaves t) ≡ true
        → tree_in (port_named atoms) (tree_words atoms t) ≡ Ok (tokens_of other) → other ≡ t }
    ensures told { (atoms : List AtomDefinition) (t : connectors.Tree) (fault : TreeFault) → are_named_atoms atoms ≡ true
        → list_all (is_known_port atoms) (connectors.leaves t) ≡ true → connectors.is_empty t ≡ false → tree.fault_of t ≡ Some fault
        → tree_in (port_named atoms) (tree_words atoms t) ≡ Err (words_fault.Tree fault) }
{}

/// A side of a rule is read back, and the words of a rule's line add that rule after the others; of a rule with a condition in a plant in
/// whose names differ, and the places of that atom.
pub fn a_rule_is_read_back()
    ensures side { (plant : PlantDefinition) (side : Side) → are_named (λ w. w.name) plant.wires ≡ true → is_side_of plant side ≡ true
        → side_of (wire_number (text_of plant).wires) (has_interaction (text_of plant).wires) (side_word plant side) ≡ Ok side }
    ensures rule { (plant : PlantDefinition) (rule : Rule) (rules : List Rule) → are_named (λ w. w.name) plant.wires ≡ true → is_rule_of plant rule ≡ true
        → has_named_condition plant rule ≡ true → length rules < MAX_RULES
        → words_row (words_of (rule_text plant rule)) (with_rules plant rules) ≡ Ok (with_rules plant (rules ++ rule ∷ [])) }
{}

/// In a plant that breaks no rule of plants, of atoms that break none, whose names are names, each name is of one part alone among those
/// of its kind; and its rules are over its connectors and interactions, and their conditions over its atoms and places.
pub fn a_plant_is_named_apart()
    ensures atoms { (plant : PlantDefinition) → fault_of plant ≡ None → list_all is_well_formed plant.atoms ≡ true → plant_has_names plant ≡ true
        → are_named_atoms plant.atoms ≡ true }
    ensures connectors { (plant : PlantDefinition) → fault_of plant ≡ None → plant_has_names plant ≡ true
        → are_named (λ w. w.name) plant.wires ≡ true }
    ensures rules { (plant : PlantDefinition) (rule : Rule) → fault_of plant ≡ None → Contains plant.rules rule → is_rule_of plant rule ≡ true }
    ensures conditions { (plant : PlantDefinition) (rule : Rule) → fault_of plant ≡ None → list_all is_well_formed plant.atoms ≡ true
        → plant_has_names plant ≡ true → Contains plant.rules rule → has_named_condition plant rule ≡ true }
{}

/// So what such a plant holds is read back: in a connector its tree, its guards, and the target and the value of each transfer; in an
/// atom the guard and the updates of each transition; and each priority rule.
pub fn what_a_plant_holds_is_read_back()
    ensures tree { (plant : PlantDefinition) (w : WireDefinition) → KeepsTheRules plant → Contains plant.wires w
        → IsReadTree plant.atoms w.connector }
    ensures guard { (plant : PlantDefinition) (w : WireDefinition) (e : Tree Export) → KeepsTheRules plant → Contains plant.wires w
        → Contains w.guards e → has_numbers_in_range e ≡ true → IsReadAtPorts plant.atoms (connectors.leaves w.connector) e }
    ensures target { (plant : PlantDefinition) (w : WireDefinition) (t : TransferDefinition) → KeepsTheRules plant → Contains plant.wires w
        → Contains w.transfers t → IsFoundAtPorts plant.atoms (connectors.leaves w.connector) t.target }
    ensures value { (plant : PlantDefinition) (w : WireDefinition) (t : TransferDefinition) → KeepsTheRules plant → Contains plant.wires w
        → Contains w.transfers t → has_numbers_in_range t.value ≡ true → IsReadAtPorts plant.atoms (connectors.leaves w.connector) t.value }
    ensures condition { (plant : PlantDefinition) (a : AtomDefinition) (t : TransitionDefinition) → KeepsTheRules plant → Contains plant.atoms a
        → Contains a.transitions t → has_numbers_in_range t.guard ≡ true → IsReadInAtom a t.guard }
    ensures updated { (plant : PlantDefinition) (a : AtomDefinition) (t : TransitionDefinition) (u : UpdateDefinition)
        → KeepsTheRules plant → Contains plant.atoms a → Contains a.transitions t → Contains t.updates u → IsFoundInAtom a u.variable }
    ensures update { (plant : PlantDefinition) (a : AtomDefinition) (t : TransitionDefinition) (u : UpdateDefinition)
        → KeepsTheRules plant → Contains plant.atoms a → Contains a.transitions t → Contains t.updates u
        → has_numbers_in_range u.value ≡ true → IsReadInAtom a u.value }
    ensures rule { (plant : PlantDefinition) (rule : Rule) (rules : List Rule) → KeepsTheRules plant → Contains plant.rules rule
        → length rules < MAX_RULES → words_row (words_of (rule_text plant rule)) (with_rules plant rules) ≡ Ok (with_rules plant (rules ++ rule ∷ [])) }
{}
