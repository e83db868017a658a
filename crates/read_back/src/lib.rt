//! What is written of a plant is read back as it was.
//!
//! `part_text` writes the parts of a plant in the words of the plant text, and `plant_words`, `atom_lines`, `connector_lines` and
//! `plant_text` read such words. Each defines what it does by itself. The laws of this crate tie the definitions: what is written of a
//! part, cut into words and read, is the part again.
//!
//! | Part | Written by | Read by | Law |
//! |---|---|---|---|
//! | an expression of an atom | `expression_text`, `variable_name` | `expression_in`, `variable_number` | [`laws::an_expression_of_an_atom_is_read_back`] |
//! | an expression of a connector | `expression_text`, `export_name` | `expression_in`, `variable_in` | [`laws::an_expression_of_a_connector_is_read_back`] |
//! | a connector's tree | `spaced_word`, `tokens_of` | `tree_in`, `port_named` | [`laws::a_tree_is_read_back`] |
//! | a side of a rule, and a rule | `side_word`, `rule_text` | `side_of`, `words_row` | [`laws::a_rule_is_read_back`] |
//!
//! The laws ask that names are names, each of one part alone (`specs/Names.antt`), that expressions are within the limits and name what
//! is there (`specs/Expressions.antt`), and that sides and conditions are the plant's (`specs/Rules.antt`). A plant that breaks no
//! rule, and whose names are names, keeps this ([`laws::a_plant_is_named_apart`]). So all that it holds is read back
//! ([`laws::what_a_plant_holds_is_read_back`]): that its numbers are within 64 bits is all that is left to ask.
//!
//! - [`laws`]: the laws. Nothing here runs.
#![tactic(auto)]

pub mod laws;
