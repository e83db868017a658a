//! Wires: connectors with their names, their guards and the transfers that they make.
use connector_tree::Connector;
use petri_atom::{Expression, Name};

/// A variable as a connector names it: by a leaf, and by its place among the variables that the leaf's port exports.
#[derive(Clone, Copy, PartialEq, Eq)]
pub struct Export {
    pub leaf: u8,
    pub export: u8,
}

/// A transfer: the exported variable gets the value of the expression, on the values from before the firing.
#[derive(Drop)]
pub struct Transfer {
    pub target: Export,
    pub value: Expression<Export>,
}

/// An input: the exported variable gets a value that comes from outside, which lies in this range, both ends included.
#[derive(Clone, Copy, PartialEq, Eq)]
pub struct Input {
    pub target: Export,
    pub low: i64,
    pub high: i64,
}

/// A connector with its name, its guard clauses, its transfers and its inputs. A clause, a transfer or an input applies if each leaf
/// that it names takes part; clauses and transfers are judged on the values from before the firing.
#[derive(Drop)]
pub struct Wire {
    pub name: Name,
    pub connector: Connector,
    pub guards: Vec<Expression<Export>>,
    pub transfers: Vec<Transfer>,
    pub inputs: Vec<Input>,
}
