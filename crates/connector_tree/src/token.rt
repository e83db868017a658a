//! A connector as a flat list of tokens.
use crate::tree::Port;

/// A port of a connector, or one end of a bracket.
#[derive(Clone, Copy, Debug, PartialEq, Eq)]
pub enum Token {
    /// A port, and whether it is a trigger.
    Leaf { port: Port, trigger: bool },
    /// A bracket begins.
    Open,
    /// The bracket that began last ends, and whether it is a trigger.
    Close { trigger: bool },
}
