//! Why a text is no plant.
ghost use Rattle.std.specs.Prelude.{◌≡◌};
ghost use Rattle.plant_text.specs.Fault.{number_of, name_of, subject_of, tree_name_of, order_name_of, order_subject_of};
ghost use Rattle.plant_text.specs.declared.fault.Fault.TheVariants as fault;

use connector_lines::TreeWordsFault;
use connector_tree::TreeFault;
use plant_words::LineFault;
use priority_filter::OrderFault;
use std::alloc::{AllocError, AllocFailed};
use std::fmt;
use text_io::TextFault;
use thiserror::Error;

/// What is wrong with a text, or why it could not be read.
#[derive(Clone, Copy, Debug, PartialEq, Eq, Error)]
pub enum Fault {
    /// A byte of a word, or of a comment, is no printed ASCII character, space or tab.
    NotAscii,
    /// The text has more than `MAX_TEXT` bytes.
    TooLong,
    /// No kind of line begins with the line's first word.
    UnknownWord,
    /// The line speaks of the latest atom, or of the latest connector, and there is none yet.
    Misplaced,
    /// A word that must be a name is none, or is reserved.
    BadName,
    /// The name is declared already, or stands twice where each may stand once.
    Twice,
    /// No earlier line declares the name, or what has it may not stand here: a variable that no leaf exports, a mask that is no
    /// interaction of its connector, a place of another atom than the one before `at`.
    UnknownName,
    /// A word is no part of an expression, or an operand is missing.
    BadExpression,
    /// A word that must be a number is none, or is outside of an `i64`; of a mask, outside of a `u64`.
    BadNumber,
    /// A word is missing, stands where another must, or is left over.
    Shape,
    /// The tree of a connector breaks a rule of trees; never its `Memory`.
    Tree(TreeFault),
    /// The rules of the text put no order on its interactions: the least number of one that is below itself, where they are
    /// numbered from 0 by connector and then by mask. It is found at no line.
    Order(OrderFault),
    /// The plant, an atom, a port, a transition or a connector would have more parts than it may.
    Limit,
    /// No line declares an atom.
    NoAtom,
    /// Memory ran out.
    Memory,
    /// The reader answered an error.
    Read,
}

impl Fault {
    /// The number of the fault.
    pub fn number(&self) -> u8
        ensures { result ≡ number_of self.now }
    {
        match self {
            Fault::NotAscii => 1,
            Fault::TooLong => 2,
            Fault::UnknownWord => 3,
            Fault::Misplaced => 4,
            Fault::BadName => 5,
            Fault::Twice => 6,
            Fault::UnknownName => 7,
            Fault::BadExpression => 8,
            Fault::BadNumber => 9,
            Fault::Shape => 10,
            Fault::Tree(_) => 11,
            Fault::Order(_) => 12,
            Fault::Limit => 13,
            Fault::NoAtom => 14,
            Fault::Memory => 15,
            Fault::Read => 16,
        }
    }

    /// The name of the fault, as programs print it.
    pub fn name(&self) -> &'static str
        ensures { result.now ≡ name_of self.now }
    {
        match self {
            Fault::NotAscii => "NotAscii",
            Fault::TooLong => "TooLong",
            Fault::UnknownWord => "UnknownWord",
            Fault::Misplaced => "Misplaced",
            Fault::BadName => "BadName",
            Fault::Twice => "Twice",
            Fault::UnknownName => "UnknownName",
            Fault::BadExpression => "BadExpr",
            Fault::BadNumber => "BadNumber",
            Fault::Shape => "Shape",
            Fault::Tree(fault) => tree_name(*fault),
            Fault::Order(fault) => order_name(*fault),
            Fault::Limit => "Limit",
            Fault::NoAtom => "NoAtom",
            Fault::Memory => "Memory",
            Fault::Read => "Read",
        }
    }

    /// The number that the fault speaks of, which programs print in parentheses after its name: of a cycle the interaction
    /// that is below itself, of the order's unknown name the rule.
    pub fn subject(&self) -> Option<usize>
        ensures { result ≡ subject_of self.now }
    {
        match self {
            Fault::Order(fault) => order_subject(*fault),
            _ => None,
        }
    }
}

/// The name of a fault of the order, as programs print it before its number.
fn order_name(fault: OrderFault) -> &'static str
    ensures { result.now ≡ order_name_of fault }
{
    match fault {
        OrderFault::Cycle(_) => "Cycle",
        OrderFault::UnknownName(_) => "UnknownName",
        OrderFault::Memory => "Memory",
    }
}

/// The number that a fault of the order speaks of.
fn order_subject(fault: OrderFault) -> Option<usize>
    ensures { result ≡ order_subject_of fault }
{
    match fault {
        OrderFault::Cycle(interaction) => Some(usize::from(interaction)),
        OrderFault::UnknownName(rule) => Some(rule),
        OrderFault::Memory => None,
    }
}

/// The name of a tree's fault, as programs print it.
fn tree_name(fault: TreeFault) -> &'static str
    ensures { result.now ≡ tree_name_of fault }
{
    match fault {
        TreeFault::TooManyLeaves => "TooManyLeaves",
        TreeFault::TooDeep => "TooDeep",
        TreeFault::SameAtom => "SameAtom",
        TreeFault::Empty => "Empty",
        TreeFault::Memory => "Memory",
    }
}

impl fmt::Display for Fault {
    ghost use Rattle.std.specs.Prelude.{Some};
    ghost use Rattle.plant_text.specs.Fault.{message_of};

    ghost output = { λ fault. Some (message_of fault) };

    fn fmt<W: fmt::Write>(&self, f: &mut fmt::Formatter<W>) -> fmt::Result {
        match self {
            Fault::NotAscii => write!(f, "{}", LineFault::NotAscii),
            Fault::TooLong => write!(f, "{}", TextFault::TooLong),
            Fault::UnknownWord => f.write_str("no line begins with this word"),
            Fault::Misplaced => f.write_str(
                "the line speaks of the latest atom or connector, and there is none yet",
            ),
            Fault::BadName => write!(f, "{}", LineFault::BadName),
            Fault::Twice => write!(f, "{}", LineFault::Twice),
            Fault::UnknownName => write!(f, "{}", LineFault::UnknownName),
            Fault::BadExpression => write!(f, "{}", LineFault::BadExpression),
            Fault::BadNumber => write!(f, "{}", LineFault::BadNumber),
            Fault::Shape => write!(f, "{}", LineFault::Shape),
            Fault::Tree(fault) => write!(f, "{fault}"),
            Fault::Order(fault) => write!(f, "{fault}"),
            Fault::Limit => write!(f, "{}", LineFault::Limit),
            Fault::NoAtom => f.write_str("there is no atom"),
            Fault::Memory => write!(f, "{}", LineFault::Memory),
            Fault::Read => write!(f, "{}", TextFault::Read),
        }
    }
}

impl From<AllocError> for Fault {
    ghost from_gives = { λ _ told. told ≡ fault.Memory };

    fn from(_: AllocError) -> Self {
        Fault::Memory
    }
}

impl<T: Drop> From<AllocFailed<T>> for Fault {
    ghost from_gives = { λ _ told. told ≡ fault.Memory };

    fn from(_: AllocFailed<T>) -> Self {
        Fault::Memory
    }
}

impl From<LineFault> for Fault {
    ghost use Rattle.plant_text.specs.Fault.{of_line};

    ghost from_gives = { λ fault told. told ≡ of_line fault };

    fn from(fault: LineFault) -> Self {
        match fault {
            LineFault::NotAscii => Fault::NotAscii,
            LineFault::BadName => Fault::BadName,
            LineFault::Twice => Fault::Twice,
            LineFault::UnknownName => Fault::UnknownName,
            LineFault::BadExpression => Fault::BadExpression,
            LineFault::BadNumber => Fault::BadNumber,
            LineFault::Shape => Fault::Shape,
            LineFault::Limit => Fault::Limit,
            LineFault::Memory => Fault::Memory,
        }
    }
}

impl From<TreeWordsFault> for Fault {
    ghost use Rattle.plant_text.specs.Fault.{of_tree};

    ghost from_gives = { λ fault told. told ≡ of_tree fault };

    fn from(fault: TreeWordsFault) -> Self {
        match fault {
            TreeWordsFault::NotAscii => Fault::NotAscii,
            TreeWordsFault::UnknownName => Fault::UnknownName,
            TreeWordsFault::Shape => Fault::Shape,
            TreeWordsFault::Tree(fault) => Fault::Tree(fault),
            TreeWordsFault::Memory => Fault::Memory,
        }
    }
}

impl From<TextFault> for Fault {
    ghost use Rattle.plant_text.specs.Fault.{of_text};

    ghost from_gives = { λ fault told. told ≡ of_text fault };

    fn from(fault: TextFault) -> Self {
        match fault {
            TextFault::TooLong => Fault::TooLong,
            TextFault::Memory => Fault::Memory,
            TextFault::Read => Fault::Read,
        }
    }
}

/// The fault of a text, and the line that has it.
#[derive(Clone, Copy, Debug, PartialEq, Eq, Error)]
pub struct PlantFault {
    /// The number of the line, from 1; 0 where the fault is one of no line.
    pub line: u32,
    /// What is wrong.
    pub fault: Fault,
}

impl PlantFault {
    ghost use Rattle.plant_text.specs.Fault.{of_no_line, placed};

    /// A fault that is of no line.
    pub(crate) fn of_no_line(fault: Fault) -> Self
        ensures { result ≡ of_no_line fault }
    {
        PlantFault { line: 0, fault }
    }

    /// The fault of the line with the number; want of memory is of no line.
    pub(crate) fn placed(line: u32, fault: Fault) -> Self
        ensures { result ≡ placed line fault }
    {
        match fault {
            Fault::Memory => PlantFault::of_no_line(Fault::Memory),
            _ => PlantFault { line, fault },
        }
    }
}

impl fmt::Display for PlantFault {
    ghost use Rattle.std.specs.Prelude.{Some};
    ghost use Rattle.plant_text.specs.Fault.{placed_message_of};

    ghost output = { λ told. Some (placed_message_of told) };

    fn fmt<W: fmt::Write>(&self, f: &mut fmt::Formatter<W>) -> fmt::Result {
        if self.line == 0 {
            write!(f, "{}", self.fault)
        } else {
            write!(f, "line {}: {}", self.line, self.fault)
        }
    }
}

impl From<AllocError> for PlantFault {
    ghost from_gives = { λ _ told. told ≡ record { line = 0; fault = fault.Memory } };

    fn from(_: AllocError) -> Self {
        PlantFault::of_no_line(Fault::Memory)
    }
}

impl From<TextFault> for PlantFault {
    ghost use Rattle.plant_text.specs.Fault.{of_text};

    ghost from_gives = { λ fault told. told ≡ record { line = 0; fault = of_text fault } };

    fn from(fault: TextFault) -> Self {
        PlantFault::of_no_line(Fault::from(fault))
    }
}
