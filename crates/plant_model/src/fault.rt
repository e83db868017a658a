//! Why atoms and wires make no plant.
use connector_tree::TreeFault;
use priority_filter::OrderFault;
use std::alloc::AllocError;
use std::fmt;
use thiserror::Error;

/// What is wrong with a wire beside its tree.
#[derive(Clone, Copy, Debug, PartialEq, Eq, Error)]
pub enum WireFault {
    /// An earlier wire has its name.
    NameTwice,
    /// A leaf names an atom that is not there, or a port that its atom has not.
    UnknownPort,
    /// A guard clause or a transfer names a leaf that is not there, or a variable that the leaf's port does not export.
    UnknownVariable,
    /// Two transfers or inputs have the same target.
    TargetTwice,
    /// No value lies in the range of an input.
    EmptyRange,
}

/// Why atoms and wires make no plant.
#[derive(Clone, Copy, Debug, PartialEq, Eq, Error)]
pub enum SystemFault {
    /// There is no atom, or there are more atoms, wires, rules, guards, transfers, words or interactions than a plant may have, or a
    /// rule's condition asks for an atom or a place that is not there.
    Limit,
    /// An earlier atom has the name of the atom with this number.
    BadAtom(u16),
    /// The tree of the connector with this number is no connector.
    BadConnector(u16, TreeFault),
    /// The wire with this number breaks a rule.
    BadWire(u16, WireFault),
    /// The priority rules put no order on the interactions. The fault is not want of memory.
    Order(OrderFault),
    /// There was no memory for the plant.
    Memory,
}

impl fmt::Display for WireFault {
    ghost use Rattle.std.specs.Prelude.{Some};
    ghost use Rattle.plant_model.specs.Messages.{wire_message};

    ghost output = { λ fault. Some (wire_message fault) };

    fn fmt<W: fmt::Write>(&self, f: &mut fmt::Formatter<W>) -> fmt::Result {
        match self {
            WireFault::NameTwice => f.write_str("an earlier connector has its name"),
            WireFault::UnknownPort => f.write_str("it names an atom or a port that is not there"),
            WireFault::UnknownVariable => {
                f.write_str("a guard or a transfer names a variable that no leaf exports")
            }
            WireFault::TargetTwice => f.write_str("two transfers have the same target"),
            WireFault::EmptyRange => f.write_str("no value lies in the range of an input"),
        }
    }
}

impl fmt::Display for SystemFault {
    ghost use Rattle.std.specs.Prelude.{Some};
    ghost use Rattle.plant_model.specs.Messages.{message_of};

    ghost output = { λ fault. Some (message_of fault) };

    fn fmt<W: fmt::Write>(&self, f: &mut fmt::Formatter<W>) -> fmt::Result {
        match self {
            SystemFault::Limit => f.write_str("there is no atom, or a limit of plants is passed"),
            SystemFault::BadAtom(atom) => {
                write!(f, "atom {atom} has the name of an earlier one")
            }
            SystemFault::BadConnector(connector, fault) => {
                write!(f, "connector {connector}: {fault}")
            }
            SystemFault::BadWire(connector, fault) => write!(f, "connector {connector}: {fault}"),
            SystemFault::Order(fault) => write!(f, "priorities: {fault}"),
            SystemFault::Memory => f.write_str("not enough memory for the plant"),
        }
    }
}

impl From<AllocError> for SystemFault {
    ghost use Rattle.std.specs.Prelude.{◌≡◌};
    ghost use Rattle.plant_model.specs.declared.fault.SystemFault.TheVariants.{Memory};

    ghost from_gives = { λ _ fault. fault ≡ Memory };

    fn from(_error: AllocError) -> Self {
        Self::Memory
    }
}

impl From<OrderFault> for SystemFault {
    ghost use Rattle.std.specs.Prelude.{◌≡◌};
    ghost use Rattle.plant_model.specs.OrderFaults.{system_fault_of_order};

    ghost from_gives = { λ fault told. told ≡ system_fault_of_order fault };

    fn from(fault: OrderFault) -> Self {
        match fault {
            OrderFault::Memory => Self::Memory,
            fault => Self::Order(fault),
        }
    }
}
