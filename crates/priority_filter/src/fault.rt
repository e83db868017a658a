//! Why there is no order.
use std::alloc::AllocError;
use std::fmt;
use thiserror::Error;

/// Why rules and interactions give no order.
#[derive(Clone, Copy, Debug, PartialEq, Eq, Error)]
pub enum OrderFault {
    /// The interaction with this number is below itself, and no lower number is.
    Cycle(u16),
    /// The rule with this index names something that is not in the list of interactions, and no
    /// earlier rule does.
    UnknownName(usize),
    /// Memory ran out.
    Memory,
}

impl fmt::Display for OrderFault {
    ghost use Rattle.std.specs.Prelude.{Some};
    ghost use Rattle.priority_filter.specs.Fault.{message_of};

    ghost output = { λ fault. Some (message_of fault) };

    fn fmt<W: fmt::Write>(&self, f: &mut fmt::Formatter<W>) -> fmt::Result {
        match self {
            OrderFault::Cycle(interaction) => {
                write!(f, "the rules put interaction {interaction} below itself")
            }
            OrderFault::UnknownName(rule) => {
                write!(f, "rule {rule} names no interaction of the plant")
            }
            OrderFault::Memory => f.write_str("out of memory"),
        }
    }
}

impl From<AllocError> for OrderFault {
    ghost use Rattle.std.specs.Prelude.{◌≡◌};
    ghost use Rattle.priority_filter.specs.declared.fault.OrderFault.TheVariants.{Memory};

    ghost from_gives = { λ _ fault. fault ≡ Memory };

    fn from(_error: AllocError) -> OrderFault {
        OrderFault::Memory
    }
}
