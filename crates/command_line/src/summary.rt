//! A run that is counted in place of being printed, as words of the command line.
ghost use Rattle.std.specs.Prelude.{◌≡◌, IfErr, OnOk};
ghost use Rattle.command_line.specs.Summary.{IsWrong, PrintsNothing};

use crate::said::Said;

/// Why a run can't be counted in place of being printed.
#[derive(Clone, Copy, Debug, PartialEq, Eq)]
pub(crate) enum SummaryFault<'a> {
    /// Its states are to be printed.
    WithStates,
    /// It is to be printed in this format.
    WithFormat(&'a str),
}

/// Whether the words ask for nothing that is printed of a run.
pub(crate) fn print_nothing<'a>(said: &Said<'_, 'a>) -> Result<(), SummaryFault<'a>>
    ensures nothing { OnOk result (PrintsNothing said.now) }
    ensures wrong { IfErr result (λ fault. IsWrong fault said.now) }
{
    if said.states {
        return Err(SummaryFault::WithStates);
    }
    match said.named_format {
        Some(word) => Err(SummaryFault::WithFormat(word)),
        None => Ok(()),
    }
}
