//! What `clap` says in place of a request.
ghost use Rattle.std.specs.Prelude.{◌≡◌, ◌≢◌, ◌↔◌};
ghost use Rattle.clap.specs.Words.{kind_of};
ghost use Rattle.command_line.specs.declared.answer.Answered.TheVariants.{Usage, Memory};

use clap::Error;
use clap::error::ErrorKind;

/// How the program ends where the words of the command line are no request.
#[derive(Clone, Copy, Debug, PartialEq, Eq)]
pub enum Answered {
    /// Help was asked for, and was printed.
    Helped,
    /// The words ask for nothing that the program does, and it was printed why.
    Usage,
    /// Memory ran out.
    Memory,
    /// Help was asked for, and could not be printed.
    Unwritten,
}

/// Prints what `clap` has to say: help that was asked for on the standard output, and anything else on the standard error.
pub(crate) fn show<R: Print + Eprint>(rt: &R, error: &Error) -> Answered
    ensures memory { (result ≡ Memory) ↔ (kind_of error.now ≡ ErrorKind.OutOfMemory) }
    ensures usage { (result ≡ Usage) ↔
        ((kind_of error.now ≢ ErrorKind.OutOfMemory) × (kind_of error.now ≢ ErrorKind.DisplayHelp) × (kind_of error.now ≢ ErrorKind.DisplayVersion)) }
{
    if error.kind() == ErrorKind::OutOfMemory {
        return Answered::Memory;
    }
    let shown = error.print(rt);
    if error.use_stderr() {
        Answered::Usage
    } else if shown.is_err() {
        Answered::Unwritten
    } else {
        Answered::Helped
    }
}
