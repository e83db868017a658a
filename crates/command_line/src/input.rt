//! The standard input, as a path of the command line.
ghost use Rattle.std.specs.Prelude.{◌≡◌};
ghost use Rattle.command_line.specs.Inputs.{are_one_input, is_standard_input};

/// The path that stands for the standard input.
pub(crate) const STANDARD_INPUT: &str = "-";

/// Whether the path stands for the standard input.
pub fn is_standard_input(path: &str) -> bool
    ensures { result ≡ is_standard_input path.now }
{
    path.as_bytes() == b"-".as_slice()
}

/// Whether both paths stand for the standard input, which can be read only once.
pub(crate) fn are_one_input(one: &str, other: &str) -> bool
    ensures { result ≡ are_one_input one.now other.now }
{
    is_standard_input(one) && is_standard_input(other)
}
