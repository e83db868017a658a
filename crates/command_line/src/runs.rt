//! How a run is printed, as words of the command line.
ghost use Rattle.std.specs.Prelude.{◌≡◌};
ghost use Rattle.command_line.specs.Runs.{format_in, shape_in};

use crate::request::Shape;
use text_io::Format;

/// What is printed of a run, as the word for its format and the option `--states` say: a dump of waves has all states in any case.
pub(crate) fn shape_named(word: &str, states: bool) -> Shape
    ensures { result ≡ shape_in word.now states }
{
    if word.as_bytes() == b"vcd".as_slice() {
        Shape::Waves
    } else if states {
        Shape::States(format_named(word))
    } else {
        Shape::Steps(format_named(word))
    }
}

/// The format that the word names; the fixed lines where it names none.
fn format_named(word: &str) -> Format
    ensures { result ≡ format_in word.now }
{
    let word = word.as_bytes();
    if word == b"csv".as_slice() {
        Format::Csv
    } else if word == b"jsonl".as_slice() {
        Format::Jsonl
    } else {
        Format::Lines
    }
}
