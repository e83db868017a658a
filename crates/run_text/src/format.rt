//! What in a run differs by its format alone.
ghost use Rattle.std.specs.Prelude.{◌≡◌};
ghost use Rattle.run_text.specs.Format.{head_text, stuck_text};
ghost use Rattle.run_text.specs.Word.{between_text, equals_text};

use text_io::Format;

/// What stands before the run.
pub(crate) fn head_text(format: Format) -> &'static [u8]
    ensures { result.now ≡ head_text format }
{
    match format {
        Format::Csv => b"kind,number,name,parts,values\n",
        Format::Lines | Format::Jsonl => b"",
    }
}

/// The line that says that nothing is fired any more, with its end; and whether it is by the weights of a random pick.
pub fn stuck_text(format: Format, by_weights: bool) -> &'static [u8]
    ensures { result.now ≡ stuck_text format by_weights }
{
    match (format, by_weights) {
        (Format::Lines, false) => b"stuck\n",
        (Format::Lines, true) => b"stuck by weights\n",
        (Format::Csv, false) => b"stuck,,,,\n",
        (Format::Csv, true) => b"stuck,,weights,,\n",
        (Format::Jsonl, false) => b"{\"kind\":\"stuck\"}\n",
        (Format::Jsonl, true) => b"{\"kind\":\"stuck\",\"by\":\"weights\"}\n",
    }
}

/// What stands between two places, and between two values.
pub(crate) fn between_text(format: Format) -> &'static [u8]
    ensures { result.now ≡ between_text format }
{
    match format {
        Format::Lines | Format::Csv => b" ",
        Format::Jsonl => b",",
    }
}

/// What stands between the name of a variable and its value.
pub(crate) fn equals_text(format: Format) -> &'static [u8]
    ensures { result.now ≡ equals_text format }
{
    match format {
        Format::Lines | Format::Csv => b"=",
        Format::Jsonl => b":",
    }
}
