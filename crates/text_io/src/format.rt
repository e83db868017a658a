//! The formats in which a run is printed.

/// A format in which a run is printed.
///
/// Names in plants are letters, digits and `_` alone, so that no format has quotes or escapes inside of a name.
#[derive(Clone, Copy, Debug, PartialEq, Eq)]
pub enum Format {
    /// The fixed lines, for a reader: `2 send A.t/0 B.u/0`, and `state A [s] n=4`.
    Lines,
    /// Rows of five columns with commas between them, for a spreadsheet; the first row names the columns.
    Csv,
    /// A JSON object on each line, for a script.
    Jsonl,
}
