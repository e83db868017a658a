//! Tables, each row with the word that it is found by. Contracts and code read the same rows.
ghost use Rattle.std.specs.Prelude.{◌≡◌};
ghost use Rattle.shown_fault.specs.Table.{has_part, row_of, rows_of, text_of, text_of_part, texts_of};

/// What the first row with the word holds.
pub(crate) fn row_of<T: Copy>(rows: &[(&str, T)], word: &[u8]) -> Option<T>
    ensures { result ≡ row_of (rows_of rows.now) word.now }
{
    for (key, value) in rows {
        if key.as_bytes() == word {
            return Some(*value);
        }
    }
    None
}

/// The text of the first row with the word; empty if none has it.
pub(crate) fn text_of(rows: &[(&str, &'static str)], word: &[u8]) -> &'static str
    ensures { result.now ≡ text_of (texts_of rows.now) word.now }
{
    for (key, text) in rows {
        if key.as_bytes() == word {
            return text;
        }
    }
    ""
}

/// The text of the first row whose key stands in the word; empty if none does.
pub(crate) fn text_of_part(rows: &[(&str, &'static str)], word: &[u8]) -> &'static str
    ensures { result.now ≡ text_of_part (texts_of rows.now) word.now }
{
    for (key, text) in rows {
        if has_part(word, key.as_bytes()) {
            return text;
        }
    }
    ""
}

/// Whether the part stands in the word.
pub(crate) fn has_part(word: &[u8], part: &[u8]) -> bool
    ensures { result ≡ has_part word.now part.now }
{
    let mut rest = word;
    while let Some((_, after)) = rest.split_first() {
        if rest.starts_with(part) {
            return true;
        }
        rest = after;
    }
    false
}
