//! A line, cut before and behind its first word.
ghost use Rattle.std.specs.Prelude.{◌≡◌, ◌≤◌, length};
ghost use Rattle.restated_text.specs.Cuts.{behind_name, behind_word, blanks_before, from_word, up_to_name, word_at};

use plant_words::{blanks_len, word_len};

/// The blanks before the first word.
pub(crate) fn blanks_before(line: &[u8]) -> &[u8]
    ensures { result.now ≡ blanks_before line.now }
{
    line.split_at(blanks_len(line)).0
}

/// The line from its first word on.
pub(crate) fn from_word(line: &[u8]) -> &[u8]
    ensures value { result.now ≡ from_word line.now }
    ensures within { length result.now ≤ length line.now }
{
    line.split_at(blanks_len(line)).1
}

/// The first word; empty if there is none.
pub(crate) fn word_at(line: &[u8]) -> &[u8]
    ensures { result.now ≡ word_at line.now }
{
    let line = from_word(line);
    line.split_at(word_len(line)).0
}

/// What stands behind the first word.
pub(crate) fn behind_word(line: &[u8]) -> &[u8]
    ensures value { result.now ≡ behind_word line.now }
    ensures within { length result.now ≤ length line.now }
{
    let line = from_word(line);
    line.split_at(word_len(line)).1
}

/// What stands behind the second word.
pub(crate) fn behind_name(line: &[u8]) -> &[u8]
    ensures value { result.now ≡ behind_name line.now }
    ensures within { length result.now ≤ length line.now }
{
    behind_word(behind_word(line))
}

/// The line up to the end of its second word.
pub(crate) fn up_to_name(line: &[u8]) -> &[u8]
    ensures { result.now ≡ up_to_name line.now }
{
    line.split_at(line.len() - behind_name(line).len()).0
}
