//! Words that are numbers.
ghost use Rattle.std.specs.Prelude.{◌≡◌};
ghost use Rattle.std.specs.List.{list_all};
ghost use Rattle.plant_words.specs.Numbers.{is_digit, has_digits_alone, is_numeric, pick_in, magnitude_in, int_in, below};

use std::str;

/// How many digits a number of the plant may have.
pub const MAX_DIGITS: usize = 19;

/// The number of the plant that a word is: an optional `-`, and 1 to 19 digits. `None` for another word, and
/// where the number is outside of an `i64`.
pub fn read_int(word: &[u8]) -> Option<i64>
    ensures { result ≡ int_in word.now }
{
    match word {
        [b'-', digits @ ..] => 0i64.checked_sub_unsigned(read_magnitude(digits)?),
        digits => 0i64.checked_add_unsigned(read_magnitude(digits)?),
    }
}

/// The number that 1 to 19 digits write.
fn read_magnitude(digits: &[u8]) -> Option<u64>
    ensures { result ≡ magnitude_in digits.now }
{
    if digits.len() <= MAX_DIGITS {
        read_decimal(digits)
    } else {
        None
    }
}

/// The number that a word of digits alone writes, as a pick does. `None` for another word, and where the
/// number is past a `u64`.
pub fn read_decimal(word: &[u8]) -> Option<u64>
    ensures { result ≡ pick_in word.now }
{
    if !has_digits(word) {
        return None;
    }
    str::from_utf8(word).ok()?.parse().ok()
}

/// Whether the word is an optional `-` and digits, however many: only [`read_int`] says whether they write a number of
/// the plant.
pub fn is_numeric(word: &[u8]) -> bool
    ensures { result ≡ is_numeric word.now }
{
    match word {
        [b'-', digits @ ..] => has_digits_alone(digits),
        digits => has_digits_alone(digits),
    }
}

/// Whether the word has digits alone, and one at least.
fn has_digits_alone(word: &[u8]) -> bool
    ensures { result ≡ has_digits_alone word.now }
{
    !word.is_empty() & has_digits(word)
}

/// Whether each byte of the word is a digit.
fn has_digits(word: &[u8]) -> bool
    ensures { result ≡ list_all is_digit word.now }
{
    word.iter().all(|byte| is_digit(*byte))
}

fn is_digit(byte: u8) -> bool
    ensures { result ≡ is_digit byte }
{
    b'0' <= byte && byte <= b'9'
}
