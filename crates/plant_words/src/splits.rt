//! Words of several parts.
ghost use Rattle.std.specs.Prelude.{◌≡◌, ◌≤◌, ◌==◌, length};
ghost use Rattle.std.specs.List.{position_or_len};
ghost use Rattle.std.specs.Option.{option_map};
ghost use Rattle.plant_words.specs.Words.{is_filled};
ghost use Rattle.plant_words.specs.Splits.{sides_in, export_parts, named_mask_in, port_parts, is_quoted, without_quote};
ghost use Rattle.plant_words.specs.Lent.{sides_of, port_parts_of};

/// A port of a connector's tree, as `ATOM.PORT` or `ATOM.PORT'` writes it.
#[derive(Clone, Copy, Debug, PartialEq, Eq, Drop)]
pub struct PortWord<'a> {
    /// What stands before the dot, which may be no name.
    pub atom: &'a [u8],
    /// What stands between the dot and the quote, which may be no name.
    pub port: &'a [u8],
    /// Whether a quote stands at the end.
    pub quoted: bool,
}

/// The parts of `ATOM.PORT` or `ATOM.PORT'`. `None` where the word hasn't exactly one dot, or a part is empty.
pub fn split_port(word: &[u8]) -> Option<PortWord<'_>>
    ensures { option_map port_parts_of result ≡ port_parts word.now }
{
    let (atom, port) = sides(b'.', without_quote(word))?;
    Some(PortWord {
        atom,
        port,
        quoted: is_quoted(word),
    })
}

/// The parts of `ATOM.NAME`. `None` where the word hasn't exactly one dot, or a part is empty.
pub fn split_export(word: &[u8]) -> Option<(&[u8], &[u8])>
    ensures { option_map sides_of result ≡ export_parts word.now }
{
    sides(b'.', word)
}

/// The parts of `NAME:MASK`. `None` where the word hasn't exactly one colon, or a part is empty.
pub fn split_mask(word: &[u8]) -> Option<(&[u8], &[u8])>
    ensures { option_map sides_of result ≡ named_mask_in word.now }
{
    sides(b':', word)
}

/// What stands on both sides of a byte that the word has once.
fn sides(byte: u8, word: &[u8]) -> Option<(&[u8], &[u8])>
    ensures { option_map sides_of result ≡ sides_in byte word.now }
{
    let (left, behind) = word.split_at(len_before(byte, word));
    let (_, right) = behind.split_first()?;
    let is_only = len_before(byte, right) == right.len();
    if is_only & is_filled(left) & is_filled(right) {
        Some((left, right))
    } else {
        None
    }
}

/// How many bytes of the word stand before the first such byte.
fn len_before(byte: u8, word: &[u8]) -> usize
    ensures value { result ≡ position_or_len (λ b. b == byte) word.now }
    ensures within { result ≤ length word.now }
{
    word.iter().take_while(|b| **b != byte).count()
}

fn is_filled(part: &[u8]) -> bool
    ensures { result ≡ is_filled part.now }
{
    !part.is_empty()
}

fn is_quoted(word: &[u8]) -> bool
    ensures { result ≡ is_quoted word.now }
{
    word.last() == Some(&b'\'')
}

fn without_quote(word: &[u8]) -> &[u8]
    ensures { result.now ≡ without_quote word.now }
{
    match word {
        [front @ .., b'\''] => front,
        _ => word,
    }
}
