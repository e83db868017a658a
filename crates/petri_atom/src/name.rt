//! Names of atoms, places, variables, ports and connectors.
ghost use Rattle.std.specs.Prelude.{◌≡◌, IfSome, is_some, IsTrue, ◌↔◌};
ghost use Rattle.petri_atom.specs.Name.{is_letter, is_letter_or_digit, is_reserved, begins_with_letter, has_word_bytes, is_word, is_name, is_same_text};

use std::marker::Model;

/// How many bytes a name may have.
pub const MAX_NAME: usize = 32;

/// A name: a letter, and then letters, digits or `_`, of 1 to 32 bytes and no reserved word of the plant text
/// (`from to when do init at min max`). In a contract it is the list of its bytes.
#[derive(Drop)]
pub struct Name {
    bytes: [u8; MAX_NAME],
    len: u8,
}

impl Model for Name {
    ghost use Rattle.std.specs.Prelude.{List, ℕ, ◌≤◌, take, IsTrue};
    ghost use Rattle.petri_atom.specs.Name.{is_name};
    ghost use Rattle.petri_atom.specs.declared.name.TheConstants.{MAX_NAME};

    ghost Value = { List ℕ };

    ghost view = { λ n. take n.len n.bytes };

    ghost invariant = { λ n. (n.len ≤ MAX_NAME) × IsTrue (is_name (take n.len n.bytes)) };
}

impl Name {
    /// The name with these bytes, or `None` if they are no name.
    pub fn new(text: &[u8]) -> Option<Self>
        ensures valid { is_some result ≡ is_name text.now }
        ensures value { IfSome result (λ name. name ≡ text.now) }
    {
        if !is_name(text) {
            return None;
        }
        let mut bytes = [0; MAX_NAME];
        bytes[..text.len()].copy_from_slice(text);
        Some(Name {
            bytes,
            len: text.len() as u8,
        })
    }

    /// The bytes of the name.
    pub fn as_bytes(&self) -> &[u8]
        ensures { result.now ≡ self.now }
    {
        &self.bytes[..usize::from(self.len)]
    }

    /// A second name with the same bytes.
    pub fn copy(&self) -> Self
        ensures { result ≡ self.now }
    {
        Name {
            bytes: self.bytes,
            len: self.len,
        }
    }

    /// Whether the two names have the same bytes.
    pub fn same(&self, other: &Name) -> bool
        ensures same { IsTrue result ↔ (self.now ≡ other.now) }
        ensures test { result ≡ is_same_text self.now other.now }
    {
        self.as_bytes() == other.as_bytes()
    }
}

/// Whether the byte is an ASCII letter.
fn is_letter(byte: u8) -> bool
    ensures { result ≡ is_letter byte }
{
    (65 <= byte && byte <= 90) || (97 <= byte && byte <= 122)
}

/// Whether the byte may stand in a name after its first.
fn is_letter_or_digit(byte: u8) -> bool
    ensures { result ≡ is_letter_or_digit byte }
{
    is_letter(byte) || (48 <= byte && byte <= 57) || byte == 95
}

/// Whether the text is a reserved word of the plant text.
pub fn is_reserved(text: &[u8]) -> bool
    ensures { result ≡ is_reserved text.now }
{
    text == b"from".as_slice()
        || text == b"to".as_slice()
        || text == b"when".as_slice()
        || text == b"do".as_slice()
        || text == b"init".as_slice()
        || text == b"at".as_slice()
        || text == b"min".as_slice()
        || text == b"max".as_slice()
}

/// Whether the first byte of the text is an ASCII letter.
fn begins_with_letter(text: &[u8]) -> bool
    ensures { result ≡ begins_with_letter text.now }
{
    match text.first() {
        Some(first) => is_letter(*first),
        None => false,
    }
}

/// Whether each byte of the text is a letter, a digit or `_`.
fn has_word_bytes(text: &[u8]) -> bool
    ensures { result ≡ has_word_bytes text.now }
{
    text.iter().all(|byte| is_letter_or_digit(*byte))
}

/// Whether the text begins with a letter, and has letters, digits and `_` alone.
fn is_word(text: &[u8]) -> bool
    ensures { result ≡ is_word text.now }
{
    begins_with_letter(text) && has_word_bytes(text)
}

/// Whether the text is a name.
pub fn is_name(text: &[u8]) -> bool
    ensures { result ≡ is_name text.now }
{
    text.len() <= MAX_NAME && is_word(text) && !is_reserved(text)
}
