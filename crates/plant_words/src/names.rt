//! Words that are names.
ghost use Rattle.std.specs.Prelude.{◌≡◌};
ghost use Rattle.plant_words.specs.Names.{name_in};

use petri_atom::Name;

/// The name that a word is. `None` for a word that is no name or is reserved.
pub fn read_name(word: &[u8]) -> Option<Name>
    ensures { result ≡ name_in word.now }
{
    Name::new(word)
}
