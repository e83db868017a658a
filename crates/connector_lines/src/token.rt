//! What one word of a tree says.
ghost use Rattle.std.specs.Prelude.{◌≡◌, ◌<◌};
ghost use Rattle.connector_tree.specs.Tokens.{level_after};
ghost use Rattle.connector_lines.specs.Tokens.{bracket_in, token_in};

use crate::tree_words_fault::TreeWordsFault;
use connector_tree::{Port, Token};
use plant_words::{is_legal, split_port};

/// Which ports a tree may name.
pub trait Ports {
    ghost use Rattle.std.specs.Prelude.{ℕ, List, Option};
    ghost use Rattle.connector_tree.specs.declared.tree.Port.{Port};

    ghost port_named: { Self → List ℕ → List ℕ → Option Port };

    /// The port of an atom, by both names, or `None` if there is no such atom, or it has no such port.
    fn find_port(&self, atom: &[u8], port: &[u8]) -> Option<Port>
        ensures { result ≡ port_named self.now atom.now port.now };
}

/// What the word says, where a tree may stand.
pub(crate) fn read_word<N: Ports>(word: &[u8], names: &N) -> Result<Token, TreeWordsFault>
    ensures { result ≡ token_in (N.port_named names.now) word.now }
{
    if !is_legal(word) {
        return Err(TreeWordsFault::NotAscii);
    }
    if let Some(bracket) = bracket(word) {
        return Ok(bracket);
    }
    let parts = match split_port(word) {
        Some(parts) => parts,
        None => return Err(TreeWordsFault::Shape),
    };
    match names.find_port(parts.atom, parts.port) {
        Some(port) => Ok(Token::Leaf {
            port,
            trigger: parts.quoted,
        }),
        None => Err(TreeWordsFault::UnknownName),
    }
}

/// The end of a bracket that the word is.
fn bracket(word: &[u8]) -> Option<Token>
    ensures { result ≡ bracket_in word.now }
{
    match word {
        b"[" => Some(Token::Open),
        b"]" => Some(Token::Close { trigger: false }),
        b"]'" => Some(Token::Close { trigger: true }),
        _ => None,
    }
}

/// How many brackets are open after the token, where so many are open before it. `None` where it closes one and none
/// is open.
pub(crate) fn level_after(token: Token, level: usize) -> Option<usize>
    requires { level < usize.MAX }
    ensures { result ≡ level_after token level }
{
    match token {
        Token::Leaf { .. } => Some(level),
        Token::Open => Some(level + 1),
        Token::Close { .. } => level.checked_sub(1),
    }
}
