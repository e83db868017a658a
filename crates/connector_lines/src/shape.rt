//! The faults of a tree, as its tokens are read one by one.
ghost use Rattle.std.specs.Prelude.{◌≡◌, ◌<◌, ◌≤◌, ℕ, [], ◌∷◌, ◌++◌, ◌==◌, ◌||◌, nat_le, length, List, Some, true, false};
ghost use Rattle.std.specs.List.{list_any};
ghost use Rattle.connector_tree.specs.Faults.{has_repeat};
ghost use Rattle.connector_tree.specs.declared.token.Token.{Token};
ghost use Rattle.connector_tree.specs.Tokens.{level_after};
ghost use Rattle.connector_tree.specs.TokenFaults.{is_open, is_close, fault_in};
ghost use Rattle.connector_lines.specs.Judging.{fault_after, is_too_wide_after};

use arrayvec::ArrayVec;
use connector_tree::{MAX_DEPTH, MAX_LEAVES, Token, TreeFault};

/// What the first tokens of a tree say of its faults. It takes no memory, however many there are.
#[derive(Drop)]
pub(crate) struct Shape {
    /// The atoms of the ports so far, as many as a tree may have.
    atoms: ArrayVec<u16, MAX_LEAVES>,
    /// There were more ports than that.
    is_too_wide: bool,
    /// A token stood deeper than a tree may have levels.
    is_too_deep: bool,
    /// A bracket ended directly after its begin.
    has_empty_bracket: bool,
    /// The last token began a bracket.
    is_behind_open: bool,
}

impl Shape {
    /// The shape before all tokens.
    pub(crate) fn new() -> Self
        ensures { (token : Token) (tokens : List Token) → fault_after result 0 (token ∷ tokens) ≡ fault_in (token ∷ tokens) }
    {
        Shape {
            atoms: ArrayVec::new(),
            is_too_wide: false,
            is_too_deep: false,
            has_empty_bracket: false,
            is_behind_open: false,
        }
    }

    /// Takes the next token, before which so many brackets are open.
    pub(crate) fn add(&mut self, token: Token, level: usize)
        ensures { (next : ℕ) → level_after token level ≡ Some next → (tokens : List Token) → fault_after self.old level (token ∷ tokens) ≡ fault_after self.new next tokens }
    {
        self.is_too_deep |= level >= MAX_DEPTH;
        self.has_empty_bracket |= self.is_behind_open & is_close(&token);
        self.is_behind_open = is_open(&token);
        if let Token::Leaf { port, .. } = token {
            self.add_atom(port.atom);
        }
    }

    /// Takes the atom of a port.
    fn add_atom(&mut self, atom: u16)
        ensures wide { (more : List ℕ) → is_too_wide_after self.old (atom ∷ more) ≡ is_too_wide_after self.new more }
        ensures atoms { (more : List ℕ) → is_too_wide_after self.new more ≡ false → self.old.atoms.items ++ atom ∷ more ≡ self.new.atoms.items ++ more }
        ensures rest { self.new ≡ record self.old { atoms = self.new.atoms; is_too_wide = self.new.is_too_wide } }
    {
        if self.atoms.try_push(atom).is_err() {
            self.is_too_wide = true;
        }
    }

    /// The first fault of the tree, in the order of their numbers, if no token is left; never `Memory`.
    pub(crate) fn fault(&self) -> Option<TreeFault>
        ensures { result ≡ fault_after self.now 0 [] }
    {
        let atoms = self.atoms.as_slice();
        if self.is_too_wide {
            Some(TreeFault::TooManyLeaves)
        } else if self.is_too_deep {
            Some(TreeFault::TooDeep)
        } else if has_repeat(atoms) {
            Some(TreeFault::SameAtom)
        } else if self.has_empty_bracket {
            Some(TreeFault::Empty)
        } else {
            None
        }
    }
}

fn is_open(token: &Token) -> bool
    ensures { result ≡ is_open token.now }
{
    matches!(token, Token::Open)
}

fn is_close(token: &Token) -> bool
    ensures { result ≡ is_close token.now }
{
    matches!(token, Token::Close { .. })
}

/// Whether one of the atoms stands twice. This goes over the atoms after each one, of which there are few.
fn has_repeat(atoms: &[u16]) -> bool
    ensures { result ≡ has_repeat atoms.now }
{
    for (i, atom) in atoms.iter().enumerate() {
        if is_among(*atom, &atoms[i + 1..]) {
            return true;
        }
    }
    false
}

fn is_among(atom: u16, atoms: &[u16]) -> bool
    ensures { result ≡ list_any (λ other. atom == other) atoms.now }
{
    atoms.iter().any(|other| atom == *other)
}
