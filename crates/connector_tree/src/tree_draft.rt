//! A connector made from its tokens.
ghost use Rattle.std.specs.Prelude.{◌≡◌, true, IfOk, None};
ghost use Rattle.connector_tree.specs.Tree.{tree_of};
ghost use Rattle.connector_tree.specs.Tokens.{is_balanced, tokens_of};
ghost use Rattle.connector_tree.specs.TokenFaults.{fault_in};

use crate::token::Token;
use crate::tree::{Child, Connector, Node, Port};
use std::alloc::{AllocError, Global};
use std::mem;

/// The connector with these tokens. The brackets that are open stand in a vector, so no call nests here. But if a
/// connector is walked or dropped calls nest as deep as its brackets: so none is made of a tree with a fault.
pub fn connector_of(alloc: Global, tokens: &[Token]) -> Result<Connector, AllocError>
    requires balanced { is_balanced 0 tokens.now ≡ true }
    requires judged { fault_in tokens.now ≡ None }
    ensures { IfOk result (λ connector. tokens_of (tree_of connector) ≡ tokens.now) }
{
    let mut draft = Draft::new(alloc);
    for token in tokens {
        draft.add(alloc, *token)?;
    }
    Ok(draft.finish())
}

/// A connector of which the first tokens are made.
#[derive(Drop)]
struct Draft {
    /// The children so far of the root and of each open bracket but the innermost one.
    outer: Vec<Vec<Child>>,
    /// The children so far of the innermost open bracket, or of the root if no bracket is open.
    children: Vec<Child>,
}

impl Draft {
    ghost use Rattle.std.specs.Prelude.{◌+◌, ◌<◌, [], ◌∷◌, ◌++◌, OnOk, Some, IsSome};
    ghost use Rattle.connector_tree.specs.declared.token.Token.TheVariants.{Leaf, Open, Close};
    ghost use Rattle.connector_tree.specs.Tokens.{level_after};
    ghost use Rattle.connector_tree.specs.TreeDrafts.{tokens_made, level_of};

    fn new(alloc: Global) -> Draft
        ensures tokens { tokens_made result ≡ [] }
        ensures level { level_of result ≡ 0 }
    {
        Draft {
            outer: Vec::new(alloc),
            children: Vec::new(alloc),
        }
    }

    /// Makes the next token.
    fn add(&mut self, alloc: Global, token: Token) -> Result<(), AllocError>
        requires { IsSome (level_after token (level_of self.old)) }
        ensures tokens { OnOk result (tokens_made self.new ≡ tokens_made self.old ++ token ∷ []) }
        ensures level { OnOk result (level_after token (level_of self.old) ≡ Some (level_of self.new)) }
    {
        match token {
            Token::Leaf { port, trigger } => self.add_leaf(port, trigger),
            Token::Open => self.begin_bracket(alloc),
            Token::Close { trigger } => self.end_bracket(trigger),
        }
    }

    fn add_leaf(&mut self, port: Port, trigger: bool) -> Result<(), AllocError>
        ensures tokens { OnOk result (tokens_made self.new ≡ tokens_made self.old ++ Leaf port trigger ∷ []) }
        ensures level { level_of self.new ≡ level_of self.old }
    {
        let leaf = Child {
            trigger,
            node: Node::Leaf {
                atom: port.atom,
                port: port.port,
            },
        };
        self.children.push(leaf)?;
        Ok(())
    }

    fn begin_bracket(&mut self, alloc: Global) -> Result<(), AllocError>
        ensures tokens { OnOk result (tokens_made self.new ≡ tokens_made self.old ++ Open ∷ []) }
        ensures level { OnOk result (level_of self.new ≡ level_of self.old + 1) }
    {
        let around = mem::replace(&mut self.children, Vec::new(alloc));
        self.outer.push(around)?;
        Ok(())
    }

    fn end_bracket(&mut self, trigger: bool) -> Result<(), AllocError>
        requires { 0 < level_of self.old }
        ensures tokens { OnOk result (tokens_made self.new ≡ tokens_made self.old ++ Close trigger ∷ []) }
        ensures level { OnOk result (level_of self.new + 1 ≡ level_of self.old) }
    {
        let around = self.outer.pop().unwrap();
        let inner = mem::replace(&mut self.children, around);
        let bracket = Child {
            trigger,
            node: Node::Fusion(inner),
        };
        self.children.push(bracket)?;
        Ok(())
    }

    fn finish(self) -> Connector
        requires { level_of self ≡ 0 }
        ensures { tokens_of (tree_of result) ≡ tokens_made self }
    {
        Connector {
            root: self.children,
        }
    }
}
