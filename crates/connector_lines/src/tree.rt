//! Reading the tree of a connector from the words of a line.
ghost use Rattle.std.specs.Prelude.{◌≡◌, ◌≢◌, ◌<◌, ◌≤◌, length, [], ◌∷◌, ◌++◌, IfOk, IfErr, OnOk, IsOk, IsOkAnd, None, Ok, Err};
ghost use Rattle.connector_tree.specs.Tree.{tree_of};
ghost use Rattle.connector_tree.specs.Faults.{fault_of};
ghost use Rattle.connector_tree.specs.Tokens.{tokens_of};
ghost use Rattle.connector_lines.specs.Trees.{tree_in, AreRead};

use crate::shape::Shape;
use crate::token::{Ports, level_after, read_word};
use crate::tree_words_fault::TreeWordsFault;
use connector_tree::{Connector, Token, connector_of};
use plant_words::Words;
use std::alloc::{AllocError, Global};

/// The tree that the words are, all of them; or the first fault from the left, and if no word has one the first
/// fault of the tree. Want of memory is answered only if there is no such fault. Of a fault it is not said which words
/// stay.
pub fn read_tree<N: Ports>(
    alloc: Global,
    words: &mut Words<'_>,
    names: &N,
) -> Result<Connector, TreeWordsFault>
    ensures tree { IfOk result
        (λ connector. tree_in (N.port_named names.now) words.old ≡ Ok (tokens_of (tree_of connector))) }
    ensures fault { IfErr result
        (λ fault. ¬ (fault ≡ TreeWordsFault.Memory) → tree_in (N.port_named names.now) words.old ≡ Err fault) }
    ensures memory { IfErr result
        (λ fault. fault ≡ TreeWordsFault.Memory → IsOk (tree_in (N.port_named names.now) words.old)) }
    ensures sound { IfOk result (λ connector. fault_of (tree_of connector) ≡ None) }
    ensures taken { OnOk result (words.new ≡ []) }
{
    if words.peek().is_none() {
        return Err(TreeWordsFault::Shape);
    }
    let tokens = read_tokens(alloc, words, names)?;
    Ok(connector_of(alloc, &tokens?)?)
}

/// What each word says, as far as there is memory for it; or the first fault from the left, and if no word has one the
/// first fault of the tree. If memory is wanting the words are read on all the same, so that their fault is found.
fn read_tokens<N: Ports>(
    alloc: Global,
    words: &mut Words<'_>,
    names: &N,
) -> Result<Result<Vec<Token>, AllocError>, TreeWordsFault>
    requires some { words.old ≢ [] }
    requires count { length words.old ≤ usize.MAX }
    ensures tokens { IfOk result (AreRead (N.port_named names.now) words.old) }
    ensures fault { IfErr result (λ fault. tree_in (N.port_named names.now) words.old ≡ Err fault) }
    ensures taken { OnOk result (words.new ≡ []) }
{
    let mut tokens = Ok(Vec::new(alloc));
    let mut shape = Shape::new();
    let mut level = 0;
    while let Some(word) = words.next_word() {
        let token = read_word(word, names)?;
        let next = level_after(token, level).ok_or(TreeWordsFault::Shape)?;
        shape.add(token, level);
        tokens = with_token(tokens, token);
        level = next;
    }
    if level > 0 {
        return Err(TreeWordsFault::Shape);
    }
    match shape.fault() {
        Some(fault) => Err(TreeWordsFault::Tree(fault)),
        None => Ok(tokens),
    }
}

/// The tokens with one more after them, if there was memory for them.
fn with_token(
    tokens: Result<Vec<Token>, AllocError>,
    token: Token,
) -> Result<Vec<Token>, AllocError>
    ensures { IfOk result (λ more. IsOkAnd tokens (λ before. more.items ≡ before.items ++ token ∷ [])) }
{
    let mut tokens = tokens?;
    tokens.push(token)?;
    Ok(tokens)
}
