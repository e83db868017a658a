//! The parts of a connector that lines add, read from words: a guard clause, a transfer and its target.
ghost use Rattle.std.specs.Prelude.{◌≡◌, false, drop, map, IfOk, IfErr, Ok};
ghost use Rattle.std.specs.List.{list_any};
ghost use Rattle.petri_atom.specs.Expression.{tree_of};
ghost use Rattle.plant_words.specs.LineFaults.{IsFaultOf, IsLast};
ghost use Rattle.plant_model.specs.Rules.{is_same_export};
ghost use Rattle.plant_model.specs.Wire.{transfer_of};
ghost use Rattle.connector_lines.specs.Rows.{whole_expression, has_target, target_in, transfer_in};

use petri_atom::Expression;
use plant_model::{Export, Transfer};
use plant_words::reading::{check, end, next_keyword, next_word};
use plant_words::{LineFault, Variables, Words, read_expression};
use std::alloc::Global;

/// The expression that the words are, with none left over.
pub(crate) fn read_whole<N: Variables<Export>>(
    alloc: Global,
    words: &mut Words,
    names: &N,
) -> Result<Expression<Export>, LineFault>
    ensures expression { IfOk result (λ expression. whole_expression (N.variable_named names.now) words.old ≡ Ok (tree_of expression)) }
    ensures fault { IfErr result (IsFaultOf (whole_expression (N.variable_named names.now) words.old)) }
    ensures memory { IfErr result (IsLast (whole_expression (N.variable_named names.now) words.old)) }
{
    let expression = read_expression(alloc, words, names)?;
    end(words)?;
    Ok(expression?)
}

/// Whether one of the transfers has the target.
fn has_target(transfers: &[Transfer], target: Export) -> bool
    ensures { result ≡ list_any (λ t. is_same_export t.target target) transfers.now }
{
    transfers
        .iter()
        .any(|transfer| is_same(transfer.target, target))
}

/// Whether the two are the same variable of the same leaf.
fn is_same(one: Export, other: Export) -> bool
    ensures { result ≡ is_same_export one other }
{
    (one.leaf == other.leaf) & (one.export == other.export)
}

/// The variable that the next word names, which must be no target of these transfers.
#[tactic(auto, using(crate::proofs::Targets::has_target_of))]
fn read_target<N: Variables<Export>>(
    transfers: &[Transfer],
    words: &mut Words,
    names: &N,
) -> Result<Export, LineFault>
    ensures target { result ≡ target_in (N.variable_named names.now) (map transfer_of transfers.now) words.old }
    ensures taken { words.new ≡ drop 1 words.old }
    ensures new_target { IfOk result (λ target. has_target (map transfer_of transfers.now) target ≡ false) }
{
    let word = next_word(words)?;
    let target = names.find(word).ok_or(LineFault::UnknownName)?;
    check(!has_target(transfers, target), LineFault::Twice)?;
    Ok(target)
}

/// The transfer after these that the words are, with none left over.
pub(crate) fn read_transfer<N: Variables<Export>>(
    alloc: Global,
    transfers: &[Transfer],
    words: &mut Words,
    names: &N,
) -> Result<Transfer, LineFault>
    ensures transfer { IfOk result (λ transfer. transfer_in (N.variable_named names.now) (map transfer_of transfers.now) words.old ≡ Ok (transfer_of transfer)) }
    ensures fault { IfErr result (IsFaultOf (transfer_in (N.variable_named names.now) (map transfer_of transfers.now) words.old)) }
    ensures memory { IfErr result (IsLast (transfer_in (N.variable_named names.now) (map transfer_of transfers.now) words.old)) }
    ensures new_target { IfOk result (λ transfer. has_target (map transfer_of transfers.now) transfer.target ≡ false) }
{
    let target = read_target(transfers, words, names)?;
    next_keyword(words, b":=")?;
    let value = read_whole(alloc, words, names)?;
    Ok(Transfer { target, value })
}
