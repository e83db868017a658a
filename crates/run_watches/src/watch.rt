//! One thing that a run is watched for.
ghost use Rattle.std.specs.Prelude.{◌≡◌, ◌≢◌, [], Ok, Err, IfOk, IfErr, MatchResult};
ghost use Rattle.petri_atom.specs.Expression.{is_true, tree_of, value_of};
ghost use Rattle.plant_model.specs.System.{plant_of};
ghost use Rattle.step_core.specs.Running.{plant_in, states_in};
ghost use Rattle.run_watches.specs.Operands.{operand_value};
ghost use Rattle.run_watches.specs.Watches.{holds_in, watch_in, watch_of};
ghost use Rattle.run_watches.specs.declared.fault.WatchFault.TheVariants.{Memory, MoreWords};

use crate::fault::WatchFault;
use crate::joining::joined;
use crate::naming::PlantOperands;
use crate::operand::{Operand, StateValues};
use petri_atom::Expression;
use plant_model::{PlantState, System};
use plant_words::reading::skip_word;
use plant_words::{Words, read_expression};
use std::alloc::Global;
use step_core::Stepper;

/// One thing that a run is watched for.
#[derive(Drop)]
pub enum Watch {
    /// There is no choice.
    Stuck,
    /// The expression has another value than 0.
    Holds(Expression<Operand>),
}

impl Watch {
    /// Whether it holds in the present state.
    pub(crate) fn holds(&self, run: &Stepper<'_>) -> bool
        ensures { result ≡ holds_in (plant_in run.now) (states_in run.now) (watch_of self.now) }
    {
        match self {
            Watch::Stuck => run.count() == 0,
            Watch::Holds(expression) => is_true(expression, run.states()),
        }
    }
}

/// Whether the expression has another value than 0 in these states.
fn is_true(expression: &Expression<Operand>, states: &PlantState) -> bool
    ensures { result ≡ is_true (value_of (operand_value states.now) (tree_of expression.now)) }
{
    expression.value(&StateValues { states }) != 0
}

/// The watch that the words of a text are: `stuck` alone, or an expression as in a guard. It may name `ATOM.VAR` of any atom of the plant, and has
/// `at ATOM PLACE` as one more operand.
#[tactic(auto, using(crate::proofs::Ended::left_over))]
pub fn read_watch(alloc: Global, system: &System, text: &[u8]) -> Result<Watch, WatchFault>
    ensures watch { IfOk result (λ watch. watch_in (plant_of system.now) text.now ≡ Ok (watch_of watch)) }
    ensures fault { IfErr result (λ fault. fault ≢ Memory → watch_in (plant_of system.now) text.now ≡ Err fault) }
{
    let joined = joined(alloc, text)?;
    let mut words = Words::new(&joined);
    if skip_word(&mut words, b"stuck") {
        end(&mut words)?;
        return Ok(Watch::Stuck);
    }
    let expression = read_expression(alloc, &mut words, &PlantOperands { system })?;
    end(&mut words)?;
    Ok(Watch::Holds(expression?))
}

/// No word is left.
fn end(words: &mut Words<'_>) -> Result<(), WatchFault>
    ensures { MatchResult result (λ _. words.old ≡ []) (λ fault. (fault ≡ MoreWords) × (words.old ≢ [])) }
{
    match words.next_word() {
        Some(_) => Err(WatchFault::MoreWords),
        None => Ok(()),
    }
}
