//! How connectors are weighted, as the words of the command line say it.
ghost use Rattle.std.specs.Prelude.{◌≡◌, IfErr, IfOk, position, replicate};
ghost use Rattle.plant_model.specs.declared.limits.TheConstants.{MAX_WIRES};
ghost use Rattle.run_text.specs.Seen.{plant_of};
ghost use Rattle.run_text.specs.declared.weights.TheConstants.{USUAL_WEIGHT};
ghost use Rattle.plant_tasks.specs.Ending.{IfRead, IsSilent};
ghost use Rattle.plant_tasks.specs.Weights.{first_unnamed, is_unnamed, weights_said, with_weights};

use crate::ending::PlantEnding;
use command_line::WeightWords;
use plant_model::System;
use run_text::Weights;

/// The weights of the plant's connectors that the words ask for, if there are some. Or the place of the first of the words that names no connector.
pub(crate) fn weights_of(
    system: &System,
    words: &[WeightWords<'_>],
) -> Result<Option<Weights>, PlantEnding>
    ensures weights { IfOk result (λ weights. weights ≡ weights_said (plant_of system.now) words.now) }
    ensures read { IfRead result (λ bad. bad ≡ first_unnamed (plant_of system.now) words.now) }
    ensures silent { IfErr result IsSilent }
{
    match place_unnamed(system, words) {
        Some(place) => Err(PlantEnding::NoConnector(place)),
        None => Ok(weights_said(system, words)),
    }
}

/// The place of the first of the words that names no connector.
fn place_unnamed(system: &System, words: &[WeightWords<'_>]) -> Option<usize>
    ensures { result ≡ position (is_unnamed (plant_of system.now)) words.now }
{
    words.iter().position(|one| system.connector_named(one.name.as_bytes()).is_none())
}

/// The weights that the words ask for, if there are some.
fn weights_said(system: &System, words: &[WeightWords<'_>]) -> Option<Weights>
    ensures { result ≡ weights_said (plant_of system.now) words.now }
{
    match words {
        [] => None,
        [_, ..] => Some(weights_set(system, words)),
    }
}

/// The usual weights with those of the words: the last that names a connector counts.
fn weights_set(system: &System, words: &[WeightWords<'_>]) -> Weights
    ensures { result ≡ with_weights (plant_of system.now) (replicate MAX_WIRES USUAL_WEIGHT) words.now }
{
    let mut weights = Weights::usual();
    for one in words {
        if let Some(connector) = system.connector_named(one.name.as_bytes()) {
            weights.set(connector, one.weight);
        }
    }
    weights
}
