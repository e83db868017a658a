//! The weights of connectors for random picks, as words of the command line.
ghost use Rattle.std.specs.Prelude.{◌≡◌, [], ◌∷◌, ◌++◌, map, Ok, Err, IfErr, IfOk, IsOkAnd, None, option_map, unwrap_or};
ghost use Rattle.command_line.specs.Said.{word_of};
ghost use Rattle.command_line.specs.Weights.{AreWeights, IsFaultOf, IsWrong, weight_in, weight_of, weights_in, weights_of};

use crate::request::{MOST_WEIGHT, WeightWords};
use crate::said::Said;
use plant_words::read_decimal;
use std::alloc::{AllocError, Global};

/// Why words give no weights.
#[derive(Clone, Copy, Debug, PartialEq, Eq)]
pub(crate) enum WeightsFault<'a> {
    /// There is a weight, the first one, and no random picks.
    NotRandom(&'a str),
    /// The first word that is no weight.
    NoWeight(&'a str),
    /// Memory ran out.
    Memory,
}

impl<'a> From<AllocError> for WeightsFault<'a> {
    ghost use Rattle.command_line.specs.declared.weights.WeightsFault.TheVariants.{Memory};

    ghost from_gives = { λ _ fault. fault ≡ Memory };

    fn from(_: AllocError) -> Self {
        WeightsFault::Memory
    }
}

/// The weights that the words give, in their order. There are some only where there are random picks.
pub(crate) fn weights_asked<'a>(
    alloc: Global,
    said: &Said<'_, 'a>,
) -> Result<Vec<WeightWords<'a>>, WeightsFault<'a>>
    ensures weights { IfOk result (λ weights. AreWeights weights.items said.now) }
    ensures wrong { IfErr result (λ fault. IsWrong fault said.now) }
{
    let words = said.weights.unwrap_or(&[]);
    if said.random.is_some() {
        return read_weights(alloc, words);
    }
    match words {
        [] => Ok(Vec::new(alloc)),
        [word, ..] => Err(WeightsFault::NotRandom(*word)),
    }
}

/// The weights that the words give, or the first word that gives none. Words are read on where memory is wanting, so that it hides no such word.
fn read_weights<'a>(
    alloc: Global,
    words: &[&'a str],
) -> Result<Vec<WeightWords<'a>>, WeightsFault<'a>>
    ensures weights { IfOk result (λ weights. weights_in (map (λ word. word.now) words.now) ≡ Ok (weights_of weights.items)) }
    ensures fault { IfErr result (IsFaultOf (map (λ word. word.now) words.now)) }
{
    let mut weights = Vec::with_capacity(alloc, words.len());
    for word in words {
        match weight_named(word) {
            Some(weight) => weights = with_weight(weights, weight),
            None => return Err(WeightsFault::NoWeight(word)),
        }
    }
    Ok(weights?)
}

/// The weights with one more after them, where there was memory for them.
fn with_weight<'a>(
    weights: Result<Vec<WeightWords<'a>>, AllocError>,
    weight: WeightWords<'a>,
) -> Result<Vec<WeightWords<'a>>, AllocError>
    ensures { IfOk result (λ more. IsOkAnd weights.entry (λ before. weights_of more.items ≡ weights_of before.items ++ weight_of weight.entry ∷ [])) }
{
    let mut weights = weights?;
    weights.push(weight)?;
    Ok(weights)
}

/// The weight that the word gives: a name, `=`, and a number of digits alone that a weight may be.
fn weight_named(word: &str) -> Option<WeightWords<'_>>
    ensures { option_map weight_of result ≡ weight_in word.now }
{
    let (name, number) = word.split_once('=')?;
    let number = read_decimal(number.as_bytes())?;
    if !name.is_empty() && number <= u64::from(MOST_WEIGHT) {
        Some(WeightWords {
            name,
            weight: number as u16,
        })
    } else {
        None
    }
}
