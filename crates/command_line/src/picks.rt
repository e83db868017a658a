//! The picks of a run, as words of the command line.
ghost use Rattle.std.specs.Prelude.{◌≡◌, [], ◌∷◌, ◌++◌, map, Ok, Err, IfOk, IfErr, IsOkAnd};
ghost use Rattle.command_line.specs.Picks.{picks_in, IsFaultOf};

use plant_words::read_decimal;
use std::alloc::{AllocError, Global};

/// Why words are no picks.
#[derive(Clone, Copy, Debug, PartialEq, Eq)]
pub(crate) enum PickFault<'a> {
    /// The first word that is no pick.
    NoPick(&'a str),
    /// Memory ran out.
    Memory,
}

impl<'a> From<AllocError> for PickFault<'a> {
    ghost use Rattle.command_line.specs.declared.picks.PickFault.TheVariants.{Memory};

    ghost from_gives = { λ _ fault. fault ≡ Memory };

    fn from(_: AllocError) -> Self {
        PickFault::Memory
    }
}

/// The picks that the words write, or the first word that writes none: a pick is digits alone, within a `u64`. Words are
/// read on where memory is wanting, so that it hides no such word.
pub(crate) fn read_picks<'a>(alloc: Global, words: &[&'a str]) -> Result<Vec<u64>, PickFault<'a>>
    ensures picks { IfOk result (λ picks. picks_in (map (λ word. word.now) words.now) ≡ Ok picks.items) }
    ensures fault { IfErr result (IsFaultOf (map (λ word. word.now) words.now)) }
{
    let mut picks = Vec::with_capacity(alloc, words.len());
    for word in words {
        match read_decimal(word.as_bytes()) {
            Some(pick) => picks = with_pick(picks, pick),
            None => return Err(PickFault::NoPick(word)),
        }
    }
    Ok(picks?)
}

/// The picks with one more after them, where there was memory for them.
fn with_pick(picks: Result<Vec<u64>, AllocError>, pick: u64) -> Result<Vec<u64>, AllocError>
    ensures { IfOk result (λ more. IsOkAnd picks (λ before. more.items ≡ before.items ++ pick ∷ [])) }
{
    let mut picks = picks?;
    picks.push(pick)?;
    Ok(picks)
}
