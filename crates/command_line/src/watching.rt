//! What a run is watched for, as words of the command line.
ghost use Rattle.std.specs.Prelude.{◌≡◌, ◌≤◌, IfOk, OnOk, length, map, nat_lt};
ghost use Rattle.std.specs.List.{prefix_len};
ghost use Rattle.command_line.specs.Watching.{added, all_added, among, watches_in, words_at};

use crate::request::{WatchKind, WatchWords};
use crate::said::Said;
use std::alloc::{AllocError, Global};

/// Words that a run is watched for, and where among all words they stand.
#[derive(Clone, Copy)]
pub(crate) struct PlacedWords<'a> {
    pub(crate) at: usize,
    pub(crate) words: WatchWords<'a>,
}

/// What the words watch a run for, in their order.
pub(crate) fn watches_asked<'a>(
    alloc: Global,
    said: &Said<'_, 'a>,
) -> Result<Vec<WatchWords<'a>>, AllocError>
    ensures { IfOk result (λ watches. watches.items ≡ watches_in said.now) }
{
    let mut placed = Vec::new(alloc);
    add_option(WatchKind::Never, said.never, said.never_at, &mut placed)?;
    add_option(WatchKind::Until, said.until, said.until_at, &mut placed)?;
    words_of(alloc, &placed)
}

/// Adds the words of an option, if it is there.
fn add_option<'a>(
    kind: WatchKind,
    words: Option<&[&'a str]>,
    places: Option<&[usize]>,
    placed: &mut Vec<PlacedWords<'a>>,
) -> Result<(), AllocError>
    ensures { OnOk result (placed.new.items ≡ all_added (among kind words.entry places.entry) placed.old.items) }
{
    match (words, places) {
        (Some(words), Some(places)) => add_all(kind, words, places, placed),
        _ => Ok(()),
    }
}

/// Adds words, each with its place, behind those that stand before it.
fn add_all<'a>(
    kind: WatchKind,
    words: &[&'a str],
    places: &[usize],
    placed: &mut Vec<PlacedWords<'a>>,
) -> Result<(), AllocError>
    ensures { OnOk result (placed.new.items ≡ all_added (words_at kind words.now places.now) placed.old.items) }
{
    match words {
        [] => Ok(()),
        [text, texts @ ..] => match places {
            [] => Ok(()),
            [at, rest @ ..] => {
                let words = WatchWords { kind, text: *text };
                add_one(PlacedWords { at: *at, words }, placed)?;
                add_all(kind, texts, rest, placed)
            }
        },
    }
}

/// Adds words behind those that stand before them.
fn add_one<'a>(one: PlacedWords<'a>, placed: &mut Vec<PlacedWords<'a>>) -> Result<(), AllocError>
    ensures { OnOk result (placed.new.items ≡ added one.entry placed.old.items) }
{
    placed.insert(place_behind(one.at, placed), one)?;
    Ok(())
}

/// How many of these stand before the place, up to the first that does not.
fn place_behind(at: usize, placed: &[PlacedWords<'_>]) -> usize
    ensures value { result ≡ prefix_len (λ other. nat_lt other.at at) placed.now }
    ensures within { result ≤ length placed.now }
{
    placed.iter().take_while(|other| other.at < at).count()
}

/// The words without their places.
fn words_of<'a>(
    alloc: Global,
    placed: &[PlacedWords<'a>],
) -> Result<Vec<WatchWords<'a>>, AllocError>
    ensures { IfOk result (λ words. words.items ≡ map (λ one. one.words) placed.now) }
{
    placed.iter().map(|one| one.words).collect(alloc)
}
