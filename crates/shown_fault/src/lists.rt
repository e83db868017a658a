//! Parts of lists of texts.
ghost use Rattle.std.specs.Prelude.{◌≡◌, take, drop};
ghost use Rattle.shown_fault.specs.Lent.{lists_of, text_in};

/// The first of the texts, so many, or all if there are fewer.
#[tactic(auto, using(crate::proofs::Lending::lists_taken))]
pub(crate) fn texts_before<'l, 't>(texts: &'l [&'t [u8]], count: usize) -> &'l [&'t [u8]]
    ensures { lists_of result.now ≡ take count (lists_of texts.now) }
{
    let (before, _) = texts.split_at(count.min(texts.len()));
    before
}

/// The texts after so many; none if there are no more.
#[tactic(auto, using(crate::proofs::Lending::lists_dropped))]
pub(crate) fn texts_after<'l, 't>(texts: &'l [&'t [u8]], count: usize) -> &'l [&'t [u8]]
    ensures { lists_of result.now ≡ drop count (lists_of texts.now) }
{
    let (_, after) = texts.split_at(count.min(texts.len()));
    after
}

/// The text at the place; empty if there is none.
pub(crate) fn text_in<'t>(texts: &[&'t [u8]], place: usize) -> &'t [u8]
    ensures { result.now ≡ text_in (lists_of texts.now) place }
{
    match texts.get(place) {
        Some(text) => text,
        None => b"",
    }
}
