//! The places that the conditions of rules ask for.
ghost use Rattle.std.specs.Prelude.{◌≡◌, ℕ, true, slice_index_or, Contains};
ghost use Rattle.priority_filter.specs.Conditions.{AreWatched};
ghost use Rattle.priority_filter.specs.Members.{has_bit};
ghost use Rattle.priority_filter.specs.Order.{IsKnownPlace};
ghost use Rattle.priority_filter.specs.declared.rule.Side.{Side};

use crate::rule::Rule;
use crate::seen::{At, SEEN_ATOMS};

/// The places that the rules ask for, for each atom a word, bit k for place k.
pub(crate) fn watched_places(rules: &[Rule]) -> [u64; SEEN_ATOMS]
    requires { (left right : Side) (at : At) → Contains rules.now (Rule.UnderAt left right at) → IsKnownPlace at }
    ensures { AreWatched rules.now result }
{
    let mut watched = [0; SEEN_ATOMS];
    for k in 0..rules.len() {
        if let Rule::UnderAt(_, _, at) = rules[k] {
            watch(&mut watched, at);
        }
    }
    watched
}

/// Adds one place.
fn watch(watched: &mut [u64; SEEN_ATOMS], at: At)
    requires { IsKnownPlace at }
    ensures here { has_bit (slice_index_or watched.new at.atom 0) at.place ≡ true }
    ensures others { (a k : ℕ) → has_bit (slice_index_or watched.old a 0) k ≡ true → has_bit (slice_index_or watched.new a 0) k ≡ true }
{
    watched[usize::from(at.atom)] |= 1 << at.place;
}
