//! A front in a word: from bit 20 on how many choices were fired since the opening, in the 7 bits from bit 13 on how many choices are not
//! acknowledged, and in the 13 lowest bits how many records are kept, with the next one.
ghost use Rattle.std.specs.Prelude.{◌≡◌};
ghost use Rattle.plant_core.specs.declared.front.Front.{Front};
ghost use Rattle.front_word.specs.Fronts.{IsWithin, packed};

use crate::front::{RECORD_SPAN, UNACKED_SPAN};
use plant_core::Front;

/// The word that holds a front.
pub(crate) fn pack(opening: Front, front: Front) -> u64
    requires { IsWithin opening front }
    ensures { result ≡ packed opening front }
{
    (front.fired - opening.fired) * (UNACKED_SPAN * RECORD_SPAN)
        + ((front.fired - front.acked) * RECORD_SPAN + (front.fired + 1 - front.base))
}

/// The front that a word holds.
pub(crate) fn unpack(opening: Front, word: u64) -> Front
    requires { (f : Front) × IsWithin opening f × (word ≡ packed opening f) }
    ensures { (f : Front) → IsWithin opening f → word ≡ packed opening f → result ≡ f }
{
    let fired = opening.fired + word / (UNACKED_SPAN * RECORD_SPAN);
    Front {
        fired,
        acked: fired - word / RECORD_SPAN % UNACKED_SPAN,
        base: fired + 1 - word % RECORD_SPAN,
    }
}
