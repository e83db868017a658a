//! Picks of a source, and random ones after them.
use run_text::{Pick, Picks, RandomPicks, ReadFault};

/// The picks of a source, and after the last of them random ones. The source is not asked any more once it has given its last.
#[derive(Debug, Drop)]
pub struct Followed<F> {
    source: F,
    random: RandomPicks,
    is_past: bool,
}

impl<F: Picks> Followed<F> {
    ghost use Rattle.std.specs.Prelude.{◌≡◌};
    ghost use Rattle.recorded_picks.specs.Followed.{followed, left_in};

    /// The picks of the source, and then these.
    pub fn new(source: F, random: RandomPicks) -> Self
        ensures { left_in F.left result ≡ followed random (F.left source) }
    {
        Followed {
            source,
            random,
            is_past: false,
        }
    }
}

impl<F: Picks> Picks for Followed<F> {
    ghost use Rattle.recorded_picks.specs.Followed.{left_in};

    ghost left = { left_in F.left };

    fn next_pick(&mut self) -> Result<Option<Pick>, ReadFault> {
        if !self.is_past {
            if let Some(pick) = self.source.next_pick()? {
                return Ok(Some(pick));
            }
            self.is_past = true;
        }
        self.random.next_pick()
    }
}
