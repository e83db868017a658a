//! The bodies of cells.
ghost use Rattle.std.specs.Prelude.{◌≡◌, Some, None, MatchOption};
ghost use Rattle.image_inspection.specs.Seen.{cell};

use disk_model::BODY;

/// The body of cell `k`, where it is full. A cell past the end of the list counts as empty.
pub(crate) fn body_of(cells: &[Option<[u8; BODY]>], k: u64) -> Option<&[u8; BODY]>
    ensures { MatchOption result (cell cells.now k ≡ None) (λ body. cell cells.now k ≡ Some body.now) }
{
    match cells.get(k as usize) {
        Some(Some(body)) => Some(body),
        _ => None,
    }
}
