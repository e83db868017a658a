//! The generator of random picks: that of `run_text`, which goes on from one command to the next.
ghost use Rattle.std.specs.Prelude.{◌≡◌};
ghost use Rattle.run_text.specs.Picks.{pick_at, shifted};

/// What a state is multiplied by to make its pick.
const FACTOR: u64 = 0x2545_F491_4F6C_DD1D;

/// The state of the generator after a state.
pub(crate) fn next_state(state: u64) -> u64
    ensures { result ≡ shifted state }
{
    let down = state ^ (state >> 12);
    let up = down ^ (down << 25);
    up ^ (up >> 27)
}

/// The pick of a state.
pub(crate) fn pick_of(state: u64) -> u64
    ensures { result ≡ pick_at state }
{
    state.wrapping_mul(FACTOR)
}
