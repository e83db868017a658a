//! Several cells at once. A stop inside a run leaves each of its cells by itself as the call says.
ghost use Rattle.std.specs.Prelude.{◌≡◌, ℕ, ◌+◌, ◌<◌, ◌∷◌, [], List, true, false, length, is_ok, is_err, OnOk, MatchResult};
ghost use Rattle.disk_model.specs.DiskState.{Counts, CountsTwo, IsUnchanged, Syncs};
ghost use Rattle.disk_model.specs.Cells.{cell_count, MayBe, Leaves, Settles, OldOrEmpty, EmptyOrNew, Erased, Filled};
ghost use Rattle.disk_model.specs.Steps.{AreInside, ReadEmpty, AreClosed, AllDiffer, AreFirm, SeenEmptied, SeenStaged, SeenOpened};
ghost use Rattle.disk_model.specs.Runs.{MayBeEmptied, MayBeFilled};

use crate::calls::{Known, close_gate, open_gate, write_body};
use crate::{Disk, DiskFault};

/// Puts everything written so far onto the disk.
pub(crate) fn sync_all<D: Disk, const B: usize>(disk: &mut D) -> Result<(), DiskFault>
    ensures counts { Counts (is_err result) (is_ok result) (D.state disk.old) (D.state disk.new) }
    ensures leaves { (D.state disk.old).keeps ≡ true
        → Leaves (B + 1) (MayBe (B + 1) (D.state disk.old)) (D.state disk.old) (D.state disk.new) }
    ensures settles { (D.state disk.old).keeps ≡ true → OnOk result
        (Settles (B + 1) (D.state disk.old) (D.state disk.new)) }
    ensures syncs { (D.state disk.old).keeps ≡ true
        → MatchResult result (λ _. Syncs (D.state disk.old) (D.state disk.new)) (λ _. IsUnchanged (D.state disk.old) (D.state disk.new)) }
{
    disk.sync()
}

fn close_gates<D: Disk, const B: usize>(
    disk: &mut D,
    ks: &[u64],
    known: Known,
) -> Result<(), DiskFault>
    requires { MayBeEmptied (B + 1) known (D.state disk.old) ks.now }
    ensures counts { Counts (is_err result) false (D.state disk.old) (D.state disk.new) }
    ensures leaves { (D.state disk.old).keeps ≡ true
        → Leaves (B + 1) (OldOrEmpty (B + 1) (D.state disk.old) ks.now) (D.state disk.old) (D.state disk.new) }
    ensures seen { (D.state disk.old).keeps ≡ true → OnOk result
        (SeenEmptied (B + 1) (length ks.now) ks.now (D.state disk.old) (D.state disk.new)) }
    ensures untouched { (D.state disk.old).keeps ≡ true → ReadEmpty (B + 1) (D.state disk.old) ks.now
        → IsUnchanged (D.state disk.old) (D.state disk.new) }
{
    for k in ks {
        close_gate::<D, B>(disk, *k, known)?;
    }
    Ok(())
}

/// Empties the cells `ks`, by one sync for all.
pub(crate) fn erase_all<D: Disk, const B: usize>(
    disk: &mut D,
    ks: &[u64],
    known: Known,
) -> Result<(), DiskFault>
    requires { MayBeEmptied (B + 1) known (D.state disk.old) ks.now }
    ensures counts { Counts (is_err result) (is_ok result) (D.state disk.old) (D.state disk.new) }
    ensures leaves { (D.state disk.old).keeps ≡ true
        → Leaves (B + 1) (OldOrEmpty (B + 1) (D.state disk.old) ks.now) (D.state disk.old) (D.state disk.new) }
    ensures erased { (D.state disk.old).keeps ≡ true → OnOk result
        (Erased (B + 1) ks.now (D.state disk.old) (D.state disk.new)) }
    ensures only_syncs { (D.state disk.old).keeps ≡ true → ReadEmpty (B + 1) (D.state disk.old) ks.now
        → MatchResult result (λ _. Syncs (D.state disk.old) (D.state disk.new)) (λ _. IsUnchanged (D.state disk.old) (D.state disk.new)) }
{
    // A stop before the sync leaves each of these cells as it was or empty.
    close_gates::<D, B>(disk, ks, known)?;
    disk.sync()
}

fn write_bodies<D: Disk, const B: usize>(
    disk: &mut D,
    ks: &[u64],
    bodies: &[[u8; B]],
) -> Result<(), DiskFault>
    requires { MayBeFilled (B + 1) (D.state disk.old) ks.now bodies.now }
    ensures counts { Counts (is_err result) false (D.state disk.old) (D.state disk.new) }
    ensures leaves { (D.state disk.old).keeps ≡ true
        → Leaves (B + 1) (MayBe (B + 1) (D.state disk.old)) (D.state disk.old) (D.state disk.new) }
    ensures seen { (D.state disk.old).keeps ≡ true → OnOk result
        (SeenStaged (B + 1) (length ks.now) ks.now bodies.now (D.state disk.old) (D.state disk.new)) }
{
    for i in 0..ks.len() {
        write_body(disk, ks[i], &bodies[i])?;
    }
    Ok(())
}

fn open_gates<D: Disk, const B: usize>(disk: &mut D, ks: &[u64]) -> Result<(), DiskFault>
    requires differ { AllDiffer ks.now }
    requires inside { AreInside (B + 1) (D.state disk.old) ks.now }
    ensures counts { Counts (is_err result) false (D.state disk.old) (D.state disk.new) }
    ensures leaves { (D.state disk.old).keeps ≡ true → (bodies : List (List ℕ))
        → AreFirm (B + 1) (D.state disk.old) ks.now bodies → AreClosed (B + 1) (D.state disk.old) ks.now
        → Leaves (B + 1) (EmptyOrNew (B + 1) (D.state disk.old) ks.now bodies) (D.state disk.old) (D.state disk.new) }
    ensures seen { (D.state disk.old).keeps ≡ true → OnOk result
        (SeenOpened (B + 1) (length ks.now) ks.now (D.state disk.old) (D.state disk.new)) }
{
    for k in ks {
        open_gate::<D, B>(disk, *k)?;
    }
    Ok(())
}

/// Fills the cells `ks`, which are closed, with the bodies: all bodies, a sync, all gates, a sync.
pub(crate) fn set_all<D: Disk, const B: usize>(
    disk: &mut D,
    ks: &[u64],
    bodies: &[[u8; B]],
) -> Result<(), DiskFault>
    requires { MayBeFilled (B + 1) (D.state disk.old) ks.now bodies.now }
    ensures counts { CountsTwo (is_ok result) (D.state disk.old) (D.state disk.new) }
    ensures leaves { (D.state disk.old).keeps ≡ true
        → Leaves (B + 1) (EmptyOrNew (B + 1) (D.state disk.old) ks.now bodies.now) (D.state disk.old) (D.state disk.new) }
    ensures filled { (D.state disk.old).keeps ≡ true → OnOk result
        (Filled (B + 1) ks.now bodies.now (D.state disk.old) (D.state disk.new)) }
{
    // Behind closed gates no stop shows a body, whole or torn.
    write_bodies(disk, ks, bodies)?;
    // The bodies have to be on the disk before a gate is written: behind a gate that comes open they count.
    disk.sync()?;
    // A gate that is torn is open or not, and behind it stands its whole body.
    open_gates::<D, B>(disk, ks)?;
    disk.sync()
}
