//! What a stop leaves of a journal, call by call, on devices of two atoms. Each record's body is compared with what was written.
ghost use Rattle.std.specs.Prelude.{◌≡◌, ◌^◌, ◌<◌, true, false, IfOk};
ghost use Rattle.disk_model.specs.DiskState.{size_of};
ghost use Rattle.disk_model.specs.MemDisk.{state_of};
ghost use Rattle.gated_journal.specs.Rings.{IsRing};
ghost use Rattle.durable_tests.specs.Opened.{IsOpened};

use super::common::{OpaqueDisk, TEARS};
use disk_model::{BODY, CELL, Cells, Disk, DiskFault, MemDisk, Tear};
use gated_journal::{Journal, Ring};
use record_codec::ring::{base_cell, device_cells, record_cell};
use record_codec::{Base, Entry, Fired};
use std::alloc::Global;
use std::process::Abort;
use std::test::Fail;

const ATOMS: u16 = 2;

type Engine = Cells<OpaqueDisk>;

fn cells_of(disk: MemDisk) -> Engine
    ensures untold { result.keeps ≡ false }
    ensures size { size_of result ≡ size_of (state_of disk) }
{
    Cells::new(OpaqueDisk::over(disk))
}

fn disk_of(cells: Engine) -> MemDisk {
    cells.into_disk().into_memory()
}

/// Which call is made.
#[derive(Clone, Copy)]
enum Call {
    Append(usize),
    Clean,
    Move(u64),
}

/// The body of record `n`, in which atom 0 fired for the first time. There is none of number 0.
fn body_of(n: u64) -> [u8; BODY] {
    if n < 1 || n > 1_000_000 {
        return [0; BODY];
    }
    let entry = Entry {
        atom: 0,
        transition: 0,
        participation: 1,
        delivered: [None; 4],
    };
    Fired::new(n, 0, &[entry]).to_body()
}

/// The bodies of `count` records from number `first` on, of which there are 64 at most.
fn bodies_from(first: u64, count: usize) -> [[u8; BODY]; 64] {
    let mut bodies = [[0; BODY]; 64];
    for i in 0..count.min(64) {
        bodies[i] = body_of(first.saturating_add(i as u64));
    }
    bodies
}

fn is_in_range(n: Ring) -> bool
    ensures { result ≡ true → IsRing n }
{
    let few = n.atoms == ATOMS && n.ring >= 1 && n.ring <= 4096;
    let based = n.base_cell >= 1 && n.base_cell <= 2 && n.base >= 1;
    few && based
        && n.last <= 1_000_000
        && n.base <= n.last + 1
        && n.last < n.base + u64::from(n.ring)
}

/// The cells of a device that is dead from its `k`-th device call on, and the journal with these numbers.
fn opened(alloc: Global, disk: MemDisk, n: Ring, k: u64) -> Result<(Engine, Journal), Fail>
    ensures { IfOk result (λ r. IsOpened n r.1 r.0) }
{
    let mut disk = disk;
    let size = disk.size()?;
    if !is_in_range(n) || size < CELL * device_cells(n.atoms, n.ring) {
        return Err(Fail::new("no such journal"));
    }
    disk.fuse_dead(k);
    let cells = cells_of(disk);
    let made = Journal::of(alloc, &cells, n.atoms, n.ring, n.base_cell, n.base, n.last);
    let journal = made?;
    Ok((cells, journal))
}

/// Appends the next records, and says whether it succeeded.
fn append(cells: &mut Engine, journal: &mut Journal, n: Ring, count: usize) -> Result<bool, Fail>
    requires { IsOpened n journal.old cells.old }
{
    if count > 64 || n.last > 1_000_000 {
        return Err(Fail::new("too many records"));
    }
    if n.last + count as u64 >= n.base + u64::from(n.ring) {
        return Err(Fail::new("no room for these records"));
    }
    let bodies = bodies_from(n.last + 1, count);
    Ok(journal.append_run(cells, &bodies[..count]).is_ok())
}

/// The bodies of the cells as a boot loads them, where the call asks for them, and the device.
fn loaded(
    alloc: Global,
    disk: MemDisk,
    call: Call,
) -> Result<(Vec<Option<[u8; BODY]>>, MemDisk), Fail> {
    let mut found = Vec::new(alloc);
    let Call::Clean = call else {
        return Ok((found, disk));
    };
    let mut cells = cells_of(disk);
    for k in 0..cells.size()? / CELL {
        let mut body = [0; BODY];
        let is_full = body_in(&mut cells, k, &mut body)?;
        found.push(is_full.then_some(body))?;
    }
    Ok((found, disk_of(cells)))
}

/// Makes the call on the journal with these numbers, and says whether it succeeded.
fn succeeds(
    cells: &mut Engine,
    journal: &mut Journal,
    n: Ring,
    call: Call,
    found: &[Option<[u8; BODY]>],
) -> Result<bool, Fail>
    requires { IsOpened n journal.old cells.old }
{
    match call {
        Call::Append(count) => append(cells, journal, n, count),
        Call::Clean => Ok(journal.clean(cells, found).is_ok()),
        Call::Move(base) => {
            if base <= n.base || base > n.last + 1 {
                return Err(Fail::new("no such base"));
            }
            Ok(journal.move_base(cells, base).is_ok())
        }
    }
}

/// Makes the call on the journal with these numbers, with the device dead from its `k`-th device call on.
fn stopped(
    alloc: Global,
    disk: MemDisk,
    n: Ring,
    call: Call,
    k: u64,
) -> Result<(bool, MemDisk), Fail> {
    let (found, disk) = loaded(alloc, disk, call)?;
    let (mut cells, mut journal) = opened(alloc, disk, n, k)?;
    let ok = succeeds(&mut cells, &mut journal, n, call, &found)?;
    Ok((ok, disk_of(cells)))
}

/// Whether cell `k` is full, and its body then.
fn body_in(cells: &mut Engine, k: u64, body: &mut [u8; BODY]) -> Result<bool, DiskFault> {
    if cells.size()? / CELL <= k {
        return Ok(false);
    }
    cells.read_cell(k, body)
}

/// The base that a cell holds, or 0.
fn base_in(cells: &mut Engine, k: u64) -> Result<u64, DiskFault> {
    let mut body = [0; BODY];
    if !body_in(cells, k, &mut body)? {
        return Ok(0);
    }
    match Base::from_body(&body) {
        Some(base) => Ok(base.number()),
        None => Ok(0),
    }
}

/// What the cells read for: the base, how many records are live, and how many cells of the ring are full.
fn read(disk: MemDisk, ring: u32) -> Result<(u64, u64, u64), DiskFault> {
    let mut cells = cells_of(disk);
    let base = base_in(&mut cells, base_cell(0))?.max(base_in(&mut cells, base_cell(1))?);
    let mut live = 0u64;
    let mut full = 0u64;
    let mut ended = false;
    for i in 0..ring {
        let number = base.saturating_add(u64::from(i));
        let mut body = [0; BODY];
        let there = body_in(&mut cells, record_cell(ATOMS, ring, number), &mut body)?;
        full = full.saturating_add(u64::from(there));
        ended = ended || !there || body != body_of(number);
        live = live.saturating_add(u64::from(!ended));
    }
    Ok((base, live, full))
}

/// Writes a base into cell `k`.
fn put_base(disk: MemDisk, k: u64, base: u64) -> Result<MemDisk, Fail> {
    let mut cells = cells_of(disk);
    if cells.size()? / CELL <= k || base < 1 || base > 1_000_000 {
        return Err(Fail::new("no such base"));
    }
    cells.replace(k, &Base::new(base).to_body())?;
    Ok(disk_of(cells))
}

/// A device whose base is n's, in its cell, and whose live records are n's. The other base cell is empty, or holds base 1.
fn prepared(alloc: Global, n: Ring, both: bool) -> Result<MemDisk, Fail> {
    if !is_in_range(n) {
        return Err(Fail::new("no such journal"));
    }
    let new = MemDisk::with_cells(alloc, CELL * device_cells(n.atoms, n.ring), 256, CELL)?;
    let disk = if both {
        put_base(new, 3 - n.base_cell, 1)?
    } else {
        new
    };
    let disk = put_base(disk, n.base_cell, n.base)?;
    let count = (n.last + 1 - n.base) as usize;
    let none = Ring {
        last: n.base - 1,
        ..n
    };
    let (_, disk) = stopped(alloc, disk, none, Call::Append(count), u64::MAX)?;
    Ok(disk)
}

/// The device before the call: as `prepared`, or after a batch of two that was stopped at its last sync, with the first gate
/// closed and the second open.
#[derive(Clone, Copy)]
enum Start {
    OneBase,
    TwoBases,
    OpenPastTheEnd,
}

fn started(alloc: Global, n: Ring, start: Start) -> Result<MemDisk, Fail> {
    match start {
        Start::OneBase => prepared(alloc, n, false),
        Start::TwoBases => prepared(alloc, n, true),
        Start::OpenPastTheEnd => {
            // Two bodies, a sync, two gates, and the last sync. The first of the two cells has an even number.
            let disk = prepared(alloc, n, false)?;
            let (_, disk) = stopped(alloc, disk, n, Call::Append(2), 6)?;
            Ok(disk.stop(Tear::Mixed))
        }
    }
}

/// How many records are live.
fn live_in(base: u64, last: u64) -> u64 {
    last.saturating_add(1).saturating_sub(base)
}

/// The base and the number of live records that the call ends with.
fn end_of(n: Ring, call: Call) -> (u64, u64) {
    match call {
        Call::Append(count) => (n.base, live_in(n.base, n.last).saturating_add(count as u64)),
        Call::Clean => (n.base, live_in(n.base, n.last)),
        Call::Move(to) => (to, live_in(to, n.last)),
    }
}

/// Whether the cells read for what the call may leave, and where it ended for what it has to.
fn is_right(n: Ring, call: Call, ok: bool, found: (u64, u64, u64)) -> bool {
    let (base, live, full) = found;
    let was = live_in(n.base, n.last);
    let (to, all) = end_of(n, call);
    if ok {
        return base == to && live == all && full == live;
    }
    match call {
        Call::Append(_) => base == n.base && live >= was && live <= all,
        _ => base == n.base && live == was || base == to && live == all,
    }
}

/// Stops the call at its `k`-th device call under this tear: whether it ended before, and what the cells read for.
fn left_by(
    alloc: Global,
    n: Ring,
    start: Start,
    call: Call,
    k: u64,
    tear: Tear,
) -> Result<(bool, (u64, u64, u64)), Fail> {
    let (ok, disk) = stopped(alloc, started(alloc, n, start)?, n, call, k)?;
    Ok((ok, read(disk.stop(tear), n.ring)?))
}

/// Stops the call at its `k`-th device call under each tear: whether it ended before, and how many stops fell inside it.
fn ends_before(
    rt: &impl Abort,
    alloc: Global,
    n: Ring,
    start: Start,
    call: Call,
    k: u64,
) -> Result<(bool, u64), Fail> {
    let mut ended = false;
    let mut stops = 0u64;
    for tear in TEARS {
        let (ok, found) = left_by(alloc, n, start, call, k, tear)?;
        assert!(rt; is_right(n, call, ok, found), "device call {k}");
        stops = stops.saturating_add(u64::from(!ok));
        ended = ok;
    }
    Ok((ended, stops))
}

/// Stops the call at each of its device calls under each tear: how many device calls it makes, and how many stops there were.
fn stops(
    rt: &impl Abort,
    alloc: Global,
    n: Ring,
    start: Start,
    call: Call,
) -> Result<(u64, u64), Fail> {
    let mut all = 0u64;
    for k in 1..200 {
        let (ended, stops) = ends_before(rt, alloc, n, start, call, k)?;
        all = all.saturating_add(stops);
        if ended {
            return Ok((k - 1, all));
        }
    }
    Ok((0, all))
}

fn journal_of(ring: u32, base: u64, last: u64) -> Ring {
    Ring {
        atoms: ATOMS,
        ring,
        base_cell: 1,
        base,
        last,
    }
}

/// In all 4 * 418 stops.
#[test]
fn a_stop_inside_an_append_leaves_a_front_of_the_new_records(rt: HostRuntime) -> Result<(), Fail> {
    for (ring, base, last, count) in [
        (8, 1, 0, 1),
        // across the ring's end
        (8, 6, 7, 1),
        (8, 6, 6, 3),
        (128, 99, 100, 64),
        // with a ring that is full after it
        (8, 2, 8, 1),
        (8, 4, 8, 3),
        (66, 65, 66, 64),
        (128, 1, 2, 64),
    ] {
        let n = journal_of(ring, base, last);
        let calls = 2 * count as u64 + 2;
        let found = stops(&rt, rt.alloc(), n, Start::OneBase, Call::Append(count))?;
        assert_eq!(rt; found, (calls, 4 * calls));
    }
    Ok(())
}

/// The other base cell is empty the first time: a read, 4 calls to fill it, and of each dropped cell a read and a write, and a sync.
/// Later it is full: a read, 2 calls to empty it, and the same. In all 4 * 36 stops.
#[test]
fn a_stop_inside_a_move_leaves_the_old_base_or_the_new(rt: HostRuntime) -> Result<(), Fail> {
    for (base_cell, start, to, calls) in [
        (1, Start::OneBase, 7, 12),
        (2, Start::TwoBases, 12, 24),
    ] {
        let n = Ring {
            base_cell,
            ..journal_of(8, 4, 11)
        };
        let found = stops(&rt, rt.alloc(), n, start, Call::Move(to))?;
        assert_eq!(rt; found, (calls, 4 * calls));
    }
    Ok(())
}

/// The one cell that is full is closed, and a sync. No cell is read. In all 4 * 2 stops.
#[test]
fn a_stop_inside_cleaning_leaves_the_live_records(rt: HostRuntime) -> Result<(), Fail> {
    let n = journal_of(8, 1, 2);
    let found = stops(&rt, rt.alloc(), n, Start::OpenPastTheEnd, Call::Clean)?;
    assert_eq!(rt; found, (2, 8));
    Ok(())
}

/// What the cells of a device with a stale record read for after these calls.
fn read_behind(alloc: Global, calls: &[Call]) -> Result<(u64, u64, u64), Fail> {
    let n = journal_of(8, 1, 0);
    let mut disk = started(alloc, n, Start::OpenPastTheEnd)?;
    for call in calls {
        let (_, left) = stopped(alloc, disk, n, *call, u64::MAX)?;
        disk = left;
    }
    Ok(read(disk, n.ring)?)
}

/// Record 2 of a batch that was stopped stands open after the empty cell of record 1. Cleaned, it is never read. Without that, it would be the second.
#[test]
fn a_stale_record_is_never_read(rt: HostRuntime) -> Result<(), Fail> {
    for (calls, found) in [
        ([].as_slice(), (1, 0, 1)),
        (&[Call::Clean, Call::Append(1)], (1, 1, 1)),
        (&[Call::Append(1)], (1, 2, 2)),
    ] {
        assert_eq!(rt; read_behind(rt.alloc(), calls)?, found);
    }
    Ok(())
}

/// The number of the record that is read as record `number`, or 0.
fn record_read(alloc: Global, disk: MemDisk, n: Ring, number: u64) -> Result<u64, Fail> {
    let (mut cells, journal) = opened(alloc, disk, n, u64::MAX)?;
    if journal.base() != n.base || journal.last() != n.last {
        return Err(Fail::new("another journal"));
    }
    match journal.read_record(&mut cells, number)? {
        Some(record) => Ok(record.number()),
        None => Ok(0),
    }
}

/// Record 11 has the cell of record 3, and the cell of record 5 is empty.
#[test]
fn a_record_is_read_by_its_number(rt: HostRuntime) -> Result<(), Fail> {
    let alloc = rt.alloc();
    let n = journal_of(8, 2, 4);
    for (number, found) in [(2, 2), (3, 3), (4, 4), (5, 0), (11, 0), (1, 0)] {
        let disk = prepared(alloc, n, false)?;
        assert_eq!(rt; record_read(alloc, disk, n, number)?, found);
    }
    Ok(())
}
