//! Which blocks of a file were written since its last successful sync.
ghost use Rattle.std.specs.Prelude.{◌≡◌, ℕ, ◌-◌, ◌<◌, ◌≤◌, true, false, length, replicate, IfOk, IfSome, IfNone};
ghost use Rattle.disk_model.specs.DiskState.{overwritten};
ghost use Rattle.file_disk.specs.Blocks.{is_marked, IsNext, IsRun, NoneFrom};

use std::alloc::{AllocError, Global};
use std::vec;

/// The bytes of the largest image that a plant can have: two slots for each of 64 atoms, a ring of 4,096 records and three
/// cells more, each of 1,024 bytes.
pub const LARGEST_IMAGE: u64 = 4_227 * 1_024;

/// The blocks from number `first` up to, but not with, number `end`.
#[derive(Clone, Copy)]
pub(crate) struct Run {
    pub(crate) first: usize,
    pub(crate) end: usize,
}

/// Marks on the blocks of a file.
#[derive(Drop)]
pub(crate) struct Marks {
    blocks: Vec<bool>,
    /// No block before this one is marked.
    start: usize,
    /// No block from this one on is marked.
    end: usize,
    ghost below: { (i : ℕ) → i < start → is_marked blocks.items i ≡ false },
    ghost above: { (i : ℕ) → end ≤ i → is_marked blocks.items i ≡ false },
    ghost within: { end ≤ length blocks.items },
}

impl Marks {
    ghost use Rattle.file_disk.specs.Marks.{marked_in};

    /// So many blocks, each marked.
    pub(crate) fn new(alloc: Global, count: usize) -> Result<Marks, AllocError>
        ensures { IfOk result (λ marks. marked_in marks ≡ replicate count true) }
    {
        Ok(Marks {
            blocks: vec![in alloc; true; count]?,
            start: 0,
            end: count,
        })
    }

    /// Marks the blocks of the run.
    pub(crate) fn add(&mut self, run: Run)
        requires ordered { run.first ≤ run.end }
        requires within { run.end ≤ length (marked_in self.old) }
        ensures { marked_in self.new ≡ overwritten run.first (replicate (run.end - run.first) true) (marked_in self.old) }
    {
        self.blocks[run.first..run.end].fill(true);
        self.start = self.start.min(run.first);
        self.end = self.end.max(run.end);
    }

    /// Takes all marks away.
    pub(crate) fn clear(&mut self)
        ensures { marked_in self.new ≡ replicate (length (marked_in self.old)) false }
    {
        // To go over all blocks of a large image would take longer than its writes.
        for block in self.start..self.end {
            self.blocks[block] = false;
        }
        self.start = self.blocks.len();
        self.end = 0;
    }

    /// The first run from this block on of blocks that go out together: one that is not marked may lie between two that are.
    pub(crate) fn run_from(&self, block: usize) -> Option<Run>
        ensures found { IfSome result (IsRun (marked_in self.now) block) }
        ensures none { IfNone result (NoneFrom (marked_in self.now) block) }
    {
        let first = self.next_from(block)?;
        Some(Run {
            first,
            end: self.end_of(first),
        })
    }

    /// The first marked block from this one on.
    fn next_from(&self, block: usize) -> Option<usize>
        ensures found { IfSome result (IsNext (marked_in self.now) block) }
        ensures none { IfNone result (NoneFrom (marked_in self.now) block) }
    {
        for next in block.max(self.start)..self.end {
            if self.blocks[next] {
                return Some(next);
            }
        }
        None
    }

    /// Where the run ends that begins with this marked block.
    fn end_of(&self, first: usize) -> usize
        requires { is_marked (marked_in self.now) first ≡ true }
        ensures { IsRun (marked_in self.now) first (record { first = first; end = result }) }
    {
        let mut end = first + 1;
        for block in end..self.end {
            if self.blocks[block] {
                end = block + 1;
            } else if block > end {
                break;
            }
        }
        end
    }
}
