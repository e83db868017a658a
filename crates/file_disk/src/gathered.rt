//! The bytes of a file in memory, where what is written waits for the next sync.
ghost use Rattle.std.specs.Prelude.{◌≡◌, ◌+◌, ◌*◌, ◌<◌, ◌≤◌, length};
ghost use Rattle.file_disk.specs.Marks.{marked_in};
ghost use Rattle.file_disk.specs.declared.gathered.TheConstants.{BLOCK};

use crate::marks::{Marks, Run};
use std::alloc::{AllocError, Global};
use std::os::unix::fs::FileExt;
use std::{io, vec};

/// The bytes of a block.
pub(crate) const BLOCK: usize = 512;

/// The bytes of a file, read when they are first asked for, with all that was written to them since. Each call that needs the file is lent it, and
/// it is the same one each time. At first the disk may not have any of them: the system may have forgotten to write what it shows.
#[derive(Drop)]
pub(crate) struct Gathered {
    bytes: Vec<u8>,
    is_read: bool,
    /// A mark on each block of which the disk may not have every byte. The last block may be cut.
    marks: Marks,
    ghost covered: { length bytes.items ≤ length (marked_in marks) * BLOCK },
    ghost needed: { length (marked_in marks) * BLOCK < length bytes.items + BLOCK },
}

impl Gathered {
    ghost use Rattle.std.specs.Prelude.{ℕ, List, ◌-◌, ◌/◌, Some, None, true, false, take, drop, replicate, IsSome, IsSomeAnd, IfOk, OnOk, OnErr};
    ghost use Rattle.std.specs.Int.{div_ceil};
    ghost use Rattle.disk_model.specs.DiskState.{overwritten};
    ghost use Rattle.file_disk.specs.Gathered.{held_in, size_in, marks_on};
    ghost use Rattle.file_disk.specs.Marks.{all_marked};

    /// Memory for the bytes of a file that has so many. It was not read, and each block is marked.
    pub(crate) fn new(alloc: Global, size: usize) -> Result<Gathered, AllocError>
        ensures size { IfOk result (λ all. size_in all ≡ size) }
        ensures held { IfOk result (λ all. held_in all ≡ None) }
        ensures marks { IfOk result (λ all. marks_on all ≡ all_marked size) }
    {
        Ok(Gathered {
            bytes: vec![in alloc; 0; size]?,
            is_read: false,
            marks: Marks::new(alloc, size.div_ceil(BLOCK))?,
        })
    }

    /// Reads the file, unless that was done. If that fails, the next call tries it again.
    fn load<F: FileExt>(&mut self, file: &F) -> io::Result<()>
        ensures ok { OnOk result (IsSome (held_in self.new)) }
        ensures err { OnErr result (held_in self.new ≡ None) }
        ensures held { (all : List ℕ) → held_in self.old ≡ Some all → held_in self.new ≡ Some all }
        ensures size { size_in self.new ≡ size_in self.old }
        ensures marks { marks_on self.new ≡ marks_on self.old }
    {
        if !self.is_read {
            file.read_exact_at(&mut self.bytes, 0)?;
            self.is_read = true;
        }
        Ok(())
    }

    /// Fills `into` with the bytes from number `at` on. After a failure it holds anything.
    pub(crate) fn read<F: FileExt>(
        &mut self,
        file: &F,
        at: usize,
        into: &mut [u8],
    ) -> io::Result<()>
        requires { at + length into.old ≤ size_in self.old }
        ensures ok { OnOk result (IsSomeAnd (held_in self.new) (λ all. into.new ≡ take (length into.old) (drop at all))) }
        ensures err { OnErr result (held_in self.new ≡ None) }
        ensures held { (all : List ℕ) → held_in self.old ≡ Some all → held_in self.new ≡ Some all }
        ensures size { size_in self.new ≡ size_in self.old }
        ensures marks { marks_on self.new ≡ marks_on self.old }
    {
        self.load(file)?;
        into.copy_from_slice(&self.bytes[at..at + into.len()]);
        Ok(())
    }

    /// Puts these bytes over those from number `at` on. The next `write_out` hands them to the file.
    pub(crate) fn write<F: FileExt>(&mut self, file: &F, at: usize, from: &[u8]) -> io::Result<()>
        requires { at + length from.now ≤ size_in self.old }
        ensures ok { OnOk result (IsSomeAnd (held_in self.new) (λ all. take (length from.now) (drop at all) ≡ from.now)) }
        ensures err { OnErr result (held_in self.new ≡ None) }
        ensures held { (all : List ℕ) → held_in self.old ≡ Some all → held_in self.new ≡ Some (overwritten at from.now all) }
        ensures size { size_in self.new ≡ size_in self.old }
        ensures marked { OnOk result (marks_on self.new ≡ overwritten (at / BLOCK) (replicate (div_ceil (at + length from.now) BLOCK - at / BLOCK) true) (marks_on self.old)) }
        ensures unmarked { OnErr result (marks_on self.new ≡ marks_on self.old) }
    {
        self.load(file)?;
        let end = at + from.len();
        self.bytes[at..end].copy_from_slice(from);
        self.marks.add(Run {
            first: at / BLOCK,
            end: end.div_ceil(BLOCK),
        });
        Ok(())
    }

    /// Writes all marked blocks to the file, each whole, run by run, once the file was read. It ends at the first write that fails.
    pub(crate) fn write_out<F: FileExt>(&mut self, file: &F) -> io::Result<()>
        ensures ok { OnOk result (IsSome (held_in self.new)) }
        ensures held { (all : List ℕ) → held_in self.old ≡ Some all → held_in self.new ≡ Some all }
        ensures size { size_in self.new ≡ size_in self.old }
        ensures marks { marks_on self.new ≡ marks_on self.old }
    {
        self.load(file)?;
        self.write_runs(file)
    }

    /// Writes the runs of marked blocks.
    fn write_runs<F: FileExt>(&self, file: &F) -> io::Result<()> {
        let mut block = 0;
        while let Some(run) = self.marks.run_from(block) {
            file.write_all_at(self.bytes_of(run), (BLOCK * run.first) as u64)?;
            block = run.end;
        }
        Ok(())
    }

    /// The bytes of the blocks of a run.
    fn bytes_of(&self, run: Run) -> &[u8]
        requires some { run.first < run.end }
        requires within { run.end ≤ length (marks_on self.now) }
        ensures { (all : List ℕ) → held_in self.now ≡ Some all → result.now ≡ take (BLOCK * (run.end - run.first)) (drop (BLOCK * run.first) all) }
    {
        let end = (BLOCK * run.end).min(self.bytes.len());
        &self.bytes[BLOCK * run.first..end]
    }

    /// Takes all marks away: the disk has every byte.
    pub(crate) fn settle(&mut self)
        ensures held { held_in self.new ≡ held_in self.old }
        ensures size { size_in self.new ≡ size_in self.old }
        ensures marks { marks_on self.new ≡ replicate (length (marks_on self.old)) false }
    {
        self.marks.clear();
    }
}
