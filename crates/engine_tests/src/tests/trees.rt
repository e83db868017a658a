//! Lines of as many words as a text has room for, and what the faults of a tree say.
use connector_lines::{Ports, TreeWordsFault, read_tree};
use connector_tree::{Port, TreeFault};
use plant_words::Words;
use std::alloc::{AllocError, Global};
use std::test::Fail;

/// Each word that is written as a port is port 0 of atom 0.
struct Anything;

impl Ports for Anything {
    ghost use Rattle.std.specs.Prelude.{Some};

    ghost port_named = { λ _ _ _. Some (record { atom = 0; port = 0 }) };

    fn find_port(&self, _: &[u8], _: &[u8]) -> Option<Port> {
        Some(Port { atom: 0, port: 0 })
    }
}

/// The words, so many times.
fn repeated(alloc: Global, words: &[u8], count: usize) -> Result<Vec<u8>, AllocError> {
    let mut line = Vec::new(alloc);
    for _ in 0..count {
        line.extend_from_slice(words)?;
    }
    Ok(line)
}

/// The fault of a line's tree.
fn told(alloc: Global, line: &[u8]) -> Option<TreeWordsFault> {
    read_tree(alloc, &mut Words::new(line), &Anything).err()
}

#[test]
fn long_lines_are_told_by_a_fault(rt: HostRuntime) -> Result<(), Fail> {
    let alloc = rt.alloc();
    for (words, count, fault) in [
        (b"[ ".as_slice(), 500_000, TreeWordsFault::Shape),
        (b"[ ] ", 250_000, TreeWordsFault::Tree(TreeFault::Empty)),
        (
            b"a.p ",
            250_000,
            TreeWordsFault::Tree(TreeFault::TooManyLeaves),
        ),
    ] {
        let line = repeated(alloc, words, count)?;
        assert!(&rt; told(alloc, &line) == Some(fault), "{fault:?}");
    }
    let mut nested = repeated(alloc, b"[ ", 500_000)?;
    nested.extend_from_slice(&repeated(alloc, b"] ", 500_000)?)?;
    assert!(&rt; told(alloc, &nested) == Some(TreeWordsFault::Tree(TreeFault::TooDeep)));
    Ok(())
}

#[test]
fn a_fault_of_a_tree_is_told(rt: HostRuntime) -> Result<(), Fail> {
    for (fault, text) in [
        (
            TreeFault::TooManyLeaves,
            "a connector may have at most 16 ports",
        ),
        (
            TreeFault::TooDeep,
            "a connector may nest at most 8 levels, the root included",
        ),
        (
            TreeFault::SameAtom,
            "an atom may stand only once in a connector",
        ),
        (
            TreeFault::Empty,
            "a connector and its brackets may not be empty",
        ),
        (
            TreeFault::Memory,
            "not enough memory to list a connector's interactions",
        ),
    ] {
        let said = fault.to_string(rt.alloc())?;
        assert_eq!(rt; said.as_str(), text);
    }
    Ok(())
}
