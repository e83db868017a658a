//! That each fault is printed in its words. A contract says which words these are if the fault is printed, and not that it is.
use connector_tree::TreeFault;
use petri_atom::AtomFault;
use plant_text::{Fault, PlantFault};
use priority_filter::OrderFault;
use std::test::Fail;
use text_io::{TextFault, WriteFault};

#[test]
fn faults_of_atoms_are_told(rt: HostRuntime) -> Result<(), Fail> {
    for (fault, words) in [
        (AtomFault::Limit, "the atom passes a limit"),
        (
            AtomFault::Twice,
            "a name, an exported variable or a place stands twice",
        ),
        (AtomFault::Unknown, "a port, place or variable is not there"),
        (
            AtomFault::NoPlace,
            "a transition has no source or no target",
        ),
        (AtomFault::Memory, "memory ran out"),
    ] {
        let told = fault.to_string(rt.alloc())?;
        assert_eq!(rt; told.as_str(), words);
    }
    Ok(())
}

#[test]
fn faults_of_readers_and_writers_are_told(rt: HostRuntime) -> Result<(), Fail> {
    for (fault, words) in [
        (TextFault::TooLong, "the text has more than 1048576 bytes"),
        (TextFault::Memory, "not enough memory for the text"),
        (TextFault::Read, "the text could not be read"),
    ] {
        let told = fault.to_string(rt.alloc())?;
        assert_eq!(rt; told.as_str(), words);
    }
    let told = WriteFault.to_string(rt.alloc())?;
    assert_eq!(rt; told.as_str(), "the text could not be written");
    Ok(())
}

#[test]
fn faults_of_lines_are_told(rt: HostRuntime) -> Result<(), Fail> {
    for (line, fault, words) in [
        (
            1,
            Fault::NotAscii,
            "line 1: a byte is no printed ASCII character, space or tab",
        ),
        (
            2,
            Fault::UnknownWord,
            "line 2: no line begins with this word",
        ),
        (
            3,
            Fault::Misplaced,
            "line 3: the line speaks of the latest atom or connector, and there is none yet",
        ),
        (4, Fault::BadName, "line 4: a name is malformed or reserved"),
        (
            5,
            Fault::Twice,
            "line 5: a name is declared already, or stands twice where it may stand once",
        ),
        (6, Fault::UnknownName, "line 6: a name is not known here"),
        (
            7,
            Fault::BadExpression,
            "line 7: an expression is malformed",
        ),
        (
            8,
            Fault::BadNumber,
            "line 8: a number is malformed, or has more than 64 bits",
        ),
        (
            9,
            Fault::Shape,
            "line 9: a word is missing, misplaced or left over",
        ),
        (
            10,
            Fault::Tree(TreeFault::SameAtom),
            "line 10: an atom may stand only once in a connector",
        ),
        (
            4_294_967_295,
            Fault::Limit,
            "line 4294967295: a limit of plants is passed",
        ),
    ] {
        let told = PlantFault { line, fault }.to_string(rt.alloc())?;
        assert_eq!(rt; told.as_str(), words);
    }
    Ok(())
}

#[test]
fn faults_of_no_line_are_told(rt: HostRuntime) -> Result<(), Fail> {
    for (fault, words) in [
        (Fault::TooLong, "the text has more than 1048576 bytes"),
        (
            Fault::Order(OrderFault::Cycle(3)),
            "the rules put interaction 3 below itself",
        ),
        (Fault::NoAtom, "there is no atom"),
        (Fault::Memory, "not enough memory for the plant"),
        (Fault::Read, "the text could not be read"),
    ] {
        let told = PlantFault { line: 0, fault }.to_string(rt.alloc())?;
        assert_eq!(rt; told.as_str(), words);
    }
    Ok(())
}
