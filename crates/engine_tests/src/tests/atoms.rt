//! What the program never asks of an atom.
use petri_atom::Atom;
use plant_text::plant_of_text;
use std::test::Fail;

/// An atom whose transitions stand in turn: of port u, of port t and never offered, of port t.
const IN_TURN: &[u8] =
    b"atom A\nplace s init\nport t\nport u\ntrans u from s to s\ntrans t from s to s when 0\ntrans t from s to s\n";

/// What the first state of an atom offers of a port: whether anything, and the first transition from a number on.
fn offered_of(atom: &Atom, port: u16, from: u16) -> (bool, Option<u16>) {
    let state = atom.initial();
    (
        atom.offers(&state, port),
        atom.first_enabled(&state, port, from),
    )
}

#[test]
fn an_atom_tells_what_it_offers(rt: HostRuntime) -> Result<(), Fail> {
    let system = plant_of_text(rt.alloc(), IN_TURN)?;
    for atom in system.atoms() {
        assert!(rt; offered_of(atom, 0, 0) == (true, Some(2)));
        assert!(rt; offered_of(atom, 0, 3) == (true, None));
        assert!(rt; offered_of(atom, 1, 0) == (true, Some(0)));
        assert!(rt; offered_of(atom, 2, 0) == (false, None));
        assert!(rt; atom.is_offered(&atom.initial(), 2));
        assert!(rt; !atom.is_offered(&atom.initial(), 1));
        assert!(rt; atom.same(atom));
    }
    Ok(())
}
