//! A system is made of the atoms, connectors and rules of a draft.
ghost use Rattle.std.specs.Prelude.{◌≡◌, ◌≢◌, map, IfOk, IfErr, OnOk, Ok, Err};
ghost use Rattle.petri_atom.specs.Atom.{definition_of};
ghost use Rattle.plant_model.specs.System.{plant_of};
ghost use Rattle.plant_model.specs.Wire.{wire_of};
ghost use Rattle.atom_lines.specs.Draft.{drafted as atom_drafted};
ghost use Rattle.plant_text.specs.Parts.{wire_defined};
ghost use Rattle.plant_text.specs.Draft.{drafted};
ghost use Rattle.plant_text.specs.Fault.{of_no_line, of_system};
ghost use Rattle.plant_text.specs.Meaning.{IsWritten, with_an_order};
ghost use Rattle.plant_text.specs.Text.{text_of};
ghost use Rattle.plant_text.specs.declared.fault.Fault.TheVariants as fault;

use crate::draft::PlantDraft;
use crate::fault::{Fault, PlantFault};
use crate::listed::ListedWire;
use atom_lines::AtomDraft;
use petri_atom::Atom;
use plant_model::{System, SystemFault, Wire};
use std::alloc::{AllocError, Global};

/// The system of the atoms, the connectors and the rules of a draft, with the digest of the text that they were read from.
pub(crate) fn system_of(draft: PlantDraft, digest: [u8; 32]) -> Result<System, PlantFault>
    requires { IsWritten (drafted draft) }
    ensures made { IfOk result (λ system. text_of (plant_of system) ≡ drafted draft) }
    ensures ordered { OnOk result (with_an_order (drafted draft) ≡ Ok (drafted draft)) }
    ensures digest { IfOk result (λ system. system.digest ≡ digest) }
    ensures fault { IfErr result (λ told. told ≢ of_no_line fault.Memory → with_an_order (drafted draft) ≡ Err told) }
{
    let atoms = make_atoms(draft.alloc, draft.atoms)?;
    let wires = make_wires(draft.alloc, draft.wires)?;
    match System::new(draft.alloc, atoms, wires, &draft.rules, digest) {
        Ok(system) => Ok(system),
        Err(fault) => Err(PlantFault::of_no_line(system_fault(fault))),
    }
}

/// The fault of a text whose parts, as they were written, make no plant. Lines keep all other rules of plants.
fn system_fault(fault: SystemFault) -> Fault
    ensures { result ≡ of_system fault }
{
    match fault {
        SystemFault::Order(fault) => Fault::Order(fault),
        SystemFault::Memory => Fault::Memory,
        _ => Fault::Limit,
    }
}

/// The atoms of the drafts.
fn make_atoms(alloc: Global, drafts: Vec<AtomDraft>) -> Result<Vec<Atom>, AllocError>
    ensures { IfOk result (λ atoms. map definition_of atoms.items ≡ map atom_drafted drafts.items) }
{
    let mut atoms = Vec::with_capacity(alloc, drafts.len())?;
    for draft in drafts {
        atoms.push(draft.into_atom()?)?;
    }
    Ok(atoms)
}

/// The connectors of the drafts.
fn make_wires(alloc: Global, drafts: Vec<ListedWire>) -> Result<Vec<Wire>, AllocError>
    ensures { IfOk result (λ wires. map wire_of wires.items ≡ map wire_defined drafts.items) }
{
    let mut wires = Vec::with_capacity(alloc, drafts.len())?;
    for draft in drafts {
        wires.push(draft.draft.into_wire())?;
    }
    Ok(wires)
}
