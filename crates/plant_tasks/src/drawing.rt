//! What is drawn of a plant, as the words of the command line ask for it.
ghost use Rattle.std.specs.Prelude.{◌≡◌, ◌≢◌, ◌≤◌, [], not, map, length, unwrap_or, OnOk, IfOk, IfErr, IfSome, Err};
ghost use Rattle.std.specs.Option.{option_copied};
ghost use Rattle.std.specs.List.{list_any, position};
ghost use Rattle.petri_atom.specs.Name.{is_same_text};
ghost use Rattle.std.specs.Io.KnownBytes.{Appends};
ghost use Rattle.run_text.specs.Seen.{definition_of, plant_of};
ghost use Rattle.petri_atom.specs.Local.{set_below};
ghost use Rattle.plant_model.specs.declared.limits.TheConstants.{MAX_ATOMS};
ghost use Rattle.command_line.specs.Asked.{names_in};
ghost use Rattle.text_io.specs.Printing.{Prints};
ghost use Rattle.step_core.specs.Running.{plant_in, states_in};
ghost use Rattle.run_text.specs.Ran.{IfRan};
ghost use Rattle.run_text.specs.Runs.{refusal_of};
ghost use Rattle.run_text.specs.declared.fault.TraceFault.{TraceFault};
ghost use Rattle.run_text.specs.declared.fault.TraceFault.TheVariants.{Write as WriteFailed};
ghost use Rattle.plant_tasks.specs.Drawn.{drawn_atoms, drawn_in, drawn_of, drawn_part, filling_after, is_named_in, IsNoAtom, part_refusal, set_drawn, shown_in, view_refusal};
ghost use Rattle.plant_tasks.specs.Ending.{IfDone, IsOfTask, IsSilent, OnDone};

use crate::doing::task_ended;
use crate::ending::PlantEnding;
use crate::picks::picks_of;
use command_line::{Drawing, Picking, View};
use petri_atom::Atom;
use plant_drawing::{ALL_ATOMS, Filling, draw_to, machines_to, outline_to};
use plant_model::System;
use run_text::{GivenPicks, Numbers, Picks, TraceFault, run_after};
use std::alloc::Global;
use std::io::{BufRead, Write};
use step_core::Stepper;
use text_io::WriteFault;

/// Prints the drawing of the plant. Where a pick is refused nothing is printed.
pub(crate) fn print_drawing<F: BufRead + Drop, W: Write>(
    alloc: Global,
    drawing: &Drawing<'_>,
    system: &System,
    input: F,
    output: &mut W,
) -> Result<(), PlantEnding>
    ensures printed { OnDone result (IfSome (drawn_of drawing.now (plant_of system.now) (F.remaining input)) (Appends (W.contents output.old) (W.contents output.new))) }
    ensures refusal { IfDone result (λ refusal. IfSome (view_refusal drawing.now.view (plant_of system.now) (F.remaining input)) (λ first. refusal ≡ first)) }
    ensures of_task { IfErr result IsOfTask }
    ensures nothing_printed { IfErr result (λ ending. IsSilent ending → output.new ≡ output.old) }
{
    let drawn = atoms_drawn(system, drawing)?;
    match &drawing.view {
        View::Whole(picking) => {
            let picking = picking.as_ref();
            let shown = Shown::All(filling_after(picking));
            draw_after(alloc, shown, picking, system, input, drawn, output)
        }
        View::Machines(picking) => {
            let picking = picking.as_ref();
            draw_after(alloc, Shown::Atoms, picking, system, input, drawn, output)
        }
        View::Outline => Ok(outline_to(system, drawn, output)?),
    }
}

/// What is shown of the atoms that are drawn.
#[derive(Clone, Copy)]
enum Shown {
    /// All their parts and what stands on them, with the connectors filled so.
    All(Filling),
    /// They alone, as state machines.
    Atoms,
}

/// How the connectors are filled: by their choices after picks, and alike in the first state.
fn filling_after(picking: Option<&Picking<'_>>) -> Filling
    ensures { result ≡ filling_after (option_copied picking.entry) }
{
    match picking {
        Some(_) => Filling::ByChoice,
        None => Filling::Alike,
    }
}

/// Draws these atoms in the first state, or after the picks.
fn draw_after<F: BufRead + Drop, W: Write>(
    alloc: Global,
    shown: Shown,
    picking: Option<&Picking<'_>>,
    system: &System,
    input: F,
    drawn: u64,
    output: &mut W,
) -> Result<(), PlantEnding>
    ensures printed { OnDone result (IfSome (drawn_part shown (plant_of system.now) drawn (option_copied picking.entry) (F.remaining input)) (Appends (W.contents output.old) (W.contents output.new))) }
    ensures refusal { IfDone result (λ refusal. IfSome (part_refusal (plant_of system.now) (option_copied picking.entry) (F.remaining input)) (λ first. refusal ≡ first)) }
    ensures of_task { IfErr result IsOfTask }
    ensures nothing_printed { IfErr result (λ ending. IsSilent ending → output.new ≡ output.old) }
{
    match picking {
        None => {
            let mut none = GivenPicks::of(&[], Numbers::Modulo);
            task_ended(draw_state(alloc, shown, system, &mut none, drawn, output))
        }
        Some(picking) => {
            let mut picks = picks_of(alloc, picking, None, system, input)?;
            task_ended(draw_state(alloc, shown, system, &mut picks, drawn, output))
        }
    }
}

/// Draws these atoms in the state after the picks. Where a pick is refused nothing is printed.
fn draw_state<P: Picks, W: Write>(
    alloc: Global,
    shown: Shown,
    system: &System,
    picks: &mut P,
    drawn: u64,
    output: &mut W,
) -> Result<(), TraceFault>
    ensures refusal { IfRan result (λ refusal. IfSome (P.left picks.old) (λ left. refusal ≡ refusal_of (plant_of system.now) left)) }
    ensures printed { OnOk result (IfSome (P.left picks.old) (λ left. Appends (W.contents output.old) (W.contents output.new)
        (drawn_in shown (plant_of system.now) drawn left))) }
    ensures nothing_printed { (fault : TraceFault) → result ≡ Err fault → fault ≢ WriteFailed → output.new ≡ output.old }
{
    let run = run_after(alloc, system, picks)?;
    draw_run(shown, &run, drawn, output)?;
    Ok(())
}

/// Draws these atoms in the present state of the plant.
fn draw_run<W: Write>(
    shown: Shown,
    run: &Stepper<'_>,
    drawn: u64,
    output: &mut W,
) -> Result<(), WriteFault>
    ensures { Prints result (W.contents output.old) (W.contents output.new) (shown_in shown (plant_in run.now) (states_in run.now) drawn) }
{
    match shown {
        Shown::All(filling) => draw_to(run, drawn, filling, output),
        Shown::Atoms => machines_to(run, drawn, output),
    }
}

/// The set of the atoms that are drawn: those that are named, or all where none are. Or the place of the first name that no atom has.
fn atoms_drawn(system: &System, drawing: &Drawing<'_>) -> Result<u64, PlantEnding>
    ensures set { IfOk result (λ set. set ≡ set_drawn (plant_of system.now) (names_in drawing.now.only)) }
    ensures unknown { IfErr result (IsNoAtom (plant_of system.now) (unwrap_or (names_in drawing.now.only) [])) }
{
    match &drawing.only {
        Some(names) => atoms_named(system, names),
        None => Ok(ALL_ATOMS),
    }
}

/// The set of the atoms that have one of the names, or the place of the first name that no atom has.
fn atoms_named(system: &System, names: &[&str]) -> Result<u64, PlantEnding>
    ensures set { IfOk result (λ set. set ≡ drawn_atoms (plant_of system.now) (map (λ name. name.now) names.now)) }
    ensures unknown { IfErr result (IsNoAtom (plant_of system.now) (map (λ name. name.now) names.now)) }
{
    match first_unknown(system.atoms(), names) {
        Some(place) => Err(PlantEnding::NoAtom(place)),
        None => {
            system.keeps_its_rules();
            Ok(set_of(system.atoms(), names))
        }
    }
}

/// The place of the first name that no atom has.
fn first_unknown(atoms: &[Atom], names: &[&str]) -> Option<usize>
    ensures { result ≡ position (λ name. not (list_any (λ a. is_same_text (definition_of a).name name.now) atoms.now)) names.now }
{
    names.iter().position(|name| !has_atom(atoms, name))
}

/// Whether one of the atoms has the name.
fn has_atom(atoms: &[Atom], name: &str) -> bool
    ensures { result ≡ list_any (λ a. is_same_text (definition_of a).name name.now) atoms.now }
{
    atoms
        .iter()
        .any(|atom| atom.name().as_bytes() == name.as_bytes())
}

/// The set of the atoms that have one of the names.
fn set_of(atoms: &[Atom], names: &[&str]) -> u64
    requires { length atoms.now ≤ MAX_ATOMS }
    ensures { result ≡ set_below (length atoms.now) (is_named_in names.now atoms.now) }
{
    let mut set = 0;
    for (number, atom) in atoms.iter().enumerate() {
        set |= u64::from(is_named(atom, names)) << number;
    }
    set
}

/// Whether the atom has one of the names.
fn is_named(atom: &Atom, names: &[&str]) -> bool
    ensures { result ≡ list_any (λ name. is_same_text name.now (definition_of atom.now).name) names.now }
{
    names
        .iter()
        .any(|name| name.as_bytes() == atom.name().as_bytes())
}
