//! The list of what can be fired next.
ghost use Rattle.std.specs.Prelude.{◌≡◌, ◌≢◌, ◌-◌, ◌≤◌, Err, IfOk, IfSome, OnOk, length, take};
ghost use Rattle.std.specs.Io.KnownBytes.{Appends};
ghost use Rattle.run_text.specs.Seen.{Prints, choices, initial_states, plant_in, plant_of, states_in, system_in};
ghost use Rattle.run_text.specs.Choices.{choice_text, choices_after, choices_text, more_text};
ghost use Rattle.run_text.specs.Ran.{IfRan};
ghost use Rattle.run_text.specs.Runs.{refusal_of, state_after};
ghost use Rattle.text_io.specs.Numbered.{numbered};
ghost use Rattle.run_text.specs.declared.fault.TraceFault.{TraceFault};
ghost use Rattle.run_text.specs.declared.fault.TraceFault.TheVariants.{Write as WriteFailed};

use crate::fault::TraceFault;
use crate::fired::print_choice;
use crate::picks::Picks;
use crate::running::run_picks;
use crate::telling::Silence;
use crate::watching::Unwatched;
use plant_model::System;
use std::alloc::Global;
use std::io;
use std::io::Write;
use step_core::{Listed, Stepper};
use text_io::{WriteFault, end_line, print_text};

/// How many choices of a state are listed at most.
pub const MOST_LISTED: u64 = 1_000;

/// Prints the choices that a plant has after some picks: from its first state on each is taken as [`run_picks`] takes it, and then
/// [`print_choices`] lists the choices of the state at the end. Where a pick is refused nothing is printed.
pub fn print_choices_after<P: Picks, W: Write>(
    alloc: Global,
    system: &System,
    picks: &mut P,
    output: &mut W,
) -> Result<(), TraceFault>
    ensures refusal { IfRan result (λ refusal. IfSome (P.left picks.old) (λ left. refusal ≡ refusal_of (plant_of system.now) left)) }
    ensures choices { OnOk result (IfSome (P.left picks.old) (λ left. Appends (W.contents output.old) (W.contents output.new)
        (choices_after (plant_of system.now) left))) }
    ensures nothing_written { (fault : TraceFault) → result ≡ Err fault → fault ≢ WriteFailed → output.new ≡ output.old }
{
    let run = run_after(alloc, system, picks)?;
    print_choices(system, &run, output)?;
    Ok(())
}

/// The plant after some picks: from its first state on each is taken as [`run_picks`] takes it. It writes nothing.
pub fn run_after<'s, P: Picks>(
    alloc: Global,
    system: &'s System,
    picks: &mut P,
) -> Result<Stepper<'s>, TraceFault>
    ensures system { IfOk result (λ run. system_in run ≡ system.now) }
    ensures plant { IfOk result (λ run. plant_in run ≡ plant_of system.now) }
    ensures refusal { IfRan result (λ refusal. IfSome (P.left picks.old) (λ left. refusal ≡ refusal_of (plant_of system.now) left)) }
    ensures states { IfOk result (λ run. IfSome (P.left picks.old) (λ left.
        states_in run ≡ state_after (plant_of system.now) (initial_states (plant_of system.now)) left)) }
{
    let mut run = Stepper::first(alloc, system)?;
    run_picks(
        &mut run,
        picks,
        &Unwatched,
        &mut Silence,
        &mut io::sink(),
        &mut io::sink(),
    )?;
    Ok(run)
}

/// Prints the choices that a plant of the system has now, each on a line: the number by which a pick takes it, from 0, its connector, and
/// its participants. After [`MOST_LISTED`] of them one line says how many more there are. If there is no choice, the line is `stuck`.
pub fn print_choices<L: Listed, W: Write>(
    system: &System,
    run: &L,
    output: &mut W,
) -> Result<(), WriteFault>
    ensures { Prints result (W.contents output.old) (W.contents output.new) (choices_text (plant_of system.now) (L.listed run.now)) }
{
    let count = run.how_many();
    if count == 0 {
        return print_text(output, b"stuck\n");
    }
    let listed = count.min(u128::from(MOST_LISTED)) as u64;
    print_listed(system, run, listed, output)?;
    print_more(count - u128::from(listed), output)
}

/// Prints the first choices.
fn print_listed<L: Listed, W: Write>(
    system: &System,
    run: &L,
    listed: u64,
    output: &mut W,
) -> Result<(), WriteFault>
    requires { listed ≤ length (L.listed run.now) }
    ensures { Prints result (W.contents output.old) (W.contents output.new) (numbered (choice_text (plant_of system.now)) 0 (take listed (L.listed run.now))) }
{
    let mut place = 0;
    while place < listed {
        print_choice(place, system, &run.entry(u128::from(place)), output)?;
        end_line(output)?;
        place += 1;
    }
    Ok(())
}

/// Prints how many more choices there are, if there are any.
fn print_more<W: Write>(more: u128, output: &mut W) -> Result<(), WriteFault>
    ensures { Prints result (W.contents output.old) (W.contents output.new) (more_text more) }
{
    if more > 0 {
        writeln!(output, "more {more}")?;
    }
    Ok(())
}
