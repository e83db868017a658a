//! The run of a plant in numbers.
ghost use Rattle.std.specs.Prelude.{◌≡◌, [], IfOk};
ghost use Rattle.run_text.specs.Seen.{Prints, plant_of};
ghost use Rattle.run_summary.specs.Lines.{asked_text, fired_line, summary_text};
ghost use Rattle.run_summary.specs.Totals.{totals_of};

use crate::atom_summary::AtomSummary;
use crate::connectors::print_connectors;
use crate::counts::Counts;
use crate::listing::Listing;
use crate::moves::{add_moves, unmoved};
use crate::transitions::print_transitions;
use crate::variables::print_variables;
use plant_model::System;
use run_text::{Firing, Telling};
use std::alloc::{AllocError, Global};
use std::io::Write;
use std::marker::Model;
use step_core::Stepper;
use text_io::{WriteFault, end_line, print_number, print_text};

/// What was fired in a plant, in numbers. A run that is told to it adds to what it has; it prints nothing of the run. A count that would be
/// more than 2^64 - 1 stays there.
#[derive(Drop)]
pub struct Summary {
    fired: u64,
    connectors: Counts,
    atoms: Vec<AtomSummary>,
}

impl Model for Summary {
    ghost use Rattle.run_summary.specs.Totals.{Totals};

    ghost Value = { Totals };

    ghost view = { λ s. record { fired = s.fired; connectors = s.connectors; atoms = s.atoms.items } };
}

impl Summary {
    /// Nothing was fired in the plant. It takes all the memory that a summary needs.
    pub fn of(alloc: Global, system: &System) -> Result<Self, AllocError>
        ensures { IfOk result (λ summary. summary ≡ totals_of (plant_of system.now) []) }
    {
        let connectors = Counts::none(alloc, system.wires().len())?;
        let atoms = unmoved(alloc, system.atoms())?;
        Ok(Summary {
            fired: 0,
            connectors,
            atoms,
        })
    }

    /// Prints how many interactions were fired of the plant, and of how many that were asked for, if that is known; each connector and each
    /// transition with how often it came; each variable with its least and its greatest value; and then the connectors and the transitions
    /// that never came.
    pub fn print_summary<W: Write>(
        &self,
        system: &System,
        asked: Option<u64>,
        output: &mut W,
    ) -> Result<(), WriteFault>
        ensures { Prints result (W.contents output.old) (W.contents output.new) (summary_text (plant_of system.now) asked self.now) }
    {
        let wires = system.wires();
        let atoms = system.atoms();
        print_fired(self.fired, asked, output)?;
        print_connectors(Listing::All, wires, &self.connectors, output)?;
        print_transitions(Listing::All, atoms, &self.atoms, output)?;
        print_variables(atoms, &self.atoms, output)?;
        print_connectors(Listing::Never, wires, &self.connectors, output)?;
        print_transitions(Listing::Never, atoms, &self.atoms, output)
    }
}

/// Prints how many interactions were fired, and of how many that were asked for, if that is known.
fn print_fired<W: Write>(fired: u64, asked: Option<u64>, output: &mut W) -> Result<(), WriteFault>
    ensures { Prints result (W.contents output.old) (W.contents output.new) (fired_line fired asked) }
{
    print_text(output, b"fired ")?;
    print_number(output, fired)?;
    print_asked(asked, output)?;
    end_line(output)
}

/// Prints of how many, behind how many were fired.
fn print_asked<W: Write>(asked: Option<u64>, output: &mut W) -> Result<(), WriteFault>
    ensures { Prints result (W.contents output.old) (W.contents output.new) (asked_text asked) }
{
    match asked {
        Some(asked) => {
            print_text(output, b" of ")?;
            print_number(output, asked)
        }
        None => Ok(()),
    }
}

impl Telling for Summary {
    ghost use Rattle.std.specs.Prelude.{◌≡◌};
    ghost use Rattle.run_text.specs.Steps.{no_parts};
    ghost use Rattle.run_summary.specs.Totals.{totals_of};

    ghost parts = { λ _. no_parts };

    ghost IsReady = { λ summary plant told states. summary ≡ totals_of plant told };

    fn tell_start<W: Write>(&self, _run: &Stepper<'_>, _output: &mut W) -> Result<(), WriteFault> {
        Ok(())
    }

    fn tell_fired<W: Write>(
        &mut self,
        firing: &Firing<'_>,
        run: &Stepper<'_>,
        _output: &mut W,
    ) -> Result<(), WriteFault> {
        let choice = firing.choice;
        self.fired = self.fired.saturating_add(1);
        self.connectors.count(usize::from(choice.connector));
        add_moves(&mut self.atoms, choice.moves.as_slice(), run.states());
        Ok(())
    }

    fn tell_stuck<W: Write>(&self, _run: &Stepper<'_>, _output: &mut W) -> Result<(), WriteFault> {
        Ok(())
    }

    fn tell_end<W: Write>(
        &self,
        _fired: u64,
        _run: &Stepper<'_>,
        _output: &mut W,
    ) -> Result<(), WriteFault> {
        Ok(())
    }
}
