//! A run that tells at its end where something came that it was watched for.
ghost use Rattle.std.specs.Prelude.{◌≡◌, ◌+◌, decimal};
ghost use Rattle.run_text.specs.Seen.{Prints, plant_in, plant_of, states_in};
ghost use Rattle.run_watches.specs.Watches.{first_of};
ghost use Rattle.plant_tasks.specs.Reached.{are_several, named_if, named_text, reached_object, reached_part, reached_row, reached_text, reached_words};

use command_line::Shape;
use run_states::print_present;
use run_text::{Firing, PlantAt, Telling, Watching};
use run_watches::Watches;
use std::io::Write;
use step_core::Stepper;
use text_io::{Format, WriteFault, end_line, print_number, print_text};

/// A run that is printed in a shape, and behind its end where it was that something came for which it is watched.
#[derive(Drop)]
pub(crate) struct Reaching<'a, T> {
    /// How the run is printed without this.
    pub(crate) telling: T,
    /// The shape in which that is.
    pub(crate) shape: Shape,
    /// What it is watched for.
    pub(crate) watches: Watches<'a>,
}

impl<T: Telling> Telling for Reaching<'_, T> {
    ghost use Rattle.run_watches.specs.Watches.{first_of};
    ghost use Rattle.plant_tasks.specs.Reached.{are_several, with_reached};

    ghost parts = { λ reaching. with_reached reaching.shape (are_several reaching.watches.watches.now) (first_of reaching.watches.watches.now) (T.parts reaching.telling) };

    ghost IsReady = { λ reaching plant told states. T.IsReady reaching.telling plant told states };

    fn tell_start<W: Write>(&self, run: &Stepper<'_>, output: &mut W) -> Result<(), WriteFault> {
        self.telling.tell_start(run, output)
    }

    fn tell_fired<W: Write>(
        &mut self,
        firing: &Firing<'_>,
        run: &Stepper<'_>,
        output: &mut W,
    ) -> Result<(), WriteFault> {
        self.telling.tell_fired(firing, run, output)
    }

    fn tell_stuck<W: Write>(&self, run: &Stepper<'_>, output: &mut W) -> Result<(), WriteFault> {
        self.telling.tell_stuck(run, output)
    }

    fn tell_end<W: Write>(
        &self,
        fired: u64,
        run: &Stepper<'_>,
        output: &mut W,
    ) -> Result<(), WriteFault> {
        self.telling.tell_end(fired, run, output)?;
        print_where(self.shape, self.watches, fired, run, output)
    }
}

/// Prints where something holds that a run is watched for, if something does in the present state, up to which so many interactions were fired.
fn print_where<W: Write>(
    shape: Shape,
    watches: Watches<'_>,
    fired: u64,
    run: &Stepper<'_>,
    output: &mut W,
) -> Result<(), WriteFault>
    ensures { Prints result (W.contents output.old) (W.contents output.new)
        (reached_part shape (are_several watches.entry.watches.now) (plant_in run.now) (states_in run.now) fired (first_of watches.entry.watches.now (plant_in run.now) (states_in run.now))) }
{
    match watches.first_held(run) {
        Some(watch) => {
            let named = named_if(are_several(watches), watch);
            print_reached(shape, fired, named, &PlantAt::of(run), output)
        }
        None => Ok(()),
    }
}

/// Whether a run is watched for several things.
pub(crate) fn are_several(watches: Watches<'_>) -> bool
    ensures { result ≡ are_several watches.entry.watches.now }
{
    watches.watches.len() > 1
}

/// The place of a watch, if it is to be named.
fn named_if(several: bool, watch: usize) -> Option<usize>
    ensures { result ≡ named_if several watch }
{
    if several { Some(watch) } else { None }
}

/// Prints that something holds in the present state, which has this number, and its place if it is named.
fn print_reached<W: Write>(
    shape: Shape,
    number: u64,
    named: Option<usize>,
    plant: &PlantAt<'_, '_>,
    output: &mut W,
) -> Result<(), WriteFault>
    ensures { Prints result (W.contents output.old) (W.contents output.new) (reached_text shape (plant_of plant.now.system.now) plant.now.states.now number named) }
{
    match shape {
        Shape::Steps(Format::Lines) | Shape::States(Format::Lines) => {
            print_words(number, named, output)?;
            end_line(output)
        }
        Shape::Steps(Format::Csv) => {
            print_row(number, named, output)?;
            end_line(output)
        }
        Shape::States(Format::Csv) => {
            print_row(number, named, output)?;
            print_present(Format::Csv, plant, output)
        }
        Shape::Steps(Format::Jsonl) | Shape::States(Format::Jsonl) => {
            print_object(number, named, output)
        }
        Shape::Waves => {
            print_text(output, b"$comment ")?;
            print_words(number, named, output)?;
            print_text(output, b" $end\n")
        }
    }
}

/// Prints the words that say it.
fn print_words<W: Write>(
    number: u64,
    named: Option<usize>,
    output: &mut W,
) -> Result<(), WriteFault>
    ensures { Prints result (W.contents output.old) (W.contents output.new) (reached_words number named) }
{
    print_text(output, b"reached ")?;
    print_number(output, number)?;
    print_named(b" by ", named, output)
}

/// Prints the columns of a row that say it, without those of a state.
fn print_row<W: Write>(number: u64, named: Option<usize>, output: &mut W) -> Result<(), WriteFault>
    ensures { Prints result (W.contents output.old) (W.contents output.new) (reached_row number named) }
{
    print_text(output, b"reached,")?;
    print_number(output, number)?;
    print_text(output, b",")?;
    print_named(b"", named, output)?;
    print_text(output, b",,")
}

/// Prints the object that says it.
fn print_object<W: Write>(
    number: u64,
    named: Option<usize>,
    output: &mut W,
) -> Result<(), WriteFault>
    ensures { Prints result (W.contents output.old) (W.contents output.new) (reached_object number named) }
{
    print_text(output, b"{\"kind\":\"reached\",\"number\":")?;
    print_number(output, number)?;
    print_named(b",\"watch\":", named, output)?;
    print_text(output, b"}\n")
}

/// Prints the place of the watch, from 1, behind this text, if it is named.
fn print_named<W: Write>(
    before: &[u8],
    named: Option<usize>,
    output: &mut W,
) -> Result<(), WriteFault>
    ensures { Prints result (W.contents output.old) (W.contents output.new) (named_text before.now named) }
{
    match named {
        Some(watch) => {
            print_text(output, before)?;
            print_place(watch, output)
        }
        None => Ok(()),
    }
}

/// Prints the place of a watch, from 1.
fn print_place<W: Write>(watch: usize, output: &mut W) -> Result<(), WriteFault>
    ensures { Prints result (W.contents output.old) (W.contents output.new) (decimal (watch + 1)) }
{
    let place = watch as u128 + 1;
    write!(output, "{place}")?;
    Ok(())
}
