//! The events of a script, asked and answered.
ghost use Rattle.std.specs.Prelude.{◌≡◌, ◌∷◌, [], length, IfOk, OnErr};
ghost use Rattle.plant_core.specs.Events.{has_failed, is_disk};
ghost use Rattle.plant_core.specs.Handed.{hands_of};
ghost use Rattle.plant_core.specs.Hands.{AreHandsFor};
ghost use Rattle.plant_core.specs.Plants.{definition_of, device_of, text_digest, view_of};
ghost use Rattle.script_lines.specs.Runs.{IsAnswered, IsCutRun, IsRunOf};

use crate::answers::print_happened;
use crate::standing::print_standing;
use disk_model::Disk;
use plant_core::{Event, Hands, Happened, Plant, Refused, meet};
use std::io::Write;
use text_io::{WriteFault, end_line, hand_on};

/// Asks events of a plant, one after another, and prints a line for the answer of each; after them, where the plant then
/// stands. A state that is asked for goes into the hand of its atom, and what is in the hand is stored if that is asked; a job of a choice that
/// begins goes there too, and is done and handed in if that is asked. It tells whether the device failed in some call; then each later call is
/// refused as broken.
///
/// The output is flushed before each event that makes calls of the device, and at the end: so an acknowledgement never waits in a buffer while the
/// device works, and a run that flushes after each choice writes once a flush. No memory is taken.
pub fn run_script<'s, D: Disk, W: Write>(
    plant: &mut Plant<'s, D>,
    hands: &mut Hands<'s>,
    events: &[Event],
    output: &mut W,
) -> Result<bool, WriteFault>
    requires { AreHandsFor (length (definition_of plant.old).atoms) (hands_of hands.old) }
    ensures run { IfOk result (λ failed. IsRunOf (definition_of plant.old) (text_digest plant.old) (view_of plant.old) (device_of plant.old) (hands_of hands.old) events.now failed (view_of plant.new) (device_of plant.new) (hands_of hands.new) (W.contents output.old) (W.contents output.new)) }
    ensures cut { OnErr result (IsCutRun (definition_of plant.old) (text_digest plant.old) (view_of plant.old) (device_of plant.old) (hands_of hands.old) events.now (view_of plant.new) (device_of plant.new) (hands_of hands.new)) }
    ensures as_many { AreHandsFor (length (definition_of plant.old).atoms) (hands_of hands.new) }
    ensures plant { definition_of plant.new ≡ definition_of plant.old }
    ensures digest { text_digest plant.new ≡ text_digest plant.old }
{
    plant.stands_for_a_front();
    plant.tail_is_a_run();
    let mut failed = false;
    for event in events {
        let happened = answer(plant, hands, event, output)?;
        failed |= has_failed(&happened);
    }
    print_standing(plant, output)?;
    hand_on(output)?;
    Ok(failed)
}

/// Asks an event of the plant, and prints the line of its answer; the output is flushed before an event that makes calls of the device. It gives
/// what happened.
pub fn answer<'s, D: Disk, W: Write>(
    plant: &mut Plant<'s, D>,
    hands: &mut Hands<'s>,
    event: &Event,
    output: &mut W,
) -> Result<Happened, WriteFault>
    requires { AreHandsFor (length (definition_of plant.old).atoms) (hands_of hands.old) }
    ensures answered { IfOk result (λ happened. IsAnswered (definition_of plant.old) (text_digest plant.old) (view_of plant.old) (device_of plant.old) (hands_of hands.old) event.now happened (view_of plant.new) (device_of plant.new) (hands_of hands.new) (W.contents output.old) (W.contents output.new)) }
    ensures cut { OnErr result (IsCutRun (definition_of plant.old) (text_digest plant.old) (view_of plant.old) (device_of plant.old) (hands_of hands.old) (event.now ∷ []) (view_of plant.new) (device_of plant.new) (hands_of hands.new)) }
    ensures as_many { AreHandsFor (length (definition_of plant.old).atoms) (hands_of hands.new) }
    ensures plant { definition_of plant.new ≡ definition_of plant.old }
    ensures digest { text_digest plant.new ≡ text_digest plant.old }
{
    plant.stands_for_a_front();
    match event {
        Event::Fire(_, _)
        | Event::FireChoice(_, _)
        | Event::Ask(_)
        | Event::Begin(_, _)
        | Event::Back(_) => tell(plant, hands, event, output),
        Event::Flush | Event::Put(_) | Event::Save | Event::Trim => {
            hand_on(output)?;
            tell(plant, hands, event, output)
        }
    }
}

/// Asks an event of the plant, and prints the line of its answer.
fn tell<'s, D: Disk, W: Write>(
    plant: &mut Plant<'s, D>,
    hands: &mut Hands<'s>,
    event: &Event,
    output: &mut W,
) -> Result<Happened, WriteFault>
    requires { AreHandsFor (length (definition_of plant.old).atoms) (hands_of hands.old) }
    ensures answered { IfOk result (λ happened. IsAnswered (definition_of plant.old) (text_digest plant.old) (view_of plant.old) (device_of plant.old) (hands_of hands.old) event.now happened (view_of plant.new) (device_of plant.new) (hands_of hands.new) (W.contents output.old) (W.contents output.new)) }
    ensures cut { OnErr result (IsCutRun (definition_of plant.old) (text_digest plant.old) (view_of plant.old) (device_of plant.old) (hands_of hands.old) (event.now ∷ []) (view_of plant.new) (device_of plant.new) (hands_of hands.new)) }
    ensures as_many { AreHandsFor (length (definition_of plant.old).atoms) (hands_of hands.new) }
    ensures plant { definition_of plant.new ≡ definition_of plant.old }
    ensures digest { text_digest plant.new ≡ text_digest plant.old }
{
    let happened = meet(plant, hands, event);
    print_happened(plant.system(), &happened, output)?;
    end_line(output)?;
    Ok(happened)
}

/// Whether the device failed in this call.
pub fn has_failed(happened: &Happened) -> bool
    ensures { result ≡ has_failed happened.now }
{
    match happened {
        Happened::Fire(_, _, answer) | Happened::Begin(_, _, answer) => is_disk(answer),
        Happened::FireChoice(_, _, Some(answer)) => is_disk(answer),
        Happened::FireChoice(_, _, None) => false,
        Happened::Flush(answer) | Happened::Put(_, answer) | Happened::Trim(answer) => is_disk(
            answer,
        ),
        Happened::Ask(_, answer) => is_disk(answer),
        Happened::Save(answer) => is_disk(answer),
        Happened::Back(_, answer) => is_disk(answer),
        Happened::Empty(_) | Happened::Idle(_) => false,
    }
}

/// Whether the answer is that the device failed.
fn is_disk<T>(answer: &Result<T, Refused>) -> bool
    ensures { result ≡ is_disk answer.now }
{
    matches!(answer, Err(Refused::Disk))
}
