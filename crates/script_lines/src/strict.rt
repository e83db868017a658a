//! A run that ends at the first refusal.
ghost use Rattle.std.specs.Prelude.{◌≡◌, ◌∷◌, [], length, option_map, IfOk, OnErr};
ghost use Rattle.plant_core.specs.Handed.{hands_of};
ghost use Rattle.plant_core.specs.Hands.{AreHandsFor};
ghost use Rattle.plant_core.specs.Plants.{definition_of, device_of, text_digest, view_of};
ghost use Rattle.script_lines.specs.Runs.{IsCutRun};
ghost use Rattle.script_lines.specs.Strict.{AreAskedStrictly, IsStrictRun, is_past, is_past_all, refusal_in, refusal_of, stop_at};

use crate::answers::{atom_in, print_not_now, refused_name};
use crate::run::answer;
use crate::standing::print_standing;
use disk_model::Disk;
use plant_core::{Event, Hands, Happened, Plant, Refused};
use std::fmt;
use std::io::Write;
use text_io::{WriteFault, end_line, hand_on};

/// Why a strict run ended before its last event.
#[derive(Clone, Copy, Debug, PartialEq, Eq)]
pub enum Refusal {
    /// The plant refused the event.
    Refused(Refused),
    /// The plant did not have the choice that was to be fired, or not so many choices as the pick asks for.
    NotNow,
}

impl Refusal {
    ghost use Rattle.script_lines.specs.Strict.{is_failure};

    /// Whether the device failed in the call.
    pub fn is_failure(&self) -> bool
        ensures { result ≡ is_failure self.now }
    {
        matches!(self, Refusal::Refused(Refused::Disk))
    }
}

impl fmt::Display for Refusal {
    ghost use Rattle.std.specs.Prelude.{Some};
    ghost use Rattle.script_lines.specs.Strict.{refusal_line};

    ghost output = { λ refusal. Some (refusal_line refusal) };

    fn fmt<W: fmt::Write>(&self, f: &mut fmt::Formatter<W>) -> fmt::Result {
        match self {
            Refusal::NotNow => f.write_str("refused 12 NotNow"),
            Refusal::Refused(refused) => {
                let name = refused_name(*refused);
                match atom_in(*refused) {
                    Some(atom) => write!(f, "refused {} {name}({atom})", refused.number()),
                    None => write!(f, "refused {} {name}", refused.number()),
                }
            }
        }
    }
}

/// Where a strict run ended.
#[derive(Clone, Copy, Debug, PartialEq, Eq)]
pub struct Stop {
    /// The place of the event among all, from 0.
    pub place: usize,
    /// Why it was refused.
    pub refusal: Refusal,
}

/// Asks events of a plant as [`run_script`](crate::run_script) does, until one is refused: that is the last, and its answer is printed too. A
/// pick past the choices that the plant has is not taken modulo their number, but refused, if there is a choice. It tells where the run ended.
pub fn run_strictly<'s, D: Disk, W: Write>(
    plant: &mut Plant<'s, D>,
    hands: &mut Hands<'s>,
    events: &[Event],
    output: &mut W,
) -> Result<Option<Stop>, WriteFault>
    requires { AreHandsFor (length (definition_of plant.old).atoms) (hands_of hands.old) }
    ensures run { IfOk result (λ stop. IsStrictRun (definition_of plant.old) (text_digest plant.old) (view_of plant.old) (device_of plant.old) (hands_of hands.old) events.now stop (view_of plant.new) (device_of plant.new) (hands_of hands.new) (W.contents output.old) (W.contents output.new)) }
    ensures cut { OnErr result (IsCutRun (definition_of plant.old) (text_digest plant.old) (view_of plant.old) (device_of plant.old) (hands_of hands.old) events.now (view_of plant.new) (device_of plant.new) (hands_of hands.new)) }
    ensures as_many { AreHandsFor (length (definition_of plant.old).atoms) (hands_of hands.new) }
    ensures plant { definition_of plant.new ≡ definition_of plant.old }
    ensures digest { text_digest plant.new ≡ text_digest plant.old }
{
    let stop = ask_in_turn(plant, hands, events, output)?;
    print_standing(plant, output)?;
    hand_on(output)?;
    Ok(stop)
}

/// Asks events of the plant, one after another, until one is refused, and prints the line of each answer.
fn ask_in_turn<'s, D: Disk, W: Write>(
    plant: &mut Plant<'s, D>,
    hands: &mut Hands<'s>,
    events: &[Event],
    output: &mut W,
) -> Result<Option<Stop>, WriteFault>
    requires { AreHandsFor (length (definition_of plant.old).atoms) (hands_of hands.old) }
    ensures asked { IfOk result (λ stop. AreAskedStrictly (definition_of plant.old) (text_digest plant.old) (view_of plant.old) (device_of plant.old) (hands_of hands.old) events.now stop (view_of plant.new) (device_of plant.new) (hands_of hands.new) (W.contents output.old) (W.contents output.new)) }
    ensures cut { OnErr result (IsCutRun (definition_of plant.old) (text_digest plant.old) (view_of plant.old) (device_of plant.old) (hands_of hands.old) events.now (view_of plant.new) (device_of plant.new) (hands_of hands.new)) }
    ensures as_many { AreHandsFor (length (definition_of plant.old).atoms) (hands_of hands.new) }
    ensures plant { definition_of plant.new ≡ definition_of plant.old }
    ensures digest { text_digest plant.new ≡ text_digest plant.old }
{
    plant.stands_for_a_front();
    plant.tail_is_a_run();
    for (place, event) in events.iter().enumerate() {
        if let Some(refusal) = ask_strictly(plant, hands, event, output)? {
            return Ok(Some(Stop { place, refusal }));
        }
    }
    Ok(None)
}

/// Asks one event of the plant, unless its pick is past the choices, prints the line of the answer, and tells why it was refused, if it was.
fn ask_strictly<'s, D: Disk, W: Write>(
    plant: &mut Plant<'s, D>,
    hands: &mut Hands<'s>,
    event: &Event,
    output: &mut W,
) -> Result<Option<Refusal>, WriteFault>
    requires { AreHandsFor (length (definition_of plant.old).atoms) (hands_of hands.old) }
    ensures asked { IfOk result (λ refusal. AreAskedStrictly (definition_of plant.old) (text_digest plant.old) (view_of plant.old) (device_of plant.old) (hands_of hands.old) (event.now ∷ []) (option_map (stop_at 0) refusal) (view_of plant.new) (device_of plant.new) (hands_of hands.new) (W.contents output.old) (W.contents output.new)) }
    ensures cut { OnErr result (IsCutRun (definition_of plant.old) (text_digest plant.old) (view_of plant.old) (device_of plant.old) (hands_of hands.old) (event.now ∷ []) (view_of plant.new) (device_of plant.new) (hands_of hands.new)) }
    ensures as_many { AreHandsFor (length (definition_of plant.old).atoms) (hands_of hands.new) }
    ensures plant { definition_of plant.new ≡ definition_of plant.old }
    ensures digest { text_digest plant.new ≡ text_digest plant.old }
{
    plant.stands_for_a_front();
    if is_past(plant, event) {
        print_not_now(output)?;
        end_line(output)?;
        return Ok(Some(Refusal::NotNow));
    }
    let happened = answer(plant, hands, event, output)?;
    Ok(refusal_in(&happened))
}

/// Whether the event has a pick that is past the choices that the plant has, if it has any.
fn is_past<D: Disk>(plant: &Plant<'_, D>, event: &Event) -> bool
    ensures { result ≡ is_past (definition_of plant.now) (view_of plant.now) event.now }
{
    match event {
        Event::Fire(pick, _) | Event::Begin(pick, _) => is_past_all(*pick, plant.count()),
        _ => false,
    }
}

/// Whether the pick is past so many choices, if there is one.
fn is_past_all(pick: u128, count: u128) -> bool
    ensures { result ≡ is_past_all pick count }
{
    count != 0 && count <= pick
}

/// Why the plant refused an event, if it did.
fn refusal_in(happened: &Happened) -> Option<Refusal>
    ensures { result ≡ refusal_in happened.now }
{
    match happened {
        Happened::Fire(_, _, answer) | Happened::Begin(_, _, answer) => refusal_of(answer),
        Happened::FireChoice(_, _, Some(answer)) => refusal_of(answer),
        Happened::FireChoice(_, _, None) => Some(Refusal::NotNow),
        Happened::Flush(answer) | Happened::Put(_, answer) | Happened::Trim(answer) => refusal_of(
            answer,
        ),
        Happened::Ask(_, answer) => refusal_of(answer),
        Happened::Save(answer) => refusal_of(answer),
        Happened::Back(_, answer) => refusal_of(answer),
        Happened::Empty(_) | Happened::Idle(_) => None,
    }
}

/// Why the answer is a refusal, if it is one.
fn refusal_of<T>(answer: &Result<T, Refused>) -> Option<Refusal>
    ensures { result ≡ refusal_of answer.now }
{
    match answer {
        Ok(_) => None,
        Err(refused) => Some(Refusal::Refused(*refused)),
    }
}
