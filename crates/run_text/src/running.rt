//! The run that picks choose, printed and saved.
ghost use Rattle.std.specs.Prelude.{◌≡◌, ◌≢◌, ◌∷◌, ℕ, Err, IfOk, IfSome, None, OnOk, option_map};
ghost use Rattle.std.specs.Io.KnownBytes.{Appends};
ghost use Rattle.run_text.specs.Seen.{ChoiceDefinition, IsAllowed, Prints, alone, choice_of, initial_states, next, plant_in, plant_of, states_in, system_in};
ghost use Rattle.run_text.specs.History.{History, told_after};
ghost use Rattle.run_text.specs.Picks.{Gives, pick_of, take_of};
ghost use Rattle.run_text.specs.Ran.{IfRan, OnRan};
ghost use Rattle.run_text.specs.Runs.{chosen, refusal_in, state_after};
ghost use Rattle.run_text.specs.Steps.{printed_from, run_printed, saved_from, saved_line};
ghost use Rattle.run_text.specs.Taken.{fires, taken_as};
ghost use Rattle.run_text.specs.Told.{IsTold};
ghost use Rattle.run_text.specs.Watched.{left_behind, reached_by, watched};
ghost use Rattle.run_text.specs.declared.fault.TraceFault.TheVariants.{Memory};

use crate::fault::{ReadFault, Refusal, TraceFault};
use crate::fired::{Firing, print_saved_line};
use crate::pick::{Pick, Take};
use crate::picks::Picks;
use crate::taking::{Taking, taken_after};
use crate::telling::Telling;
use crate::watching::{Reached, Watching};
use connector_tree::MAX_LEAVES;
use petri_atom::Delivered;
use plant_model::{Choice, System, no_deliveries};
use std::alloc::Global;
use std::io::Write;
use step_core::Stepper;
use text_io::WriteFault;

/// Prints the run of a plant from its first states on as `telling` does: its start, and then what [`run_picks`] prints and saves.
/// Memory is taken before anything is printed, and none after it.
pub fn tell_run<P: Picks, V: Watching, T: Telling, W: Write, S: Write>(
    alloc: Global,
    system: &System,
    picks: &mut P,
    watching: &V,
    telling: &mut T,
    output: &mut W,
    saved: &mut S,
) -> Result<Option<Reached>, TraceFault>
    requires { (told : History) × T.IsReady telling.old (plant_of system.now) told (initial_states (plant_of system.now)) }
    ensures told { IsTold W.contents S.contents (run_printed (T.parts telling.old)) (plant_of system.now)
        (V.taken watching.now (plant_of system.now) (initial_states (plant_of system.now)) (P.left picks.old)) result output.old output.new saved.old saved.new }
    ensures reached { IfOk result (λ reached. IfSome (V.taken watching.now (plant_of system.now) (initial_states (plant_of system.now)) (P.left picks.old))
        (λ left. reached ≡ reached_by (V.held watching.now) (plant_of system.now) (initial_states (plant_of system.now)) left)) }
    ensures ready { (told : History) → T.IsReady telling.old (plant_of system.now) told (initial_states (plant_of system.now)) →
        OnRan result (IfSome (V.taken watching.now (plant_of system.now) (initial_states (plant_of system.now)) (P.left picks.old))
        (λ left. T.IsReady telling.new (plant_of system.now)
        (told_after (plant_of system.now) (initial_states (plant_of system.now)) (chosen (plant_of system.now) (initial_states (plant_of system.now)) 1 left) told)
        (state_after (plant_of system.now) (initial_states (plant_of system.now)) left))) }
{
    let mut run = Stepper::first(alloc, system)?;
    telling.tell_start(&run, output)?;
    run_picks(&mut run, picks, watching, telling, output, saved)
}

/// Fires what the picks take, from the present state on, and prints it as `telling` does. Each fired interaction is also written to
/// `saved`, as a line of its own that can be read as a pick. To save nothing, give [`std::io::sink`].
///
/// The first fired interaction has the number 1. Where a state has no choice, or the weights of a random pick leave none, the picks that
/// are left are passed over; after a pick that is refused nothing more is printed. Before each pick, and after the last, it is judged
/// whether what `watching` watches for holds: there the run ends, and the answer says where that is. `telling` then knows what was fired.
/// It takes no memory.
pub fn run_picks<P: Picks, V: Watching, T: Telling, W: Write, S: Write>(
    run: &mut Stepper<'_>,
    picks: &mut P,
    watching: &V,
    telling: &mut T,
    output: &mut W,
    saved: &mut S,
) -> Result<Option<Reached>, TraceFault>
    requires { (told : History) × T.IsReady telling.old (plant_in run.old) told (states_in run.old) }
    ensures system { system_in run.new ≡ system_in run.old }
    ensures plant { plant_in run.new ≡ plant_in run.old }
    ensures states { OnRan result (IfSome (V.taken watching.now (plant_in run.old) (states_in run.old) (P.left picks.old))
        (λ left. states_in run.new ≡ state_after (plant_in run.old) (states_in run.old) left)) }
    ensures refusal { IfRan result (λ refusal. IfSome (V.taken watching.now (plant_in run.old) (states_in run.old) (P.left picks.old))
        (λ left. refusal ≡ refusal_in (plant_in run.old) (states_in run.old) 1 left)) }
    ensures printed { OnRan result (IfSome (V.taken watching.now (plant_in run.old) (states_in run.old) (P.left picks.old))
        (λ left. Appends (W.contents output.old) (W.contents output.new) (printed_from (T.parts telling.old) (plant_in run.old) (states_in run.old) 1 left))) }
    ensures saved { OnRan result (IfSome (V.taken watching.now (plant_in run.old) (states_in run.old) (P.left picks.old))
        (λ left. Appends (S.contents saved.old) (S.contents saved.new) (saved_from (plant_in run.old) (states_in run.old) 1 left))) }
    ensures reached { IfOk result (λ reached. IfSome (V.taken watching.now (plant_in run.old) (states_in run.old) (P.left picks.old))
        (λ left. reached ≡ reached_by (V.held watching.now) (plant_in run.old) (states_in run.old) left)) }
    ensures ready { (told : History) → T.IsReady telling.old (plant_in run.old) told (states_in run.old) →
        OnRan result (IfSome (V.taken watching.now (plant_in run.old) (states_in run.old) (P.left picks.old))
        (λ left. T.IsReady telling.new (plant_in run.old) (told_after (plant_in run.old) (states_in run.old) (chosen (plant_in run.old) (states_in run.old) 1 left) told)
        (state_after (plant_in run.old) (states_in run.old) left))) }
    ensures no_memory { result ≢ Err Memory }
{
    let mut fired = 0;
    let mut delivered = no_deliveries();
    while let Some(pick) = next_watched(picks, watching, run)? {
        let Pick { place, take } = pick;
        match taken_after(run, fired, take) {
            Taking::Fires(choice) => {
                fired += 1;
                fire_and_print(fired, run, &choice, &mut delivered, telling, output, saved)?;
            }
            Taking::Stuck => {
                telling.tell_stuck(run, output)?;
                break;
            }
            Taking::Refused(why) => return Err(TraceFault::Refused(Refusal { place, why })),
        }
    }
    telling.tell_end(fired, run, output)?;
    Ok(reached_after(fired, watching, run))
}

/// The next pick, unless something holds in the present state that is watched for. In a state with no choice there is then one more, so that the
/// run tells that it is stuck.
fn next_watched<P: Picks, V: Watching>(
    picks: &mut P,
    watching: &V,
    run: &Stepper<'_>,
) -> Result<Option<Pick>, ReadFault>
    ensures gives { IfOk result (λ next. (number : ℕ) → Gives (watched (V.held watching.now) (plant_in run.now) (states_in run.now) number (P.left picks.old))
        (left_behind (V.held watching.now) (plant_in run.now) (states_in run.now) number (option_map pick_of next) (P.left picks.new)) next) }
    ensures unheld { IfOk result (λ next. IfSome next (λ pick. (number : ℕ) (c : ChoiceDefinition) → taken_as (plant_in run.now) (states_in run.now) number (take_of pick.take) ≡ fires c
        → V.held watching.now (plant_in run.now) (states_in run.now) ≡ None)) }
{
    if watching.first_held(run).is_none() {
        return picks.next_pick();
    }
    if run.count() == 0 {
        return Ok(Some(Pick {
            place: 0,
            take: Take::Counted(0),
        }));
    }
    Ok(None)
}

/// Where a run has ended after so many fired interactions, if something holds there that it is watched for.
fn reached_after<V: Watching>(fired: u64, watching: &V, run: &Stepper<'_>) -> Option<Reached>
    ensures { result ≡ option_map (λ watch. record { number = fired; watch = watch }) (V.held watching.now (plant_in run.now) (states_in run.now)) }
{
    let watch = watching.first_held(run)?;
    Some(Reached {
        number: fired,
        watch,
    })
}

/// Fires a choice of the present state, prints it with this number, and saves its line; `delivered` is for what it delivers.
fn fire_and_print<T: Telling, W: Write, S: Write>(
    number: u64,
    run: &mut Stepper<'_>,
    choice: &Choice,
    delivered: &mut [Delivered; MAX_LEAVES],
    telling: &mut T,
    output: &mut W,
    saved: &mut S,
) -> Result<(), WriteFault>
    requires allowed { IsAllowed (plant_in run.old) (states_in run.old) (choice_of choice.now) }
    requires ready { (told : History) × T.IsReady telling.old (plant_in run.old) told (states_in run.old) }
    ensures system { system_in run.new ≡ system_in run.old }
    ensures plant { plant_in run.new ≡ plant_in run.old }
    ensures next { states_in run.new ≡ next (plant_in run.old) (states_in run.old) (alone (choice_of choice.now)) }
    ensures same { T.parts telling.new ≡ T.parts telling.old }
    ensures ready { (told : History) → T.IsReady telling.old (plant_in run.old) told (states_in run.old) →
        OnOk result (T.IsReady telling.new (plant_in run.new) (record { before = states_in run.old; choice = choice_of choice.now } ∷ told) (states_in run.new)) }
    ensures printed { Prints result (W.contents output.old) (W.contents output.new) ((T.parts telling.old).fired (plant_in run.old) (states_in run.old) number (choice_of choice.now)) }
    ensures saved { Prints result (S.contents saved.old) (S.contents saved.new) (saved_line (plant_in run.old) (choice_of choice.now)) }
{
    run.fire_telling(choice, &[], delivered);
    let firing = Firing {
        number,
        choice,
        delivered,
    };
    telling.tell_fired(&firing, run, output)?;
    print_saved_line(run.system(), choice, saved)
}
