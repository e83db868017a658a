//! What a pick takes in the present state.
ghost use Rattle.std.specs.Prelude.{◌≡◌, ◌+◌, IfSome, option_map};
ghost use Rattle.run_text.specs.Seen.{IsAllowed, choice_of, choices, plant_in, states_in};
ghost use Rattle.run_text.specs.Picks.{counted, named, numbered, take_of, weighted};
ghost use Rattle.run_text.specs.Taken.{is_among, picked, taken, taken_as};
ghost use Rattle.run_text.specs.Taking.{taking_of};

use crate::fault::RefusedPick;
use crate::pick::Take;
use crate::weighted::by_weight;
use crate::weights::Weights;
use plant_model::Choice;
use step_core::Stepper;

/// What comes of a pick.
#[derive(Drop)]
pub enum Taking {
    /// This choice is fired.
    Fires(Choice),
    /// Nothing is fired any more: there is no choice, or the weights of a random pick leave none.
    Stuck,
    /// The pick is refused.
    Refused(RefusedPick),
}

/// What comes of a pick after so many fired interactions. It is refused if the next one would have a number of more than 64 bits.
pub fn taken_after(run: &Stepper<'_>, fired: u64, take: Take) -> Taking
    ensures { taking_of result ≡ taken_as (plant_in run.now) (states_in run.now) (fired + 1) (take_of take) }
{
    if fired == u64::MAX {
        Taking::Refused(RefusedPick::TooMany)
    } else {
        taken(run, take)
    }
}

/// What comes of a pick.
fn taken(run: &Stepper<'_>, take: Take) -> Taking
    ensures { taking_of result ≡ taken (plant_in run.now) (states_in run.now) (take_of take) }
{
    match take {
        Take::Counted(number) => taken_modulo(run, number),
        Take::Weighted(number, weights) => taken_by_weight(run, number, &weights),
        Take::Numbered(number) => taken_at(run, number),
        Take::Named(choice) => taken_by_name(run, choice),
        Take::Misread(misread) => Taking::Refused(RefusedPick::Misread(misread)),
    }
}

/// What a number takes modulo how many choices there are.
fn taken_modulo(run: &Stepper<'_>, number: u64) -> Taking
    ensures { taking_of result ≡ taken (plant_in run.now) (states_in run.now) (counted number) }
{
    match picked(run, number) {
        Some(choice) => Taking::Fires(choice),
        None => Taking::Stuck,
    }
}

/// The choice that the number takes, modulo how many there are; `None` if the present state has no choice.
pub fn picked(run: &Stepper<'_>, pick: u64) -> Option<Choice>
    ensures choice { option_map choice_of result ≡ picked (plant_in run.now) (states_in run.now) pick }
    ensures allowed { IfSome result (λ choice. IsAllowed (plant_in run.now) (states_in run.now) (choice_of choice)) }
{
    match run.count() {
        0 => None,
        count => Some(run.nth(u128::from(pick) % count)),
    }
}

/// What a number takes by the weights of connectors.
fn taken_by_weight(run: &Stepper<'_>, number: u64, weights: &Weights) -> Taking
    ensures { taking_of result ≡ taken (plant_in run.now) (states_in run.now) (weighted number weights.now) }
{
    match by_weight(run, number, weights) {
        Some(choice) => Taking::Fires(choice),
        None => Taking::Stuck,
    }
}

/// What a number takes as it is.
fn taken_at(run: &Stepper<'_>, number: u64) -> Taking
    ensures { taking_of result ≡ taken (plant_in run.now) (states_in run.now) (numbered number) }
{
    let count = run.count();
    let place = u128::from(number);
    if place < count {
        Taking::Fires(run.nth(place))
    } else {
        Taking::Refused(RefusedPick::PastList {
            pick: number,
            count,
        })
    }
}

/// What a choice takes that is named.
fn taken_by_name(run: &Stepper<'_>, choice: Choice) -> Taking
    ensures { taking_of result ≡ taken (plant_in run.now) (states_in run.now) (named (choice_of choice)) }
{
    if is_among_choices(run, &choice) {
        Taking::Fires(choice)
    } else {
        Taking::Refused(RefusedPick::NotPossible)
    }
}

/// Whether the present state has the choice.
fn is_among_choices(run: &Stepper<'_>, choice: &Choice) -> bool
    ensures { result ≡ is_among (choices (plant_in run.now) (states_in run.now)) (choice_of choice.now) }
{
    run.find(choice).is_some()
}
