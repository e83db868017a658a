//! Runs of random choices of a plant that keeps no record, with all atoms there or with atoms away half of the time.
ghost use Rattle.std.specs.Prelude.{◌≡◌, ◌<◌, ◌≤◌, ◌%◌, [], IfOk, IfSome};
ghost use Rattle.connector_tree.specs.declared.tree.TheConstants.{MAX_LEAVES};
ghost use Rattle.plant_model.specs.Chosen.{choice_of};
ghost use Rattle.plant_model.specs.declared.limits.TheConstants.{MAX_ATOMS};
ghost use Rattle.step_core.specs.Jobs.{jobs_of};
ghost use Rattle.step_core.specs.Sure.{IsSure};
ghost use Rattle.step_executor.specs.Executing.{jobs_in, plant_in, states_in, system_in};
ghost use Rattle.step_executor.specs.Outstanding.{parts_without};
ghost use Rattle.durable_bench.specs.Away.{AreAllBack, AreAmong};

use crate::course::{Course, SEED, next_number};
use connector_tree::MAX_LEAVES;
use petri_atom::Delivered;
use plant_model::{Choice, MAX_ATOMS, PlantState, System, no_deliveries};
use run_text::RandomPicks;
use std::alloc::{AllocError, Global};
use std::rt::Clock;
use std::time::Instant;
use step_core::{Jobs, work};
use step_executor::Executor;

/// Where the atoms are in a run.
#[derive(Clone, Copy, Debug, PartialEq, Eq)]
pub(crate) enum Presence {
    /// All stay there.
    AllThere,
    /// Of each two choices one begins, and the other is fired while the participants of the first are away.
    HalfAway,
}

impl Presence {
    /// The word that asks for such a run.
    pub(crate) fn word(self) -> &'static str {
        match self {
            Presence::AllThere => "there",
            Presence::HalfAway => "away",
        }
    }
}

/// What a run needs beside its plant: room that is made once.
#[derive(Drop)]
struct Room<'s> {
    /// The jobs of the atoms that are away.
    jobs: Jobs<'s>,
    /// What a choice delivers, for which nobody asks.
    delivered: [Delivered; MAX_LEAVES],
    /// The counts that go along with jobs, which nobody reads.
    counts: [u64; MAX_ATOMS],
}

/// Fires so many choices of a plant from its first state. None where the memory or the clock failed.
pub(crate) fn time_steps<R: Clock + AllocGlobal>(
    rt: &R,
    system: &System,
    steps: u64,
    presence: Presence,
) -> Option<Course> {
    let Ok(mut run) = first_run(rt.alloc(), system) else {
        return None;
    };
    let mut picks = RandomPicks::new(SEED, steps);
    let start = Instant::now(rt);
    let fired = fire_steps(&mut run, &mut picks, steps, presence);
    let time = start.ok()?.elapsed(rt).ok()?;
    Some(Course {
        fired,
        nanoseconds: time.as_nanos(),
    })
}

/// The plant in its first state, with all atoms there.
fn first_run(alloc: Global, system: &System) -> Result<Executor<'_>, AllocError>
    ensures { IfOk result (λ run. AreAllBack (jobs_in run)) }
{
    let states = PlantState::init(alloc, system)?;
    Executor::at(alloc, system, states)
}

/// Fires so many choices by the picks, each modulo how many are sure, and says how many it fired: fewer only if none is sure with all
/// atoms there, or no pick is left.
fn fire_steps<'s>(
    run: &mut Executor<'s>,
    picks: &mut RandomPicks,
    steps: u64,
    presence: Presence,
) -> u64
    requires all_there { AreAllBack (jobs_in run.old) }
    ensures few { result ≤ steps }
    ensures system { system_in run.new ≡ system_in run.old }
    ensures all_back { AreAllBack (jobs_in run.new) }
{
    let mut room = Room {
        jobs: Jobs::new(),
        delivered: no_deliveries(),
        counts: [0; MAX_ATOMS],
    };
    let mut left = steps;
    while left > 0 {
        let fired = match presence {
            Presence::AllThere => fire_one(run, picks, left, &mut room.delivered),
            Presence::HalfAway => fire_two(run, picks, left, &mut room),
        };
        if fired == 0 {
            break;
        }
        left -= fired;
    }
    steps - left
}

/// Begins a choice, if one is sure, fires another one while its participants are away, if two are left to fire and one is sure, and takes
/// the participants back. Says how many it fired.
fn fire_two<'s>(
    run: &mut Executor<'s>,
    picks: &mut RandomPicks,
    left: u64,
    room: &mut Room<'s>,
) -> u64
    requires some_left { 0 < left }
    requires all_there { AreAllBack (jobs_in run.old) }
    requires no_job { jobs_of room.old.jobs ≡ [] }
    ensures few { result ≤ left }
    ensures system { system_in run.new ≡ system_in run.old }
    ensures all_back { AreAllBack (jobs_in run.new) }
    ensures no_job { jobs_of room.new.jobs ≡ [] }
{
    let Some(choice) = next_choice(run, picks) else {
        return 0;
    };
    begin(run, &choice, room);
    let beside = fire_one(run, picks, left - 1, &mut room.delivered);
    take_back(run, &mut room.jobs);
    1 + beside
}

/// Begins the choice, where no atom is away.
fn begin<'s>(run: &mut Executor<'s>, choice: &Choice, room: &mut Room<'s>)
    requires sure { IsSure (plant_in run.old) (parts_without (jobs_in run.old) (states_in run.old)) (choice_of choice.now) }
    requires all_there { AreAllBack (jobs_in run.old) }
    requires no_job { jobs_of room.old.jobs ≡ [] }
    ensures system { system_in run.new ≡ system_in run.old }
    ensures away { AreAmong (jobs_in run.new) (jobs_of room.new.jobs) }
{
    run.system().keeps_its_rules();
    run.begin(
        choice,
        &[],
        &room.counts,
        &mut room.jobs,
        &mut room.delivered,
    );
}

/// Fires the choice at the next pick, if any is left to fire and one is sure, and says how many it fired.
fn fire_one(
    run: &mut Executor<'_>,
    picks: &mut RandomPicks,
    left: u64,
    delivered: &mut [Delivered; MAX_LEAVES],
) -> u64
    ensures few { result ≤ left }
    ensures system { system_in run.new ≡ system_in run.old }
    ensures jobs { jobs_in run.new ≡ jobs_in run.old }
{
    if left == 0 {
        return 0;
    }
    match next_choice(run, picks) {
        Some(choice) => {
            run.fire_telling(&choice, &[], delivered);
            1
        }
        None => 0,
    }
}

/// The sure choice at the next pick, if one is sure and a pick is left.
fn next_choice(run: &Executor<'_>, picks: &mut RandomPicks) -> Option<Choice>
    ensures { IfSome result (λ choice. IsSure (plant_in run.now) (parts_without (jobs_in run.now) (states_in run.now)) (choice_of choice)) }
{
    let count = run.count();
    if count == 0 {
        return None;
    }
    let number = next_number(picks)?;
    Some(run.nth(place_of(number, count)))
}

/// The number modulo the count, by a division of 64 bits: a count that fits none is greater than each number.
fn place_of(number: u64, count: u128) -> u128
    requires { 0 < count }
    ensures remainder { result ≡ number % count }
    ensures within { result < count }
{
    if count <= u128::from(u64::MAX) {
        u128::from(number % count as u64)
    } else {
        u128::from(number)
    }
}

/// Does these jobs, and takes their atoms back.
fn take_back<'s>(run: &mut Executor<'s>, jobs: &mut Jobs<'s>)
    requires { AreAmong (jobs_in run.old) (jobs_of jobs.old) }
    ensures system { system_in run.new ≡ system_in run.old }
    ensures all_back { AreAllBack (jobs_in run.new) }
    ensures no_job { jobs_of jobs.new ≡ [] }
{
    while let Some(job) = jobs.take() {
        let _ = run.back(work(job));
    }
}
