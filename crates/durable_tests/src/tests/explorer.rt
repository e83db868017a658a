//! Runs that are stopped at each write and sync, and devices that are judged. Numbers of writes and syncs are worked out by hand.
ghost use Rattle.std.specs.Prelude.{IfOk, map};
ghost use Rattle.crash_explorer.specs.Judging.{IsRunOf};
ghost use Rattle.plant_model.specs.Chosen.{fired_of};
ghost use Rattle.plant_model.specs.System.{plant_of};

use super::common::{SAMPLE, plant, sample};
use super::runs::{ASK_A, FLUSH, PUT_A, fire_0, fire_1, two_and_two, whole_run};
use crash_explorer::{Cut, Explorer, Found, Stage, Trial, explore, judge};
use disk_model::Tear;
use plant_core::Event;
use plant_model::{Firing, Inputs, System};
use std::alloc::Global;
use std::test::Fail;
use step_core::Stepper;

/// A plant with guards, transfers, a broadcast and rules, of which each state has another list of choices.
const RULED: &[u8] =
    b"atom A\nplace s init\nvar n 0\nport t n\ntrans t from s to s do n := + n 1\natom B\nplace x init\nplace y\nvar m 0\nport u m\ntrans u from x to y\ntrans u from y to x do m := * m 2\natom C\nplace s init\nvar left 9\nport v left\ntrans v from s to s when < 0 left do left := - left 1\nconnector tick A.t\nconnector send A.t B.u\nguard < A.n 4\nmove B.m := + A.n B.m\nconnector all A.t' B.u C.v'\nguard < 1 A.n\nmove C.left := - C.left A.n\nprio tick < send\nmaximal all\n";

const ASK_B: Event = Event::Ask(1);

const PUT_B: Event = Event::Put(1);

const SAVE: Event = Event::Save;

const TRIM: Event = Event::Trim;

const NONE: [Event; 0] = [];

/// Tick, send, tick, send, all of it acknowledged, and A saved after all of them; then the records that no restart needs are dropped: the first
/// alone, since B, of which nothing is saved, took part in the second.
fn a_saved_and_trimmed() -> [Event; 8] {
    [
        fire_0(),
        fire_1(),
        fire_0(),
        fire_1(),
        FLUSH,
        ASK_A,
        PUT_A,
        TRIM,
    ]
}

/// Twelve events, of which three flush.
fn twelve_events() -> [Event; 12] {
    [
        fire_0(),
        fire_1(),
        FLUSH,
        fire_1(),
        fire_0(),
        Event::Fire(2, Inputs::none()),
        FLUSH,
        fire_1(),
        fire_0(),
        FLUSH,
        fire_1(),
        fire_1(),
    ]
}

/// Fourteen events, of which three save an atom: A after two firings and after four, B after both sends.
fn fourteen_events() -> [Event; 14] {
    [
        fire_0(),
        fire_1(),
        FLUSH,
        ASK_A,
        PUT_A,
        fire_1(),
        fire_0(),
        ASK_B,
        ASK_A,
        FLUSH,
        PUT_A,
        PUT_B,
        fire_0(),
        FLUSH,
    ]
}

/// Two trims, one of which moves the base into a full base cell.
fn trimmed_twice() -> [Event; 13] {
    [
        fire_0(),
        fire_0(),
        FLUSH,
        ASK_A,
        PUT_A,
        TRIM,
        fire_1(),
        FLUSH,
        ASK_A,
        PUT_A,
        ASK_B,
        PUT_B,
        TRIM,
    ]
}

/// Tick, send and a flush, and both atoms saved; tick and a flush, and A saved, whose slot is full then; and the three records dropped.
fn all_saved() -> [Event; 8] {
    [fire_0(), fire_1(), FLUSH, SAVE, fire_0(), FLUSH, SAVE, TRIM]
}

/// Six ticks, A saved after them and their records dropped, and four ticks more: their records go to the last cell of the ring and the first three.
fn over_the_end() -> [Event; 15] {
    [
        fire_0(),
        fire_0(),
        fire_0(),
        fire_0(),
        fire_0(),
        fire_0(),
        FLUSH,
        ASK_A,
        PUT_A,
        TRIM,
        fire_0(),
        fire_0(),
        fire_0(),
        fire_0(),
        FLUSH,
    ]
}

/// Tick, send, tick and a flush, and then send and a flush.
fn three_and_one() -> [Event; 6] {
    [fire_0(), fire_1(), fire_0(), FLUSH, fire_1(), FLUSH]
}

/// How often a run of these events is stopped, how many of the stops leave what is not right, and how many writes and syncs the run makes by itself.
fn explored(alloc: Global, text: &[u8], events: &[Event]) -> Result<(u64, u64, u64), Fail> {
    let system = plant(alloc, text)?;
    let report = explore(alloc, &system, 8, events)?;
    let alone = whole_run(alloc, &system, events)?;
    Ok((report.stops, report.bad, alone.disk.changes()))
}

/// Formatting makes the first cell empty and all others, a sync each, and sets a base, a slot of each atom and the identity, by four changes each; a boot
/// syncs twice: that is 20 for two atoms, and 24 for three. A flush writes a body and a gate for each record, and syncs twice. A state is stored by four
/// changes, and by two more where it goes to a full slot; several at once by two for each, by one more for each full slot, and by two syncs or three. So is a base; then the gates of the dropped records are closed, and a sync follows.
#[test]
fn a_run_is_stopped_at_each_of_its_writes_and_syncs(rt: HostRuntime) -> Result<(), Fail> {
    let (twelve, fourteen) = (twelve_events(), fourteen_events());
    let (trimmed, twice) = (a_saved_and_trimmed(), trimmed_twice());
    let (over, saved) = (over_the_end(), all_saved());
    for (text, events, stops) in [
        (SAMPLE, NONE.as_slice(), 20),
        (SAMPLE, &twelve, 20 + 6 + 8 + 6),
        (RULED, &twelve, 24 + 6 + 8 + 6),
        (SAMPLE, &fourteen, 20 + 6 + 4 + 6 + 6 + 4 + 4),
        (SAMPLE, &trimmed, 20 + 10 + 4 + 6),
        (SAMPLE, &twice, 20 + 6 + 4 + 7 + 4 + 6 + 4 + 8),
        (SAMPLE, &over, 20 + 14 + 4 + 11 + 10),
        (SAMPLE, &saved, 20 + 6 + 6 + 4 + 6 + 8),
    ] {
        assert_eq!(rt; explored(rt.alloc(), text, events)?, (stops, 0, stops));
    }
    Ok(())
}

/// What is found of a trial: the tear, what the device boots to, how many choices were fired and how many of them acknowledged, and whether it stopped a
/// sync of the running plant and is right.
type Told = (Tear, Found, u64, u64, bool);

fn told_of(trial: &Trial) -> Told {
    let is_sync = trial.cut == Cut::Sync && trial.stage == Stage::Running;
    let is_right = is_sync && trial.right;
    (trial.tear, trial.found, trial.fired, trial.acked, is_right)
}

/// How many stops and how many trials there are of these events, and what is found of those at the last stop.
fn last_trials(
    alloc: Global,
    system: &System,
    events: &[Event],
) -> Result<(u64, u32, Vec<Told>), Fail> {
    let mut explorer = Explorer::new(alloc, system, 8, events)?;
    let last = explorer.stops();
    let mut told = Vec::new(alloc);
    for number in 0..1_000 {
        let Some(trial) = explorer.next_trial(alloc)? else {
            return Ok((last, number, told));
        };
        if trial.stop == last {
            told.push(told_of(&trial))?;
        }
    }
    Err(Fail::new("too many trials"))
}

/// The last sync of a flush is stopped, whose two gates stand in an even and in an odd cell.
#[test]
fn a_trial_tells_what_a_stop_does(rt: HostRuntime) -> Result<(), Fail> {
    let system = sample(rt.alloc())?;
    let (stops, trials, told) = last_trials(rt.alloc(), &system, &two_and_two())?;
    let wanted = [
        (Tear::Old, Found::Booted(2), 4, 2, true),
        (Tear::New, Found::Booted(4), 4, 2, true),
        (Tear::Gates, Found::Booted(4), 4, 2, true),
        (Tear::Mixed, Found::Booted(2), 4, 2, true),
    ];
    assert_eq!(rt; (stops, trials), (32, 4 * 32));
    assert!(rt; told.as_slice() == wanted.as_slice());
    Ok(())
}

/// Whether the device of a run that flushed so many of its four choices is right, where so many are taken as acknowledged.
fn judged(alloc: Global, system: &System, events: usize, acked: usize) -> Result<bool, Fail> {
    let four = firings_of(alloc, system, &[0, 1, 0, 1])?;
    let run = three_and_one();
    if four.len() < acked || events > run.len() {
        return Err(Fail::new("too few choices"));
    }
    let left = whole_run(alloc, system, &run[..events])?.disk;
    let (front, rest) = four.split_at(acked);
    Ok(judge(alloc, system, front, rest, left.stop(Tear::New))?)
}

#[test]
fn a_device_is_right_with_all_that_was_acknowledged_and_a_front_of_the_rest(
    rt: HostRuntime,
) -> Result<(), Fail> {
    let system = sample(rt.alloc())?;
    // How many of the events were made, how many of four choices are taken as acknowledged, and whether that is right.
    for (events, acked, wanted) in [
        (6, 4, true),
        (6, 2, true),
        (4, 4, false),
        (4, 3, true),
        (4, 0, true),
    ] {
        assert_eq!(rt; judged(rt.alloc(), &system, events, acked)?, wanted);
    }
    Ok(())
}

/// What these picks fire of the plant, from its first state on, where each choice takes no value.
fn firings_of(alloc: Global, system: &System, picks: &[u64]) -> Result<Vec<Firing>, Fail>
    ensures { IfOk result (λ firings. IsRunOf (plant_of system.now) (map fired_of firings.items)) }
{
    let mut stepper = Stepper::first(alloc, system)?;
    let mut firings = Vec::new(alloc);
    for pick in picks {
        let count = stepper.count();
        if count == 0 {
            return Err(Fail::new("no choice"));
        }
        let choice = stepper.nth(u128::from(*pick) % count);
        if !system.takes(&choice, &[]) {
            return Err(Fail::new("the choice takes values"));
        }
        stepper.fire(&choice, &[]);
        firings.push(Firing {
            choice,
            inputs: Inputs::none(),
        })?;
    }
    Ok(firings)
}
