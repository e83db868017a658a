//! What is sure while atoms are away, and the jobs of those that leave, on plants worked out by hand.
use connector_tree::MAX_LEAVES;
use petri_atom::{AtomState, Delivered};
use plant_model::{MAX_ATOMS, PlantState};
use plant_text::plant_of_text;
use std::test::Fail;
use step_core::{Dispatcher, Done, Job, Jobs, work};

/// The connectors of the first sure choices, in their order.
fn sure(run: &Dispatcher<'_>) -> [Option<u16>; 3] {
    let mut connectors = [None; 3];
    for place in 0..3 {
        if (place as u128) < run.count_sure() {
            connectors[place] = Some(run.nth_sure(place as u128).connector);
        }
    }
    connectors
}

/// Fires the sure choice with this place, if there is one, and gives the connector.
fn fire(run: &mut Dispatcher<'_>, place: u128) -> Option<u16> {
    if place < run.count_sure() {
        let choice = run.nth_sure(place);
        let mut told = [Delivered::of([None, None, None, None]); MAX_LEAVES];
        run.fire_telling(&choice, &[], &mut told);
        Some(choice.connector)
    } else {
        None
    }
}

/// Begins the sure choice with this place, if there is one. The count of an atom is its number and 10.
fn begin<'s>(run: &mut Dispatcher<'s>, place: u128) -> Jobs<'s> {
    let mut counts = [10; MAX_ATOMS];
    counts[1] = 11;
    let mut jobs = Jobs::new();
    if place < run.count_sure() {
        let choice = run.nth_sure(place);
        run.begin(&choice, &[], &counts, &mut jobs);
    }
    jobs
}

/// Puts the state in the atom's place, if the atom is away and the state is one of it. Says whether it did.
fn is_back(run: &mut Dispatcher<'_>, atom: u16, state: AtomState) -> bool {
    match run.system().atoms().get(usize::from(atom)) {
        Some(definition) => {
            let can_be = run.is_away(atom) && definition.fits(&state);
            if can_be {
                run.back(atom, state);
            }
            can_be
        }
        None => false,
    }
}

/// Does the first job, and puts what it leaves in its atom's place. Says whether there was one, of an atom that was away.
fn is_first_done(run: &mut Dispatcher<'_>, jobs: &mut Jobs<'_>) -> bool {
    match jobs.take() {
        Some(job) => {
            let done = work(job);
            let atom = done.atom();
            is_back(run, atom, done.into_state())
        }
        None => false,
    }
}

/// The value of the atom's first variable, if the atom is there and present.
fn value(run: &Dispatcher<'_>, atom: u16) -> Option<i64> {
    match run.state(atom) {
        Some(state) => Some(state.value(0)),
        None => None,
    }
}

/// A counts, and B takes over what A had before. O can always move, but that is below what A and B do together.
const THREE: &[u8] =
    b"atom A\nplace s init\nvar n 0\nport t n\ntrans t from s to s do n := + n 1\natom B\nplace s init\nvar m 0\nport u m\ntrans u from s to s\natom O\nplace k init\nport o\ntrans o from k to k\nconnector tick A.t\nconnector send A.t B.u\nmove B.m := A.n\nconnector other O.o\nprio other < send\n";

#[test]
fn a_choice_waits_for_an_atom_that_is_away(rt: HostRuntime) -> Result<(), Fail> {
    let system = plant_of_text(rt.alloc(), THREE)?;
    let mut run = Dispatcher::at(&system, PlantState::init(rt.alloc(), &system)?);
    assert!(rt; sure(&run) == [Some(0), Some(1), None]);
    // With A away nothing is sure: what A and B do together may come, and other is below it.
    let mut jobs = begin(&mut run, 0);
    assert!(rt; run.is_away(0) && !run.is_away(1) && !run.is_away(3));
    assert!(rt; run.count_sure() == 0 && value(&run, 0).is_none());
    assert!(rt; is_first_done(&mut run, &mut jobs) && jobs.take().is_none());
    assert!(rt; sure(&run) == [Some(0), Some(1), None] && value(&run, 0) == Some(1));
    Ok(())
}

/// The same, but B has no marked place, so that it offers nothing.
const CLOSED: &[u8] =
    b"atom A\nplace s init\nvar n 0\nport t n\ntrans t from s to s do n := + n 1\natom B\nplace s\nvar m 0\nport u m\ntrans u from s to s\natom O\nplace k init\nport o\ntrans o from k to k\nconnector tick A.t\nconnector send A.t B.u\nmove B.m := A.n\nconnector other O.o\nprio other < send\n";

#[test]
fn a_closed_port_sets_a_choice_free(rt: HostRuntime) -> Result<(), Fail> {
    let system = plant_of_text(rt.alloc(), CLOSED)?;
    let mut run = Dispatcher::at(&system, PlantState::init(rt.alloc(), &system)?);
    assert!(rt; sure(&run) == [Some(0), Some(2), None]);
    // With A away other is sure: B is present, and cannot take part in what is above it, whatever comes back.
    let mut jobs = begin(&mut run, 0);
    assert!(rt; sure(&run) == [Some(2), None, None]);
    assert!(rt; fire(&mut run, 0) == Some(2) && fire(&mut run, 1).is_none());
    assert!(rt; is_first_done(&mut run, &mut jobs));
    assert!(rt; sure(&run) == [Some(0), Some(2), None] && value(&run, 0) == Some(1));
    Ok(())
}

/// While A is at on, other is below tick.
const SWITCHED: &[u8] =
    b"atom A\nplace on init\nplace off\nport t\ntrans t from on to off\ntrans t from off to on\natom O\nplace k init\nport o\ntrans o from k to k\nconnector tick A.t\nconnector other O.o\nprio other < tick when A at on\n";

#[test]
fn a_rule_of_an_atom_that_is_away_may_count(rt: HostRuntime) -> Result<(), Fail> {
    let system = plant_of_text(rt.alloc(), SWITCHED)?;
    let mut run = Dispatcher::at(&system, PlantState::init(rt.alloc(), &system)?);
    assert!(rt; sure(&run) == [Some(0), None, None]);
    assert!(rt; fire(&mut run, 0) == Some(0));
    assert!(rt; sure(&run) == [Some(0), Some(1), None]);
    // With A away nothing is sure: A may come back at on.
    let mut jobs = begin(&mut run, 0);
    assert!(rt; run.count_sure() == 0);
    assert!(rt; is_first_done(&mut run, &mut jobs));
    assert!(rt; sure(&run) == [Some(0), None, None]);
    Ok(())
}

/// Nothing: that a value may go to another thread shows where this is called with it.
fn is_sent<T: Send>(_: &T) -> bool {
    true
}

/// A plant that runs while atoms are away may go to another thread.
fn is_dispatcher_sent(run: &Dispatcher<'_>) -> bool {
    is_sent(run)
}

/// So may jobs.
fn are_jobs_sent(jobs: &Jobs<'_>) -> bool {
    is_sent(jobs)
}

/// So may a job.
fn is_job_sent(job: &Job<'_>) -> bool {
    is_sent(job)
}

/// So may what is done.
fn is_done_sent(done: &Done<'_>) -> bool {
    is_sent(done)
}

#[test]
fn jobs_leave_least_atom_first_and_are_sent(rt: HostRuntime) -> Result<(), Fail> {
    let system = plant_of_text(rt.alloc(), THREE)?;
    let mut run = Dispatcher::at(&system, PlantState::init(rt.alloc(), &system)?);
    assert!(rt; fire(&mut run, 0) == Some(0));
    let mut jobs = begin(&mut run, 1);
    assert!(rt;
        run.is_away(0) && run.is_away(1) && is_dispatcher_sent(&run) && are_jobs_sent(&jobs)
    );
    // A counts on from 1, and B gets that 1.
    if let Some(job) = jobs.take() {
        assert!(rt;
            is_job_sent(&job) && job.atom() == 0 && job.count() == 10 && job.transition() == 0
        );
        assert!(rt;
            job.definition().name().as_bytes() == b"A".as_slice() && job.state().value(0) == 1
        );
        assert!(rt; job.delivered() == Delivered::of([None, None, None, None]));
        let done = work(job);
        assert!(rt; is_done_sent(&done) && done.atom() == 0 && done.count() == 10);
        assert!(rt;
            done.transition() == 0 && done.definition().name().as_bytes() == b"A".as_slice()
        );
        assert!(rt; done.before().value(0) == 1 && done.after().value(0) == 2);
        assert!(rt; is_back(&mut run, 0, done.into_state()));
    }
    if let Some(job) = jobs.take() {
        assert!(rt; job.atom() == 1 && job.count() == 11 && job.state().value(0) == 0);
        let done = work(job);
        assert!(rt; done.delivered() == Delivered::of([Some(1), None, None, None]));
        assert!(rt; is_back(&mut run, 1, done.into_state()));
    }
    assert!(rt; jobs.take().is_none() && !run.is_away(0) && !run.is_away(1));
    assert!(rt; value(&run, 0) == Some(2) && value(&run, 1) == Some(1));
    Ok(())
}
