//! What the program never asks of a plant and its states.
ghost use Rattle.std.specs.Prelude.{◌<◌, length};
ghost use Rattle.plant_model.specs.Choice.{IsAllowed};
ghost use Rattle.plant_model.specs.Chosen.{choice_of};
ghost use Rattle.plant_model.specs.Fitting.{IsOf};
ghost use Rattle.plant_model.specs.System.{plant_of};
ghost use Rattle.step_core.specs.Running.{plant_in, states_in};

use plant_model::{Choice, PlantState, System};
use plant_text::plant_of_text;
use std::test::Fail;
use step_core::{Stepper, count_allowed, nth_allowed};

/// Two choices: of A alone, and of A with B.
const BROADCAST: &[u8] =
    b"atom A\nplace s init\nport t\ntrans t from s to s\natom B\nplace s init\nport u\ntrans u from s to s\nconnector bc A.t' B.u\n";

/// How many choices the state has, and the mask of the second one, if there is one.
fn second_choice(system: &System, states: &PlantState) -> Option<(u128, u16)>
    requires { IsOf (plant_of system.now) states.now }
{
    let count = count_allowed(system, states);
    if 1 < count {
        Some((count, nth_allowed(system, states, 1).mask))
    } else {
        None
    }
}

/// One choice while A is on, and two while it is off.
const SWITCH: &[u8] =
    b"atom A\nplace on init\nplace off\nport t\ntrans t from on to off\ntrans t from off to on\natom O\nplace s init\nport o\ntrans o from s to s\nconnector tick A.t\nconnector other O.o\nprio other < tick when A at on\n";

#[test]
fn a_state_tells_its_choices(rt: HostRuntime) -> Result<(), Fail> {
    for (text, second) in [(BROADCAST, Some((2, 3))), (SWITCH, None)] {
        let system = plant_of_text(rt.alloc(), text)?;
        let states = PlantState::init(rt.alloc(), &system)?;
        assert!(&rt; states.len() == 2 && !states.is_empty());
        assert!(&rt; second_choice(&system, &states) == second);
    }
    Ok(())
}

/// Two choices, of A alone and of A with B, and none once A has moved.
const ONCE: &[u8] =
    b"atom A\nplace s init\nplace d\nport t\ntrans t from s to d\natom B\nplace s init\nport u\ntrans u from s to s\nconnector bc A.t' B.u\n";

/// How many choices there are after the choice, and once the first atom has its state from before again.
fn counts_of_a_return(run: &mut Stepper<'_>, choice: &Choice) -> (u128, u128)
    requires there { 0 < length (states_in run.old) }
    requires allowed { IsAllowed (plant_in run.old) (states_in run.old) (choice_of choice.now) }
{
    let before = run.state(0);
    run.fire(choice, &[]);
    let behind = run.count();
    run.set(0, before);
    (behind, run.count())
}

#[test]
fn a_plant_that_runs_takes_a_state_back(rt: HostRuntime) -> Result<(), Fail> {
    let system = plant_of_text(rt.alloc(), ONCE)?;
    let mut run = Stepper::first(rt.alloc(), &system)?;
    let count = run.count();
    let atoms = run.states().len();
    assert!(rt; count == 2 && atoms == 2);
    if 1 < count && 0 < atoms {
        let (first, second) = (run.nth(0), run.nth(1));
        assert!(rt; second.same(&second.copy()) && !second.same(&first));
        assert!(rt; run.state(0).places() == 1);
        assert!(rt; counts_of_a_return(&mut run, &second) == (0, 2));
    }
    Ok(())
}

#[test]
fn a_state_that_is_taken_back_brings_its_rules(rt: HostRuntime) -> Result<(), Fail> {
    let system = plant_of_text(rt.alloc(), SWITCH)?;
    let mut run = Stepper::first(rt.alloc(), &system)?;
    let count = run.count();
    let atoms = run.states().len();
    assert!(rt; count == 1 && atoms == 2);
    if 0 < count && 0 < atoms {
        let tick = run.nth(0);
        assert!(rt; counts_of_a_return(&mut run, &tick) == (2, 1));
    }
    Ok(())
}

#[test]
fn an_interaction_is_found_by_its_atoms(rt: HostRuntime) -> Result<(), Fail> {
    let system = plant_of_text(rt.alloc(), BROADCAST)?;
    assert!(rt; system.mask_of(0, &[0]) == Some(1));
    assert!(rt; system.mask_of(0, &[0, 1]) == Some(3));
    assert!(rt; system.mask_of(0, &[1]).is_none());
    assert!(rt; system.mask_of(1, &[0]).is_none());
    Ok(())
}
