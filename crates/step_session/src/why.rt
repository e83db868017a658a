//! Why connectors can't be fired.
ghost use Rattle.std.specs.Prelude.{◌≡◌};
ghost use Rattle.run_text.specs.Seen.{Prints, plant_in, states_in};
ghost use Rattle.blocked_text.specs.Asked.{plant_asked};
ghost use Rattle.blocked_text.specs.Blocked.{why_text};
ghost use Rattle.step_session.specs.Answers.{why_of_text};

use crate::fault::AnswerFault;
use crate::mistakes::print_no_connector;
use blocked_text::Reasons;
use std::alloc::Global;
use std::io::Write;
use step_core::Stepper;

/// Prints of each connector why it can't be fired in the present state, or that it can be.
pub(crate) fn print_why<W: Write>(
    reasons: &Reasons<'_>,
    rule_lines: &[u32],
    run: &Stepper<'_>,
    output: &mut W,
) -> Result<(), AnswerFault>
    requires { plant_asked reasons.now ≡ plant_in run.now }
    ensures { Prints result (W.contents output.old) (W.contents output.new) (why_text (plant_in run.now) (states_in run.now) rule_lines.now) }
{
    reasons.print_why(run.states(), rule_lines, output)?;
    Ok(())
}

/// The same of the connector with the name; if there is none, that.
pub(crate) fn print_why_of<W: Write>(
    alloc: Global,
    reasons: &Reasons<'_>,
    rule_lines: &[u32],
    run: &Stepper<'_>,
    name: &[u8],
    output: &mut W,
) -> Result<(), AnswerFault>
    requires { plant_asked reasons.now ≡ plant_in run.now }
    ensures { Prints result (W.contents output.old) (W.contents output.new) (why_of_text (plant_in run.now) rule_lines.now (states_in run.now) name.now) }
{
    match run.system().connector_named(name) {
        Some(connector) => {
            reasons.print_blocked_of(run.states(), connector, rule_lines, output)?;
            Ok(())
        }
        None => print_no_connector(alloc, name, output),
    }
}
