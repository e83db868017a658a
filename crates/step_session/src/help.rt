//! The list of what can be asked for.
ghost use Rattle.run_text.specs.Seen.{Prints};
ghost use Rattle.step_session.specs.Help.{help_text};

use crate::fault::AnswerFault;
use std::io::Write;
use text_io::print_text;

/// Each command on a line.
const HELP: &[u8] = b"N           fires choice N
fire NAME   fires the connector's choice, if it has just one
back        takes the last firing back
random N    fires N random choices
until NAME  fires random choices until it can be fired; until NAME N, at most N
why NAME    tells why the connector can't be fired; why alone, of each connector
state       shows the state and the choices again, as an empty line does
save FILE   saves what was fired, to be repeated by trace PLANT --picks FILE
help        lists the commands
quit        ends, as the end of the input does
";

/// Prints the list of the commands.
pub(crate) fn print_help<W: Write>(output: &mut W) -> Result<(), AnswerFault>
    ensures { Prints result (W.contents output.old) (W.contents output.new) help_text }
{
    print_text(output, HELP)?;
    Ok(())
}
