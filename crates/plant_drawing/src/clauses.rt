//! The guards and the transfers of a connector, each on a line of the connector's label.
ghost use Rattle.std.specs.Prelude.{flat_map, map};
ghost use Rattle.connector_tree.specs.Tree as connectors;
ghost use Rattle.text_io.specs.Printing.{Prints};
ghost use Rattle.part_text.specs.Seen.{definition_of, transfer_of, tree_of};
ghost use Rattle.plant_drawing.specs.Connector.{guard_line, transfer_line};

use crate::wrapping::{columns_past, print_assigned, print_expression_words};
use part_text::{Exports, Names};
use petri_atom::Expression;
use plant_model::{Export, Transfer};
use std::io::Write;
use text_io::{WriteFault, print_text};

/// Prints guard clauses, each on a line of its own.
pub(crate) fn print_guards<W: Write>(
    exports: &Exports<'_>,
    guards: &[Expression<Export>],
    output: &mut W,
) -> Result<(), WriteFault>
    ensures { Prints result (W.contents output.old) (W.contents output.new)
        (flat_map (guard_line (map definition_of exports.now.atoms.now) (connectors.leaves (connectors.tree_of exports.now.connector.now))) (map tree_of guards.now)) }
{
    for guard in guards {
        print_guard(exports, guard, output)?;
    }
    Ok(())
}

/// Prints a guard clause on a line of its own.
fn print_guard<W: Write>(
    exports: &Exports<'_>,
    guard: &Expression<Export>,
    output: &mut W,
) -> Result<(), WriteFault>
    ensures { Prints result (W.contents output.old) (W.contents output.new)
        (guard_line (map definition_of exports.now.atoms.now) (connectors.leaves (connectors.tree_of exports.now.connector.now)) (tree_of guard.now)) }
{
    print_text(output, b"\\nguard")?;
    print_expression_words(columns_past(5), guard, exports, output)?;
    Ok(())
}

/// Prints transfers, each on a line of its own.
pub(crate) fn print_transfers<W: Write>(
    exports: &Exports<'_>,
    transfers: &[Transfer],
    output: &mut W,
) -> Result<(), WriteFault>
    ensures { Prints result (W.contents output.old) (W.contents output.new)
        (flat_map (transfer_line (map definition_of exports.now.atoms.now) (connectors.leaves (connectors.tree_of exports.now.connector.now))) (map transfer_of transfers.now)) }
{
    for transfer in transfers {
        print_transfer(exports, transfer, output)?;
    }
    Ok(())
}

/// Prints a transfer on a line of its own.
fn print_transfer<W: Write>(
    exports: &Exports<'_>,
    transfer: &Transfer,
    output: &mut W,
) -> Result<(), WriteFault>
    ensures { Prints result (W.contents output.old) (W.contents output.new)
        (transfer_line (map definition_of exports.now.atoms.now) (connectors.leaves (connectors.tree_of exports.now.connector.now)) (transfer_of transfer.now)) }
{
    print_text(output, b"\\n")?;
    exports.print_name(&transfer.target, output)?;
    let left = columns_past(exports.name_length(&transfer.target));
    print_assigned(left, &transfer.value, exports, output)?;
    Ok(())
}
