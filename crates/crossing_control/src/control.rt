//! What the controller does.
use crate::ending::Ending;
use crate::moves::make_move;
use crate::room::make_room;
use arrayvec::ArrayVec;
use disk_model::Disk;
use plant_core::Plant;
use plant_model::System;
use plant_words::Lines;
use script_lines::print_standing;
use std::io::{BufRead, Write};
use text_io::{end_line, hand_on, print_text, read_line};

/// The connectors that the controller fires of its own, as soon as the plant allows it, the first one first.
const ORDERS: [&[u8]; 4] = [b"lower", b"enter_north", b"enter_south", b"raise"];

/// How many bytes of a line are kept. No name of a connector is as long.
const KEPT: usize = 64;

/// The numbers of the connectors that the controller fires of its own.
pub(crate) type Orders = [u16; ORDERS.len()];

/// Controls the crossing by the lines of the input, up to its end: a line names the connector that a sensor reports. First it prints where the plant stands, so
/// that each device can be set to what the plant says of it.
pub(crate) fn control<D: Disk, R: BufRead, W: Write>(
    plant: &mut Plant<'_, D>,
    orders: &Orders,
    input: &mut R,
    output: &mut W,
) -> Result<(), Ending> {
    print_standing(plant, output)?;
    hand_on(output)?;
    // The last session may have ended before its orders were given.
    give_orders(plant, orders, output)?;
    let mut line: ArrayVec<u8, KEPT> = ArrayVec::new();
    for _line in 0..u64::MAX {
        read_line(input, &mut line)?;
        let Some(name) = Lines::new(line.as_slice()).next_line() else {
            return Ok(());
        };
        take_report(plant, name, output)?;
        give_orders(plant, orders, output)?;
    }
    Ok(())
}

/// The orders of a crossing's plant.
pub(crate) fn orders_of(system: &System) -> Result<Orders, Ending> {
    let mut numbers = [0; ORDERS.len()];
    for (number, name) in numbers.iter_mut().zip(ORDERS) {
        *number = system.connector_named(name).ok_or(Ending::OtherPlant)?;
    }
    Ok(numbers)
}

/// Makes the move that a sensor reports. One that the plant does not have now is told, and nothing moves: the sensor or the plant is wrong.
fn take_report<D: Disk, W: Write>(
    plant: &mut Plant<'_, D>,
    name: &[u8],
    output: &mut W,
) -> Result<(), Ending> {
    if let Some(connector) = plant.system().connector_named(name) {
        make_room(plant)?;
        if make_move(plant, connector, output)? {
            return Ok(());
        }
    }
    print_text(output, b"not possible now: ")?;
    print_text(output, name)?;
    end_line(output)?;
    Ok(hand_on(output)?)
}

/// Makes the moves that the controller makes of its own, until it has none.
fn give_orders<D: Disk, W: Write>(
    plant: &mut Plant<'_, D>,
    orders: &[u16],
    output: &mut W,
) -> Result<(), Ending> {
    for _order in 0..u64::MAX {
        if !give_first_order(plant, orders, output)? {
            break;
        }
    }
    Ok(())
}

/// Makes the first of them that the plant has now, and says whether it had one.
fn give_first_order<D: Disk, W: Write>(
    plant: &mut Plant<'_, D>,
    orders: &[u16],
    output: &mut W,
) -> Result<bool, Ending> {
    make_room(plant)?;
    for order in orders {
        if make_move(plant, *order, output)? {
            return Ok(true);
        }
    }
    Ok(false)
}
