//! The record cells past the end of the live records that are full.
ghost use Rattle.std.specs.Prelude.{◌≡◌, flat_map, IfOk};
ghost use Rattle.std.specs.List.{list_any};
ghost use Rattle.image_inspection.specs.Inspected.{IsWithin};
ghost use Rattle.image_inspection.specs.Open.{ahead_of, cell_line, doubt_words, is_cell_doubted, is_doubted, is_dropped, number_in, open_line, open_words, record_words};
ghost use Rattle.image_inspection.specs.Seen.{Prints, contents_in};

use crate::bodies::body_of;
use disk_model::BODY;
use plant_image::Held;
use record_codec::Fired;
use record_codec::ring::record_cell;
use std::io::Write;
use text_io::{WriteFault, end_line, print_number, print_text};

/// Prints a line for each record cell past the end that is full, and tells whether one of them is a doubt.
pub(crate) fn print_open<W: Write>(
    cells: &[Option<[u8; BODY]>],
    atoms: u16,
    held: &Held,
    output: &mut W,
) -> Result<bool, WriteFault>
    requires { IsWithin held.now }
    ensures printed { Prints result (W.contents output.old) (W.contents output.new)
        (flat_map (open_line cells.now atoms (contents_in held.now)) (ahead_of (contents_in held.now))) }
    ensures doubted { IfOk result (λ doubted. doubted ≡ list_any (is_doubted cells.now atoms (contents_in held.now)) (ahead_of (contents_in held.now))) }
{
    let base = held.base;
    let ring = held.ring;
    let mut doubted = false;
    for number in base + held.records.len() as u64..base + u64::from(ring) {
        let k = record_cell(atoms, ring, number);
        doubted |= is_cell_doubted(cells, base, k);
        print_cell_line(cells, base, k, output)?;
    }
    Ok(doubted)
}

/// Whether cell `k`, which is past the end, is full and holds no record below the base.
fn is_cell_doubted(cells: &[Option<[u8; BODY]>], base: u64, k: u64) -> bool
    ensures { result ≡ is_cell_doubted cells.now base k }
{
    match body_of(cells, k) {
        Some(body) => !is_dropped(base, number_in(body)),
        None => false,
    }
}

/// Prints what is told of cell `k`, which is past the end: nothing if it is empty.
fn print_cell_line<W: Write>(
    cells: &[Option<[u8; BODY]>],
    base: u64,
    k: u64,
    output: &mut W,
) -> Result<(), WriteFault>
    ensures { Prints result (W.contents output.old) (W.contents output.new) (cell_line cells.now base k) }
{
    match body_of(cells, k) {
        Some(body) => print_full(base, k, number_in(body), output),
        None => print_text(output, b""),
    }
}

/// Prints that cell `k`, which is past the end, is full, and what it holds.
fn print_full<W: Write>(
    base: u64,
    k: u64,
    number: Option<u64>,
    output: &mut W,
) -> Result<(), WriteFault>
    ensures { Prints result (W.contents output.old) (W.contents output.new) (open_words base k number) }
{
    print_text(output, doubt_words(!is_dropped(base, number)))?;
    print_text(output, b"open cell ")?;
    print_number(output, k)?;
    print_text(output, b" holds ")?;
    print_record(number, output)?;
    end_line(output)
}

/// The number of the record that the body holds, if it holds one.
fn number_in(body: &[u8; BODY]) -> Option<u64>
    ensures { result ≡ number_in body.now }
{
    match Fired::from_body(body) {
        Some(fired) => Some(fired.number()),
        None => None,
    }
}

/// Whether the record is below the base: a trim was stopped before it emptied the cell.
fn is_dropped(base: u64, number: Option<u64>) -> bool
    ensures { result ≡ is_dropped base number }
{
    match number {
        Some(number) => number < base,
        None => false,
    }
}

/// How a doubt begins.
fn doubt_words(doubted: bool) -> &'static [u8]
    ensures { result.now ≡ doubt_words doubted }
{
    if doubted { b"doubt: " } else { b"" }
}

/// Prints what a full cell holds.
fn print_record<W: Write>(number: Option<u64>, output: &mut W) -> Result<(), WriteFault>
    ensures { Prints result (W.contents output.old) (W.contents output.new) (record_words number) }
{
    match number {
        Some(number) => {
            print_text(output, b"record ")?;
            print_number(output, number)
        }
        None => print_text(output, b"no record"),
    }
}
