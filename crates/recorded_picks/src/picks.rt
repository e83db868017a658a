//! A source of picks over a reader.
ghost use Rattle.std.specs.Prelude.{◌≡◌, IfOk};
ghost use Rattle.std.specs.Option.{option_map};
ghost use Rattle.run_text.specs.Seen.{plant_of};
ghost use Rattle.recorded_picks.specs.Files.{picks_in};

use crate::kept_line::KEPT;
use crate::line::take_of_line;
use crate::names::PlantNames;
use arrayvec::ArrayVec;
use plant_model::System;
use plant_words::Lines;
use run_text::{Numbers, Pick, Picks, ReadFault};
use std::alloc::{AllocError, Global};
use std::io::BufRead;
use std::marker::Model;
use text_io::read_line;

/// The picks of a text, read line by line as they are taken. In a contract it is the list of those that are left, if the reader's
/// type says which bytes it has left.
///
/// Only the names of the plant take memory, when it is made: of the text one line is held at a time, as far as a pick can be long.
#[derive(Drop)]
pub struct RecordedPicks<'a, R: BufRead> {
    names: PlantNames<'a>,
    numbers: Numbers,
    reader: R,
    line: ArrayVec<u8, KEPT>,
    lines: u64,
}

impl<'a, R: BufRead> Model for RecordedPicks<'a, R> {
    ghost use Rattle.std.specs.Prelude.{List, Option, ◌+◌};
    ghost use Rattle.std.specs.Option.{option_map};
    ghost use Rattle.run_text.specs.Seen.{plant_of};
    ghost use Rattle.run_text.specs.Picks.{PickDefinition};
    ghost use Rattle.recorded_picks.specs.Files.{picks_from};

    ghost Value = { Option (List PickDefinition) };

    ghost view = { λ p. option_map (picks_from p.numbers (plant_of p.names.system.now) (p.lines + 1)) (R.remaining p.reader) };
}

impl<'a, R: BufRead + Drop> RecordedPicks<'a, R> {
    /// The picks that the reader's text has for the plant of the system; a number is taken as `numbers` says.
    pub fn new(
        alloc: Global,
        system: &'a System,
        reader: R,
        numbers: Numbers,
    ) -> Result<Self, AllocError>
        ensures { IfOk result (λ picks. picks ≡ option_map (picks_in numbers (plant_of system.now)) (R.remaining reader)) }
    {
        let names = PlantNames::new(alloc, system)?;
        Ok(RecordedPicks {
            names,
            numbers,
            reader,
            line: ArrayVec::new(),
            lines: 0,
        })
    }
}

impl<'a, R: BufRead> Picks for RecordedPicks<'a, R> {
    ghost left = { λ picks. picks };

    // The lines are counted: after the last number that a line can have, no line is read.
    fn next_pick(&mut self) -> Result<Option<Pick>, ReadFault> {
        while self.lines < u64::MAX {
            read_line(&mut self.reader, &mut self.line)?;
            let Some(line) = Lines::new(self.line.as_slice()).next_line() else {
                return Ok(None);
            };
            self.lines += 1;
            if let Some(take) = take_of_line(&self.names, self.numbers, line) {
                return Ok(Some(Pick {
                    place: self.lines,
                    take,
                }));
            }
        }
        Err(ReadFault)
    }
}
