//! The table of a text: an entry for each line that adds a part.
ghost use Rattle.std.specs.Prelude.{◌≡◌, ◌++◌, IfOk, OnOk};
ghost use Rattle.plant_words.specs.Words.{words_of};
ghost use Rattle.part_lines.specs.Table.{entry_of, kind_of_words, part_lines};
ghost use Rattle.part_lines.specs.Lookup.{rule_lines};

use crate::kind::is_same_kind;
use plant_words::{LineKind, Lines, RuleKind, Words};
use std::alloc::{AllocError, Global};
use std::marker::Model;

/// A line that adds a part: the kind of the part, and the number of the line, from 1.
#[derive(Clone, Copy, Debug, PartialEq, Eq)]
pub struct PartLine {
    /// The kind of the part.
    pub kind: LineKind,
    /// The number of the line, from 1; 4,294,967,295 for each line past it, which no plant text has.
    pub line: u32,
}

/// Where the parts of a plant stand in its text. In a contract it is the list of the lines that add parts.
#[derive(Drop)]
pub struct PartLines {
    pub(crate) entries: Vec<PartLine>,
}

impl Model for PartLines {
    ghost use Rattle.std.specs.Prelude.{List};
    ghost use Rattle.part_lines.specs.declared.table.PartLine.{PartLine};

    ghost Value = { List PartLine };

    ghost view = { λ table. table.entries.items };
}

impl PartLines {
    /// The table of a text, made by one pass over it.
    pub fn of_text(alloc: Global, text: &[u8]) -> Result<Self, AllocError>
        ensures { IfOk result (λ table. table ≡ part_lines text.now) }
    {
        Ok(PartLines {
            entries: entries_of(alloc, text)?,
        })
    }
}

/// The lines of the rules, in order.
pub fn rule_lines(alloc: Global, text: &[u8]) -> Result<Vec<u32>, AllocError>
    ensures { IfOk result (λ lines. lines.items ≡ rule_lines text.now) }
{
    entries_of(alloc, text)?
        .iter()
        .filter(|entry| is_same_kind(entry.kind, LineKind::Rule(RuleKind::Priority)))
        .map(|entry| entry.line)
        .collect(alloc)
}

/// The entries of a text's table.
fn entries_of(alloc: Global, text: &[u8]) -> Result<Vec<PartLine>, AllocError>
    ensures { IfOk result (λ entries. entries.items ≡ part_lines text.now) }
{
    let mut entries = Vec::new(alloc);
    let mut lines = Lines::new(text);
    let mut number: u32 = 1;
    while let Some(line) = lines.next_line() {
        push_line(&mut entries, number, line)?;
        number = number.saturating_add(1);
    }
    Ok(entries)
}

/// Puts an entry for the line after the others, if it adds a part.
fn push_line(entries: &mut Vec<PartLine>, number: u32, line: &[u8]) -> Result<(), AllocError>
    ensures { OnOk result (entries.new.items ≡ entries.old.items ++ entry_of number line.now) }
{
    if let Some(kind) = kind_of(line) {
        entries.push(PartLine { kind, line: number })?;
    }
    Ok(())
}

/// The kind of part that the line adds, if it adds one.
fn kind_of(line: &[u8]) -> Option<LineKind>
    ensures { result ≡ kind_of_words (words_of line.now) }
{
    match Words::new(line).next_word() {
        Some(word) => LineKind::of(word),
        None => None,
    }
}
