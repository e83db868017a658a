//! Printing to a writer that fails.
use plant_drawing::{ALL_ATOMS, Filling, draw_to};
use plant_model::System;
use plant_text::plant_of_text;
use run_text::{TraceFault, trace_as};
use std::alloc::Global;
use std::io;
use std::io::{ErrorKind, Write};
use std::test::Fail;
use step_core::Stepper;
use text_io::Format;

/// How many bytes a page has room for.
const PAGE: usize = 4096;

/// Takes so many bytes at a write, and no more than so many in all: an error comes where it is asked for more.
#[derive(Drop)]
struct Page {
    taken: [u8; PAGE],
    count: usize,
    step: usize,
    room: usize,
}

impl Page {
    fn new(step: usize, room: usize) -> Page {
        Page {
            taken: [0; PAGE],
            count: 0,
            step,
            room,
        }
    }

    /// Whether this is what was taken.
    fn is(&self, text: &[u8]) -> bool {
        &self.taken[..self.count.min(PAGE)] == text
    }
}

impl Write for Page {
    fn write(&mut self, buf: &[u8]) -> io::Result<usize> {
        let start = self.count.min(PAGE);
        let room = self.room.min(PAGE);
        if room <= start {
            return Err(io::Error::from(ErrorKind::WriteZero));
        }
        let count = self.step.min(buf.len()).min(room - start);
        self.taken[start..start + count].copy_from_slice(&buf[..count]);
        self.count = start + count;
        Ok(count)
    }

    fn flush(&mut self) -> io::Result<()> {
        Ok(())
    }
}

/// An atom with a variable, and a connector that delivers -7 to it.
const PLANT: &[u8] =
    b"atom A\nplace s init\nvar n 0\nport p n\ntrans p from s to s\nconnector c A.p\nmove A.n := -7\n";

/// The run of the plant by two picks.
const LINES: &str = "1 c A.p/0\n2 c A.p/0\nstate A [s] n=-7\n";

/// The same as rows.
const ROWS: &str =
    "kind,number,name,parts,values\nstep,1,c,A.p/0,A.n=-7\nstep,2,c,A.p/0,A.n=-7\nstate,,A,s,n=-7\n";

/// The same as objects.
const OBJECTS: &str =
    "{\"kind\":\"step\",\"number\":1,\"connector\":\"c\",\"participants\":[{\"atom\":\"A\",\"port\":\"p\",\"transition\":0,\"delivered\":{\"n\":-7}}]}\n\
    {\"kind\":\"step\",\"number\":2,\"connector\":\"c\",\"participants\":[{\"atom\":\"A\",\"port\":\"p\",\"transition\":0,\"delivered\":{\"n\":-7}}]}\n\
    {\"kind\":\"state\",\"atom\":\"A\",\"places\":[\"s\"],\"variables\":{\"n\":-7}}\n";

/// The drawing of the plant.
const DRAWING: &str = "digraph plant {
  fontname=\"Helvetica\";
  labelloc=b;
  nodesep=0.4;
  ranksep=0.6;
  node [fontname=\"Helvetica\"];
  edge [fontname=\"Helvetica\", fontsize=11];
  subgraph cluster_0 {
    label=\"A\\nn = 0\";
    place_0_0 [shape=circle, margin=0.03, style=filled, label=\"s\"];
    port_0_0 [shape=ellipse, label=\"p n\"];
    transition_0_0 [shape=box, label=\"p/0\"];
    port_0_0 -> transition_0_0 [style=dotted, arrowhead=none];
    place_0_0 -> transition_0_0;
    transition_0_0 -> place_0_0;
  }
  connector_0 [shape=box, style=\"rounded,filled\", fillcolor=lightyellow, label=\"c\\n A.p \\nA.n := -7\"];
  connector_0 -> port_0_0 [arrowhead=dot];
}
";

/// What is printed of the plant: its run in a format, or its drawing; and the text of it.
const PRINTED: [(Option<Format>, &str); 4] = [
    (Some(Format::Lines), LINES),
    (Some(Format::Csv), ROWS),
    (Some(Format::Jsonl), OBJECTS),
    (None, DRAWING),
];

/// Prints the drawing of the plant.
fn draw(alloc: Global, system: &System, page: &mut Page) -> Result<(), TraceFault> {
    let run = Stepper::first(alloc, system)?;
    Ok(draw_to(&run, ALL_ATOMS, Filling::Alike, page)?)
}

/// Prints the run of the plant in the format, or its drawing.
fn print(
    alloc: Global,
    system: &System,
    format: Option<Format>,
    page: &mut Page,
) -> Result<(), TraceFault> {
    match format {
        Some(format) => trace_as(alloc, system, &[0, 1], format, page),
        None => draw(alloc, system, page),
    }
}

/// Whether it is printed to its end where there is room for it, so many bytes at a write, and is otherwise cut off there, with an error.
fn is_cut_off(
    alloc: Global,
    system: &System,
    (format, text): (Option<Format>, &[u8]),
    (step, room): (usize, usize),
) -> bool {
    let mut page = Page::new(step, room);
    let answer = print(alloc, system, format, &mut page);
    let is_told = match answer {
        Ok(()) => text.len() <= room,
        Err(fault) => fault == TraceFault::Write && room < text.len(),
    };
    is_told && page.is(&text[..room.min(text.len())])
}

#[test]
fn a_failure_at_any_byte_is_told(rt: HostRuntime) -> Result<(), Fail> {
    let alloc = rt.alloc();
    let system = plant_of_text(alloc, PLANT)?;
    for (format, text) in PRINTED {
        let text = text.as_bytes();
        for step in [1, 7, PAGE] {
            for room in 0..=text.len() {
                assert!(rt;
                    is_cut_off(alloc, &system, (format, text), (step, room)),
                    "{room} by {step}"
                );
            }
        }
    }
    Ok(())
}

#[test]
fn each_fault_of_a_trace_has_its_message(rt: HostRuntime) -> Result<(), Fail> {
    let alloc = rt.alloc();
    let memory = TraceFault::Memory.to_string(alloc)?;
    let write = TraceFault::Write.to_string(alloc)?;
    assert_eq!(rt;
        memory.as_str(),
        "not enough memory for the states of the plant"
    );
    assert_eq!(rt; write.as_str(), "the trace could not be written");
    Ok(())
}
