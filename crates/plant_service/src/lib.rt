//! A durable plant that another program drives, line by line.
//!
//! [`serve`] reads a line, does what it asks for, prints the answer and a line `end`, and lets that out before it reads the next line. A line asks
//! for an event as in a script (`fire P`, `flush`, ..), or it asks a question: `choices`, `state`, `why`, `front`, `room`. `save` stores each atom's
//! state that is behind the acknowledged one, and drops the records that no restart needs. A line that asks for nothing is answered by what is
//! wrong with it, and the plant goes on.
//!
//! What a line means for a plant is one definition, `command_in` (`specs/Command.antt`). What is printed of an event is the line of a script's
//! answer (`script_lines`), and what is printed of a question is `query_text` (`specs/Queries.antt`). Contracts say that the plant was driven by the
//! events of these lines alone, in order, and that exactly their answers were appended to a writer, if its type says which bytes it took, and
//! that of the reader which bytes it gave. They say nothing of when a reader or a writer fails, nor of when a writer is flushed.
//!
//! - `serving`: the lines, one by one. `line_length`: how long a line may be. `command`: what a line asks for. `answering`: the answer to it.
//! - `queries`: the answers to questions. `room`: how much room there is. `saving`: all that is behind is saved.
//! - `fault`: why serving ended early. `on_image`: a plant that is booted from its image, and served. `ending`: why that ends early.
//!
//! Memory is taken before the first line alone.
#![tactic(auto)]

mod answering;
mod command;
mod ending;
mod fault;
mod line_length;
mod on_image;
mod queries;
mod room;
mod saving;
mod serving;

pub use ending::ServiceEnding;
pub use fault::ServeFault;
pub use line_length::MAX_LINE;
pub use on_image::serve_image;
pub use serving::serve;
