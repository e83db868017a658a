//! The fault of a plant text, shown in its line, with advice.
//!
//! A program prints the fault of a text as a fixed line, for programs. What [`explain`] gives stands after it, for a person:
//!
//! ```text
//!   conveyor.plant:4:19
//!   trans p from s to q
//!                     ^ a name is not known here
//!   atom A has no place 'q'; it has: s
//! ```
//!
//! - Where to jump: the text's name, the line's number and the column at which the part at fault begins, counted in bytes from 1.
//! - The line with a mark under the part, which `plant_text` finds. Of a line with more than 100 characters a window is shown.
//! - What is wrong, and each piece of advice as a line of its own.
//! - A fault of no line has advice alone: of a cycle the interaction, and the rules that lead round.
//!
//! Each byte is shown so that no terminal takes it for a command ([`shown_name`]). A program that tells of a name in other words than those of a
//! plant text can ask by itself which name was perhaps meant ([`near_line`]).
//!
//! In contracts a text is the list of its lines. What is shown is one definition, `explanation_of` (`specs/Explanation.antt`), for
//! the line that has the fault and a part of it. The advice is a function of the fault, the other lines, the line, its words before
//! the part, and the part itself (`specs/Advice.antt`). It says nothing of memory: if there is none, nothing is shown.
//!
//! What is said of a word stands in tables of rows, which the contracts read too: `PLACES`, `OWNERS`, `SLIPS`, `SIGNS` and
//! `ENDS`. So a text is changed in one place.
//!
//! - `explanation`: the whole. `whole`: a fault of no line. `window`: where to jump, the line and the mark. `message`: what is wrong.
//! - `advice`: what can be done, by the fault. `spelling`: a word by itself. `misplaced_word`: a word at the wrong place. `operands`: a
//!   word of no expression. `unknown`: a name that is not there. `limits`: which limit. `kinds`: the kinds of lines, and a line of none.
//! - `rule_sign`: a rule with another word in the place of its sign. `condition`: the condition of a rule. `quotes`: a quote of a tree. `order`: a word by
//!   those before it. `places`: a place in the place of a variable. `exports`: a variable that no port exports. `masks`: the masks of a connector. `below`: a
//!   name that a later line declares. `parts`: the names of atoms and their parts.
//! - `here`: what would be right in a line. `prefix`: an expression put into prefix form. `tokens`: its words. `watch`: words that no run can be watched for.
//! - `front`: the words before. `wanted`: what has to stand after them. `names`: what earlier lines declare. `near`: a name that was
//!   perhaps meant. `missing`: the names that are there.
//! - `interaction`: the interaction with a number. `circle`: the rules that lead round. `shown`: bytes, and parts put together.
//! - `table`: the row of a table with a word. `lists`: parts of lists.
#![tactic(auto)]

mod advice;
mod below;
mod circle;
mod condition;
mod explanation;
mod exports;
mod front;
mod here;
mod interaction;
mod kinds;
mod limits;
mod lists;
mod masks;
mod message;
mod misplaced_word;
mod missing;
mod names;
mod near;
mod operands;
mod order;
mod parts;
mod places;
mod prefix;
mod quotes;
mod rule_sign;
mod shown;
mod spelling;
mod table;
mod tokens;
mod unknown;
mod wanted;
mod watch;
mod whole;
mod window;

pub use explanation::explain;
pub use near::near_line;
pub use shown::shown_name;
pub use watch::watch_advice;
