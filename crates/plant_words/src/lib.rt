//! How a plant text is cut into lines and words, how words and expressions are read, and the steps that lines of every kind
//! share.
//!
//! A plant text is a list of bytes. [`Lines`] cuts it at each line feed, [`Words`] cuts a line at spaces and
//! tabs, and the readers say what one word is. The first word of a line says what the line adds: [`LineKind`] is the one
//! table of these words. What the words after it say, the layers above read, by a table of forms.
//!
//! - A carriage return directly before a line feed belongs to the line's end. Anywhere else it is a byte of its
//!   line, and [`is_legal`] refuses it, as it does each byte but printed ASCII, spaces and tabs. Such a byte is never a blank, so it
//!   stands in a word, and who takes that word finds it.
//! - The last line may lack its line feed. Nothing follows a line feed at the end of the text.
//! - [`is_passed_over`] says which lines say nothing: those without words, and comments, whose first word begins
//!   with `#`. They count as lines; a layer above asks whether their bytes are legal.
//!
//! In contracts, `Lines` is the list of the lines that are left, and `Words` that of the words, so a layer above
//! goes down a list. What a word is stands in `specs/` as a function on its bytes: `int_in`, `pick_in`,
//! `name_in`, `port_parts`, `export_parts` and `named_mask_in`.
//!
//! | Word | Is | Read by |
//! |---|---|---|
//! | `-12`, `007` | a number of the plant: an optional `-` and 1 to 19 digits, within an `i64` | [`read_int`] |
//! | `12` | digits alone, within a `u64` | [`read_decimal`] |
//! | `place_2` | a name, which is no reserved word | [`read_name`] |
//! | `A.p`, `A.p'` | a port in a connector's tree | [`split_port`] |
//! | `A.n` | an export of an atom | [`split_export`] |
//! | `link:3` | a connector and a mask | [`split_mask`] |
//!
//! [`is_numeric`] knows a word of an optional `-` and digits, also one that is no number of the plant.
//!
//! A [`NameIndex`] finds a name among those that lines declared, by one look-up of its hash. It takes memory, and so does an
//! expression: lines, words and parts are lent from the text.
//!
//! # Expressions
//!
//! An expression is written in prefix form, one word for each of its parts: a number, a variable, or an operator
//! with its operands after it. [`read_expression`] takes it from the front of a line's words, and leaves the words
//! after it: `&& < n 10 ! == n 3` says that n is below 10 and not 3.
//!
//! | Word | Is |
//! |---|---|
//! | `+ - * min max < <= == != && \|\|` | an operator with two operands |
//! | `!` | the operator with one operand |
//! | `-12`, `007` | a number, as above |
//! | another word | the variable that [`Variables`] names by it |
//!
//! In contracts an expression is a tree, and what words say is a function on their list, `expression_in`
//! (`specs/Expressions.antt`): it reads rows of expressions, where each word takes the ones directly after it as
//! its operands. It gives the tree and the words that are left, or the first fault from the left. Two laws say what
//! such a tree is made of (`proofs/ExpressionParts.antt`): it has at most `MAX_WORDS` words, and a test that each variable
//! passes that can be named is passed by each of its variables.
//!
//! - An expression has at most [`MAX_WORDS`](petri_atom::MAX_WORDS) words. So no text can make the calls nest deeper.
//! - Memory is taken for an operator when its operands have been read. Where it runs out the words are read on all the
//!   same: then too it is known whether they are an expression, and the words after it are left.
//!
//! # Steps
//!
//! Lines of atoms, of connectors and of rules are read by the same steps, and a [`LineFault`] says why one is refused. Each step
//! of [`reading`] takes words, or answers the fault of one; in `specs/Reading.antt` it is a function on the list of the words, and
//! what comes after a fault is not judged. A word with an illegal byte is [`LineFault::NotAscii`], whatever else it would be, and so
//! is one that is left over.
//!
//! # Modules
//!
//! - `lines`: the text as [`Lines`], and which bytes are legal ([`is_legal`]).
//! - `words`: a line as [`Words`], and which lines say nothing ([`is_passed_over`]).
//! - `line_kind`: what a line adds, by its first word ([`LineKind`], [`LINE_KINDS`]).
//! - `numbers`: words that are numbers ([`read_int`], [`read_decimal`], [`is_numeric`]).
//! - `names`: words that are names ([`read_name`]).
//! - `splits`: words of several parts, which may be any bytes ([`split_port`], [`split_export`], [`split_mask`]).
//! - `index`: names in written order, each found by its bytes ([`NameIndex`]).
//! - `expression_word`: what one word of an expression says, and which variables there are ([`Variables`]).
//! - `expression`: rows of words as an expression ([`read_expression`]).
//! - `expression_fault`: why words are no expression ([`ExpressionFault`]).
//! - `line_fault`: why a line is refused ([`LineFault`]).
//! - [`reading`]: the steps of reading a line.
#![tactic(auto)]

mod expression;
mod expression_fault;
mod expression_word;
mod index;
mod line_fault;
mod line_kind;
mod lines;
mod names;
mod numbers;
pub mod reading;
mod splits;
mod words;

pub use expression::read_expression;
pub use expression_fault::ExpressionFault;
pub use expression_word::{Variables, operator};
pub use index::NameIndex;
pub use line_fault::LineFault;
pub use line_kind::{AtomPart, LINE_KINDS, LineKind, RuleKind, WirePart};
pub use lines::{Lines, is_legal};
pub use names::read_name;
pub use numbers::{MAX_DIGITS, is_numeric, read_decimal, read_int};
pub use splits::{PortWord, split_export, split_mask, split_port};
pub use words::{Words, blanks_len, is_passed_over, word_len};
