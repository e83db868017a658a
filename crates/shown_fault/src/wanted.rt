//! What has to stand at a place of a line, after words without a fault.
ghost use Rattle.std.specs.Prelude.{◌≡◌};
ghost use Rattle.plant_words.specs.Words.{words_of};
ghost use Rattle.shown_fault.specs.Wanted.{by_place, in_rule, in_places, in_transition, in_updates, begins_update, is_last, after_first, after_more, places_of, wanted_in};

use crate::front::{count_words, has_word, is_word_at, word_at};
use crate::table::row_of;

/// What has to stand at a place of a line.
#[derive(Clone, Copy, Debug, PartialEq, Eq)]
pub(crate) enum Wanted {
    /// The word that says what kind of line it is.
    First,
    /// A name that the line declares.
    NewName,
    /// `init`, or nothing.
    Mark,
    /// The first value of a variable.
    Number,
    /// A variable that a port exports.
    Export,
    /// The port of a transition.
    Port,
    /// `from`
    From,
    /// The first place of a list.
    Place,
    /// A further source, or `to`.
    Source,
    /// A further target, or what stands after the targets.
    Target,
    /// A word of a transition's guard, or `do` after it.
    Guard,
    /// The variable of an update.
    Variable,
    /// `:=`
    Assign,
    /// A word of an update's value, or `;` after it.
    Value,
    /// The first word of a connector's tree.
    Tree,
    /// A further word of it.
    Leaf,
    /// The variable that a transfer sets.
    Transfer,
    /// A word of an expression over a connector's variables.
    Clause,
    /// A side of a rule.
    Side,
    /// `<`
    Below,
    /// `when`, or nothing: the begin of a rule's condition.
    When,
    /// The atom of a condition.
    ConditionAtom,
    /// `at`
    ConditionAt,
    /// The place of a condition, one of its atom.
    ConditionPlace,
    /// The connector of a line `maximal`.
    Whole,
    /// Nothing more.
    End,
}

/// What has to stand after these words of a line.
#[tactic(auto, unfolding(crate::specs::Wanted::wanted_in))]
pub(crate) fn wanted_after(front: &[u8]) -> Wanted
    ensures { result ≡ wanted_in (words_of front.now) }
{
    match word_at(front, 0) {
        Some(first) => after_first(first, front),
        None => Wanted::First,
    }
}

/// What has to stand after one word of a line, after two, and after more, by the first of them.
pub(crate) const PLACES: [(&str, (Wanted, Wanted, Wanted)); 10] = [
    ("atom", (Wanted::NewName, Wanted::End, Wanted::End)),
    ("place", (Wanted::NewName, Wanted::Mark, Wanted::End)),
    ("var", (Wanted::NewName, Wanted::Number, Wanted::End)),
    ("port", (Wanted::NewName, Wanted::Export, Wanted::Export)),
    ("trans", (Wanted::Port, Wanted::From, Wanted::Source)),
    ("connector", (Wanted::NewName, Wanted::Tree, Wanted::Leaf)),
    ("guard", (Wanted::Clause, Wanted::Clause, Wanted::Clause)),
    ("move", (Wanted::Transfer, Wanted::Assign, Wanted::Clause)),
    ("prio", (Wanted::Side, Wanted::Below, Wanted::When)),
    ("maximal", (Wanted::Whole, Wanted::End, Wanted::End)),
];

/// What has to stand at the places of a line that begins with this word.
#[tactic(auto, unfolding(crate::specs::Wanted::places_of))]
fn places_of(first: &[u8]) -> Option<(Wanted, Wanted, Wanted)>
    ensures { result ≡ places_of first.now }
{
    row_of(&PLACES, first)
}

/// What has to stand after these words of a line, of which this is the first.
fn after_first(first: &[u8], front: &[u8]) -> Wanted
    ensures { result ≡ after_first first.now (words_of front.now) }
{
    match places_of(first) {
        Some((one, two, more)) => by_place(count_words(front), one, two, after_more(more, front)),
        None => Wanted::End,
    }
}

/// What has to stand after more words of a line: in a transition and in a rule these say it, and elsewhere it is always the same.
fn after_more(more: Wanted, front: &[u8]) -> Wanted
    ensures { result ≡ after_more more (words_of front.now) }
{
    match more {
        Wanted::Source => in_transition(front),
        Wanted::When => in_rule(count_words(front)),
        _ => more,
    }
}

/// What has to stand after one word, after two, and after more.
fn by_place(count: usize, one: Wanted, two: Wanted, more: Wanted) -> Wanted
    ensures { result ≡ by_place count one two more }
{
    match count {
        1 => one,
        2 => two,
        _ => more,
    }
}

/// What has to stand after the sign of a rule, or further on.
fn in_rule(count: usize) -> Wanted
    ensures { result ≡ in_rule count }
{
    match count {
        3 => Wanted::Side,
        4 => Wanted::When,
        5 => Wanted::ConditionAtom,
        6 => Wanted::ConditionAt,
        7 => Wanted::ConditionPlace,
        _ => Wanted::End,
    }
}

/// What has to stand after the `from` of a transition: the last of its keywords says where that is.
fn in_transition(front: &[u8]) -> Wanted
    ensures { result ≡ in_transition (words_of front.now) }
{
    if has_word(front, b"do") {
        in_updates(front)
    } else if has_word(front, b"when") {
        Wanted::Guard
    } else if has_word(front, b"to") {
        in_places(is_last(front, 1, b"to"), Wanted::Target)
    } else {
        in_places(is_last(front, 1, b"from"), Wanted::Source)
    }
}

/// What has to stand in a list of places: a first one, or what may stand after it.
fn in_places(is_first: bool, after: Wanted) -> Wanted
    ensures { result ≡ in_places is_first after }
{
    if is_first { Wanted::Place } else { after }
}

/// What has to stand after the `do` of a transition.
fn in_updates(front: &[u8]) -> Wanted
    ensures { result ≡ in_updates (words_of front.now) }
{
    if begins_update(front, 1) {
        Wanted::Variable
    } else if begins_update(front, 2) {
        Wanted::Assign
    } else {
        Wanted::Value
    }
}

/// Whether an update begins after the word with this number, counted from the last as 1.
fn begins_update(front: &[u8], number: usize) -> bool
    ensures { result ≡ begins_update (words_of front.now) number }
{
    is_last(front, number, b"do") || is_last(front, number, b";")
}

/// Whether the word with this number, counted from the last as 1, is this one.
fn is_last(front: &[u8], number: usize, word: &[u8]) -> bool
    ensures { result ≡ is_last (words_of front.now) number word.now }
{
    is_word_at(front, count_words(front).saturating_sub(number), word)
}

impl Wanted {
    ghost use Rattle.shown_fault.specs.Wanted.{is_of_expression, is_of_tree, expected_text};

    /// Whether a word of an expression may stand there.
    pub(crate) fn is_of_expression(self) -> bool
        ensures { result ≡ is_of_expression self }
    {
        matches!(self, Wanted::Guard | Wanted::Value | Wanted::Clause)
    }

    /// Whether a word of a tree has to stand there.
    pub(crate) fn is_of_tree(self) -> bool
        ensures { result ≡ is_of_tree self }
    {
        matches!(self, Wanted::Tree | Wanted::Leaf)
    }

    /// What has to stand there, to a person; empty if a word too many stands there.
    pub(crate) fn expected_text(self) -> &'static str
        ensures { result.now ≡ expected_text self }
    {
        match self {
            Wanted::First => "a kind of line",
            Wanted::NewName => "a name",
            Wanted::Mark => "'init'",
            Wanted::Number => "a number",
            Wanted::Export => "a variable",
            Wanted::Port => "a port",
            Wanted::From => "'from'",
            Wanted::Place => "a place",
            Wanted::Source => "'to'",
            Wanted::Target => "'when' or 'do'",
            Wanted::Guard => "'do'",
            Wanted::Variable => "a variable",
            Wanted::Assign => "':='",
            Wanted::Value => "';'",
            Wanted::Tree => "a port as ATOM.PORT",
            Wanted::Leaf => "a port as ATOM.PORT",
            Wanted::Transfer => "a variable as ATOM.VAR",
            Wanted::Clause => "",
            Wanted::Side => "a connector",
            Wanted::Below => "'<'",
            Wanted::When => "'when'",
            Wanted::ConditionAtom => "an atom",
            Wanted::ConditionAt => "'at'",
            Wanted::ConditionPlace => "a place",
            Wanted::Whole => "a connector",
            Wanted::End => "",
        }
    }
}
