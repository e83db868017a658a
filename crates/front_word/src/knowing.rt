//! What a pass knows, and the rule that ties it to the word. These types are for the proofs alone: no value of them is made.
use crate::front::Fronted;
use atomic_table::{Join, Play, Split, TableRule};
use plant_core::Front;
use std::collections::LinkedList;

/// What a pass knows: where the history opens, how much of it the pass has seen, what those had seen that were joined to it since its last read,
/// whether it publishes, and whether it was joined to another.
pub struct Known<E> {
    pub opening: Front,
    pub seen: LinkedList<E>,
    pub old: LinkedList<LinkedList<E>>,
    pub publishes: bool,
    pub spent: bool,
}

/// The rule of the word.
pub struct Rising;

impl<E: Fronted> TableRule<E, Known<E>, Front> for Rising {
    ghost use Rattle.front_word.specs.Rules.{IsPublished, first_pass};

    ghost holds = { λ opening s. IsPublished E.front opening s };

    ghost first = { λ opening. first_pass opening };
}

/// A step that reads.
pub(crate) struct Read;

impl<E: Fronted> Play<E, Known<E>> for Read {
    ghost use Rattle.front_word.specs.Rules.{Reads};

    ghost then = { Reads E.front };
}

/// A step that publishes.
pub(crate) struct Publish;

impl<E> Play<E, Known<E>> for Publish {
    ghost use Rattle.front_word.specs.Rules.{Publishes};

    ghost then = { Publishes };
}

/// A new watch beside a pass.
pub(crate) struct Beside;

impl<E> Split<Known<E>> for Beside {
    ghost use Rattle.front_word.specs.Rules.{watching};

    ghost left = { λ v. v };

    ghost right = { watching };
}

/// Two passes in one.
pub(crate) struct Together;

impl<E> Join<Known<E>> for Together {
    ghost use Rattle.front_word.specs.Rules.{joined, spent_pass};

    ghost both = { joined };

    ghost spent = { spent_pass };
}
