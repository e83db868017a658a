//! What is asked of a durable plant, and what it answers.
ghost use Rattle.std.specs.Prelude.{◌≡◌};
ghost use Rattle.petri_atom.specs.Local.{has};

use crate::refused::Refused;
use petri_atom::{AtomState, Delivered};
use plant_model::{Choice, Inputs};
use record_codec::Saved;

/// What is asked of a durable plant.
#[derive(Drop)]
pub enum Event {
    /// To fire the choice at the place of the pick, modulo the number of choices, with these values.
    Fire(u128, Inputs),
    /// To fire this very choice with these values, if the plant has it now.
    FireChoice(Choice, Inputs),
    /// To acknowledge all that was fired.
    Flush,
    /// To copy the present state of the atom with the number, into its hand.
    Ask(u16),
    /// To store what the hand of the atom with the number holds.
    Put(u16),
    /// To store the acknowledged state of each atom whose newest saved state is behind it.
    Save,
    /// To drop the records that no restart needs.
    Trim,
    /// To begin the choice at the place of the pick, modulo the number of choices, with these values: the jobs of its participants go into
    /// their hands.
    Begin(u128, Inputs),
    /// To do the job that the hand of the atom with the number holds, and to hand it in.
    Back(u16),
}

/// A choice that was fired, with its number.
#[derive(Drop)]
pub struct FiredAs {
    /// The number of the record: the first that a plant ever fires is 1.
    pub number: u64,
    /// The choice.
    pub choice: Choice,
}

/// What a save stored.
#[derive(Clone, Copy)]
pub struct SavedTo {
    /// The number of the last choice that is acknowledged.
    pub number: u64,
    /// The atoms of which the acknowledged state was stored: bit n for atom n.
    pub atoms: u64,
}

impl SavedTo {
    /// Whether the state of the atom was stored.
    pub fn has(&self, atom: u16) -> bool
        ensures { result ≡ has self.now.atoms atom }
    {
        let atoms = self.atoms;
        atom < 64 && (atoms >> atom) & 1 == 1
    }
}

/// What happened to a durable plant: what was asked of it, together with its answer.
#[derive(Drop)]
pub enum Happened {
    /// A choice was to be fired by this pick with these values: it was, or the plant refused it.
    Fire(u128, Inputs, Result<FiredAs, Refused>),
    /// This choice was to be fired with these values: it was, or the plant refused it; none where the plant did not have it then.
    FireChoice(Choice, Inputs, Option<Result<FiredAs, Refused>>),
    /// What was fired was to be acknowledged: up to this number it is, or the plant refused it.
    Flush(Result<u64, Refused>),
    /// The present state of the atom with the number was to be copied: this is it, or the plant refused it.
    Ask(u16, Result<Saved, Refused>),
    /// This state was to be stored: it is the newest of its atom, which had taken part so often, or the plant refused it.
    Put(Saved, Result<u64, Refused>),
    /// What the hand of the atom with the number holds was to be stored, and it holds nothing, or there is no such hand.
    Empty(u16),
    /// The acknowledged state of each atom that is behind was to be stored: this is what was stored, or the plant refused it.
    Save(Result<SavedTo, Refused>),
    /// The records that no restart needs were to be dropped: this is the number of the first that is kept, or of the next, or the plant refused it.
    Trim(Result<u64, Refused>),
    /// A choice was to begin by this pick with these values: it did, or the plant refused it.
    Begin(u128, Inputs, Result<FiredAs, Refused>),
    /// This job, which was done, was to be taken back: the atom is present again, or the plant refused it.
    Back(Returned, Result<(), Refused>),
    /// The job that the hand of the atom with the number holds was to be done, and it holds none, or there is no such hand.
    Idle(u16),
}

/// A job that was done and handed in, as it was: a value to look at, which can't be handed in.
#[derive(Drop)]
pub struct Returned {
    /// Whether the atom has the definition that the plant's atom with its number has.
    pub own: bool,
    /// The number of the atom.
    pub atom: u16,
    /// The count that went along.
    pub count: u64,
    /// The transition that the atom fired.
    pub transition: u16,
    /// What was delivered to it.
    pub delivered: Delivered,
    /// Its state when it left.
    pub before: AtomState,
}
