//! The state of one atom as it was saved.
ghost use Rattle.std.specs.Prelude.{◌≡◌, ◌+◌, ◌*◌, ◌≤◌, IfSome, Some};
ghost use Rattle.record_codec.specs.Answers.{IsAnswer};
ghost use Rattle.record_codec.specs.Bytes.{padded};
ghost use Rattle.record_codec.specs.Saved.{IsSaved, IsSavedBody, SavedFits, saved_bytes, saved_in};

use crate::layout::{BODY, LAST_NUMBER, MOST_ATOMS, MOST_VARIABLES};
use crate::reader::Reader;
use crate::writer::Writer;
use std::marker::Model;

/// The state of one atom as it was saved.
#[derive(Debug, Drop)]
pub struct Saved {
    atom: u16,
    count: u64,
    at: u64,
    marking: u64,
    variables: usize,
    values: [i64; MOST_VARIABLES],
}

// Clauses see the fields, and the values as a list.
impl Model for Saved {
    ghost use Rattle.std.specs.Prelude.{◌≤◌, take};
    ghost use Rattle.record_codec.specs.declared.layout.TheConstants.{MOST_VARIABLES};
    ghost use Rattle.record_codec.specs.Saved.{SavedFields, IsSaved};

    ghost Value = { SavedFields };

    ghost view = { λ s. record { atom = s.atom; count = s.count; at = s.at; marking = s.marking; values = take s.variables s.values } };

    ghost invariant = { λ s. (s.variables ≤ MOST_VARIABLES) × IsSaved (record { atom = s.atom; count = s.count; at = s.at; marking = s.marking; values = take s.variables s.values }) };
}

impl Saved {
    /// The state of the atom with the number, as it stood when it had taken part `count` times and the last record that was fired was `at`.
    pub fn new(atom: u16, count: u64, at: u64, marking: u64, values: &[i64]) -> Saved
        requires { IsSaved (record { atom = atom; count = count; at = at; marking = marking; values = values.now }) }
        ensures { result ≡ record { atom = atom; count = count; at = at; marking = marking; values = values.now } }
    {
        let variables = values.len();
        let mut stored = [0; MOST_VARIABLES];
        stored[..variables].copy_from_slice(values);
        Saved {
            atom,
            count,
            at,
            marking,
            variables,
            values: stored,
        }
    }

    /// The number of the atom.
    pub fn atom(&self) -> u16
        ensures value { result ≡ self.now.atom }
        ensures in_range { IsSaved self.now }
    {
        self.atom
    }

    /// How often the atom had taken part.
    pub fn count(&self) -> u64
        ensures value { result ≡ self.now.count }
        ensures in_range { IsSaved self.now }
    {
        self.count
    }

    /// The number of the last record that was fired when the state was copied.
    pub fn at(&self) -> u64
        ensures value { result ≡ self.now.at }
        ensures in_range { IsSaved self.now }
    {
        self.at
    }

    /// The marked places: place j is bit j.
    pub fn marking(&self) -> u64
        ensures { result ≡ self.now.marking }
    {
        self.marking
    }

    /// The values of the atom's variables, in their order.
    pub fn values(&self) -> &[i64]
        ensures values { result.now ≡ self.now.values }
        ensures in_range { IsSaved self.now }
    {
        &self.values[..self.variables]
    }

    /// The body of a slot that holds this state, in a layout with bodies of this length.
    pub fn to_body<const LENGTH: usize>(&self) -> [u8; LENGTH]
        requires room { 27 + 8 * MOST_VARIABLES ≤ LENGTH }
        requires within { LENGTH ≤ BODY }
        ensures spelled { result ≡ padded LENGTH (saved_bytes self.now) }
        ensures fits { SavedFits self.now }
        ensures reads_back { saved_in result ≡ Some self.now }
    {
        let values = self.values();
        let mut writer = Writer::new();
        writer.two(self.atom);
        writer.eight(self.count);
        writer.eight(self.at);
        writer.eight(self.marking);
        writer.one(values.len() as u8);
        writer.signed_run(values);
        writer.body()
    }

    /// The saved state that the body holds, or `None` if it is no saved state's body.
    pub fn from_body<const LENGTH: usize>(body: &[u8; LENGTH]) -> Option<Saved>
        requires room { 27 + 8 * MOST_VARIABLES ≤ LENGTH }
        requires within { LENGTH ≤ BODY }
        ensures { IsAnswer (saved_in body.now) (IsSavedBody body.now) result }
    {
        Saved::held(body)
    }

    // The body of what the fields say is compared with the whole body, so nothing else of it is judged here.
    #[tactic(auto, unfolding(crate::specs::Saved::saved_in))]
    fn held<const LENGTH: usize>(body: &[u8; LENGTH]) -> Option<Saved>
        requires room { 27 + 8 * MOST_VARIABLES ≤ LENGTH }
        requires within { LENGTH ≤ BODY }
        ensures exact { result ≡ saved_in body.now }
        ensures fits { IfSome result SavedFits }
    {
        let mut reader = Reader::new(body);
        let atom = reader.two();
        let count = reader.eight();
        let at = reader.eight();
        let marking = reader.eight();
        let variables = reader.one() as usize;
        if variables > MOST_VARIABLES {
            return None;
        }
        let mut values = [0; MOST_VARIABLES];
        let values = &mut values[..variables];
        reader.signed_run(values);
        if atom >= MOST_ATOMS || count > at || at > LAST_NUMBER {
            return None;
        }
        let saved = Saved::new(atom, count, at, marking, values);
        if saved.to_body() == *body {
            Some(saved)
        } else {
            None
        }
    }
}
