//! The base: the number of the first record that is kept.
ghost use Rattle.std.specs.Prelude.{◌≡◌, ◌≤◌, ℕ, Some};
ghost use Rattle.record_codec.specs.Answers.{IsAnswer};
ghost use Rattle.record_codec.specs.Bytes.{padded};
ghost use Rattle.record_codec.specs.Base.{IsBase, IsBaseBody, base_bytes, base_in};

use crate::layout::{BODY, LAST_NUMBER};
use crate::reader::Reader;
use crate::writer::Writer;
use std::marker::Model;

/// The number of the first record that is kept.
#[derive(Clone, Copy, Debug, PartialEq, Eq)]
pub struct Base {
    number: u64,
}

// Clauses see the number.
impl Model for Base {
    ghost Value = { ℕ };

    ghost view = { λ b. b.number };

    ghost invariant = { λ b. IsBase b.number };

    ghost inverse = { λ n. record { number = n } };
}

impl Base {
    /// The base at which the record with the number is the first that is kept.
    pub fn new(number: u64) -> Base
        requires { IsBase number }
        ensures { result ≡ number }
    {
        Base { number }
    }

    /// The number of the first record that is kept, from 1 on.
    pub fn number(&self) -> u64
        ensures value { result ≡ self.now }
        ensures in_range { IsBase self.now }
    {
        self.number
    }

    /// The body of a cell that holds this base, in a layout with bodies of this length.
    pub fn to_body<const LENGTH: usize>(&self) -> [u8; LENGTH]
        requires room { 8 ≤ LENGTH }
        requires within { LENGTH ≤ BODY }
        ensures spelled { result ≡ padded LENGTH (base_bytes self.now) }
        ensures reads_back { base_in result ≡ Some self.now }
    {
        let mut writer = Writer::new();
        writer.eight(self.number);
        writer.body()
    }

    /// The base that the body holds, or `None` if it is no base's body.
    pub fn from_body<const LENGTH: usize>(body: &[u8; LENGTH]) -> Option<Base>
        requires room { 8 ≤ LENGTH }
        requires within { LENGTH ≤ BODY }
        ensures { IsAnswer (base_in body.now) (IsBaseBody body.now) result }
    {
        Base::held(body)
    }

    // The body of what the fields say is compared with the whole body, so nothing else of it is judged here.
    #[tactic(auto, unfolding(crate::specs::Base::base_in))]
    fn held<const LENGTH: usize>(body: &[u8; LENGTH]) -> Option<Base>
        requires room { 8 ≤ LENGTH }
        requires within { LENGTH ≤ BODY }
        ensures { result ≡ base_in body.now }
    {
        let mut reader = Reader::new(body);
        let number = reader.eight();
        if number < 1 || number > LAST_NUMBER + 1 {
            return None;
        }
        let base = Base::new(number);
        if base.to_body() == *body {
            Some(base)
        } else {
            None
        }
    }
}
