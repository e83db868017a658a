//! Laws over the definitions alone: each is the contract of a function with an empty body.

ghost use Rattle.std.specs.Prelude.{◌≡◌, ◌≢◌, ◌↔◌, ℕ, ◌+◌, ◌<◌, List, length, Some};
ghost use Rattle.std.specs.Option.{option_map};
ghost use Rattle.record_codec.specs.declared.v1.TheConstants.{BODY as FIRST_BODY, VERSION as FIRST_VERSION, MOST_ENTRIES as FIRST_MOST_ENTRIES};
ghost use Rattle.record_codec.specs.Bytes.{AreBytes};
ghost use Rattle.record_codec.specs.Base.{IsBaseBody, base_in};
ghost use Rattle.record_codec.specs.Identity.{IdentityFields, IsIdentityBody, IsIdentityBodyOf, identity_in, identity_of, version_in};
ghost use Rattle.record_codec.specs.Saved.{SavedFields, IsSavedBody, saved_in};
ghost use Rattle.record_codec.specs.Fired.{FiredFields, IsFiredBody, IsFiredBodyUpTo, fired_in, fired_up_to};
ghost use Rattle.record_codec.specs.FirstLayout.{todays_body, todays_version, todays_identity, todays_record};
ghost use Rattle.record_codec.specs.Ring.{AreSameSlot, identity_cell, base_cell, slot_cell, record_cell, device_cells};

/// A body holds a base exactly if it is the base's spelling, and zeros.
pub fn base_grammar()
    ensures { (body : List ℕ) (number : ℕ) → (base_in body ≡ Some number) ↔ IsBaseBody body number }
{}

/// A body holds an identity exactly if it is the identity's spelling, and zeros.
pub fn identity_grammar()
    ensures this_layout { (body : List ℕ) (identity : IdentityFields) → (identity_in body ≡ Some identity) ↔ IsIdentityBody body identity }
    ensures any_layout { (version : ℕ) (body : List ℕ) (identity : IdentityFields)
        → (identity_of version body ≡ Some identity) ↔ IsIdentityBodyOf version body identity }
{}

/// A body holds a saved state exactly if it is the state's spelling, and zeros.
pub fn saved_grammar()
    ensures { (body : List ℕ) (saved : SavedFields) → AreBytes body → ((saved_in body ≡ Some saved) ↔ IsSavedBody body saved) }
{}

/// A body holds a record exactly if it is the record's spelling, and zeros.
pub fn fired_grammar()
    ensures this_layout { (body : List ℕ) (fired : FiredFields) → AreBytes body → ((fired_in body ≡ Some fired) ↔ IsFiredBody body fired) }
    ensures any_layout { (most : ℕ) (body : List ℕ) (fired : FiredFields) → AreBytes body
        → ((fired_up_to most body ≡ Some fired) ↔ IsFiredBodyUpTo most body fired) }
{}

/// Today's body of a base of the first layout holds the base that it held, or none.
pub fn first_layout_bases()
    ensures { (body : List ℕ) → length body ≡ FIRST_BODY → base_in (todays_body body) ≡ base_in body }
{}

/// Today's body of a saved state of the first layout holds the state that it held, or none.
pub fn first_layout_saved_states()
    ensures { (body : List ℕ) → AreBytes body → length body ≡ FIRST_BODY → saved_in (todays_body body) ≡ saved_in body }
{}

/// Today's body of an identity of the first layout holds the identity that it held, or none. It says the
/// version that the old body said, with the first and today's exchanged.
pub fn first_layout_identities()
    ensures identity { (body : List ℕ) → AreBytes body → length body ≡ FIRST_BODY
        → identity_in (todays_identity body) ≡ identity_of FIRST_VERSION body }
    ensures version { (body : List ℕ) → AreBytes body → length body ≡ FIRST_BODY
        → version_in (todays_identity body) ≡ option_map todays_version (version_in body) }
{}

/// Today's body of a record of the first layout holds the record that it held, or none.
pub fn first_layout_records()
    ensures { (body : List ℕ) → AreBytes body → length body ≡ FIRST_BODY
        → fired_in (todays_record body) ≡ fired_up_to FIRST_MOST_ENTRIES body }
{}

/// Two records whose numbers are less than the ring's length apart have cells of their own.
pub fn records_within_a_ring_differ()
    ensures { (atoms ring first second : ℕ) → first < second → second < first + ring
        → record_cell atoms ring first ≢ record_cell atoms ring second }
{}

/// A record's cell is never the identity's, a base's or a slot's.
pub fn records_keep_off_the_other_cells()
    ensures identity { (atoms ring number : ℕ) → record_cell atoms ring number ≢ identity_cell }
    ensures bases { (atoms ring number base : ℕ) → base < 2 → record_cell atoms ring number ≢ base_cell base }
    ensures slots { (atoms ring number atom slot : ℕ) → atom < atoms → slot < 2
        → record_cell atoms ring number ≢ slot_cell atom slot }
{}

/// Two slots with one cell are one slot, and no slot's cell is the identity's or a base's.
pub fn slots_have_cells_of_their_own()
    ensures differ { (atom slot other other_slot : ℕ) → slot < 2 → other_slot < 2
        → slot_cell atom slot ≡ slot_cell other other_slot → AreSameSlot atom slot other other_slot }
    ensures identity { (atom slot : ℕ) → slot_cell atom slot ≢ identity_cell }
    ensures bases { (atom slot base : ℕ) → base < 2 → slot_cell atom slot ≢ base_cell base }
{}

/// Each of these cells is one of the device's.
pub fn cells_are_the_devices()
    ensures bases { (atoms ring base : ℕ) → base < 2 → base_cell base < device_cells atoms ring }
    ensures slots { (atoms ring atom slot : ℕ) → atom < atoms → slot < 2 → slot_cell atom slot < device_cells atoms ring }
    ensures records { (atoms ring number : ℕ) → 0 < ring → record_cell atoms ring number < device_cells atoms ring }
{}
