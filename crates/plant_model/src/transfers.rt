//! What a choice delivers to its participants.
ghost use Rattle.std.specs.Prelude.{◌≡◌, ◌≤◌, ◌<◌, ◌==◌, ◌&&◌, ◌++◌, ◌∷◌, [], List, option_map, IfSome, None, find, map, length, replicate};
ghost use Rattle.petri_atom.specs.Expression.{tree_of, value_of};
ghost use Rattle.connector_tree.specs.declared.tree.TheConstants.{MAX_LEAVES};
ghost use Rattle.petri_atom.specs.Local.{Local};
ghost use Rattle.plant_model.specs.Chosen.{firing_of};
ghost use Rattle.plant_model.specs.Delivery.{AreApart, AreDelivered, IsChanged, IsDelivered, IsGiven, IsPlaceOf};
ghost use Rattle.plant_model.specs.Fitting.{IsOf};
ghost use Rattle.plant_model.specs.BoundExpressions.{DeliveryDefinition, copied_by, deliveries_in, deliveries_with, delivery_of, given_copies, given_for, has_all, input_of, inputs_of, value_for};
ghost use Rattle.plant_model.specs.Values.{value_there};
ghost use Rattle.plant_model.specs.Step.{transfer, nothing_delivered};

use crate::bound_expressions::has_all;
use crate::bound_input::BoundInput;
use crate::choice::{Choice, Move};
use crate::copy_row::CopyRow;
use crate::delivery::{Deliveries, Delivery, MadeValues};
use crate::state::PlantState;
use crate::system::System;
use connector_tree::{MAX_LEAVES, Mask};
use petri_atom::{Delivered, MAX_EXPORTS};

impl System {
    ghost use Rattle.plant_model.specs.System.{plant_of};

    /// What the choice delivers to the atom where these values come in, on the values from before the firing; nothing to an atom
    /// that takes no part.
    pub fn transfer(
        &self,
        states: &PlantState,
        choice: &Choice,
        inputs: &[i64],
        atom: u16,
    ) -> Delivered
        requires { IsOf (plant_of self.now) states.now }
        ensures { result ≡ transfer (plant_of self.now) states.now (firing_of choice.now inputs.now) atom }
    {
        let mask = choice.mask;
        match self.bound.get(usize::from(choice.connector)) {
            Some(bound) => {
                let mut delivered = given_for(&bound.deliveries, states, mask, atom);
                add_inputs(&bound.inputs, inputs, mask, atom, &mut delivered);
                delivered
            }
            None => nothing_delivered(),
        }
    }

    /// Puts what the choice delivers where these values come in to the atom of each of its moves at the places of the moves,
    /// whatever was there. The rest of the row stays as it is: to clear all of it costs as much as a short firing.
    pub fn deliver(
        &self,
        states: &PlantState,
        choice: &Choice,
        inputs: &[i64],
        delivered: &mut [Delivered; MAX_LEAVES],
    )
        requires of_plant { IsOf (plant_of self.now) states.now }
        requires apart { AreApart choice.now.moves }
        ensures { AreDelivered choice.now.moves (transfer (plant_of self.now) states.now (firing_of choice.now inputs.now)) delivered.new }
    {
        self.deliver_transfers(states, choice, delivered);
        if !inputs.is_empty() {
            self.deliver_values_in(choice, inputs, delivered);
        }
    }

    /// Does so where no value comes in.
    fn deliver_transfers(
        &self,
        states: &PlantState,
        choice: &Choice,
        delivered: &mut [Delivered; MAX_LEAVES],
    )
        requires of_plant { IsOf (plant_of self.now) states.now }
        requires apart { AreApart choice.now.moves }
        ensures { AreDelivered choice.now.moves (transfer (plant_of self.now) states.now (firing_of choice.now [])) delivered.new }
    {
        let mask = choice.mask;
        let moves = choice.moves.as_slice();
        deliver_nothing(moves, delivered);
        if let Some(bound) = self.bound.get(usize::from(choice.connector)) {
            deliver_all(&bound.deliveries, states, mask, moves, delivered);
        }
    }

    /// Adds the values that come in to what the transfers delivered: a call, so that a firing without values costs one test more.
    #[inline(never)]
    fn deliver_values_in(
        &self,
        choice: &Choice,
        inputs: &[i64],
        delivered: &mut [Delivered; MAX_LEAVES],
    )
        requires apart { AreApart choice.now.moves }
        ensures { (states : List Local) → AreDelivered choice.now.moves (transfer (plant_of self.now) states (firing_of choice.now [])) delivered.old
            → AreDelivered choice.now.moves (transfer (plant_of self.now) states (firing_of choice.now inputs.now)) delivered.new }
    {
        let mask = choice.mask;
        let moves = choice.moves.as_slice();
        if let Some(bound) = self.bound.get(usize::from(choice.connector)) {
            deliver_inputs(&bound.inputs, inputs, mask, moves, delivered);
        }
    }
}

/// Puts the values that come in, each for the input at its place, after what the transfers give to the atoms of the moves.
fn deliver_inputs(
    inputs: &[Option<BoundInput>],
    values: &[i64],
    mask: Mask,
    moves: &[Move],
    delivered: &mut [Delivered; MAX_LEAVES],
)
    requires few { length moves.now ≤ MAX_LEAVES }
    requires apart { AreApart moves.now }
    ensures { (states : List Local) (ds : List DeliveryDefinition) → AreDelivered moves.now (given_for states ds mask) delivered.old
        → AreDelivered moves.now (given_for states (ds ++ deliveries_with (inputs_of inputs.now) values.now) mask) delivered.new }
{
    match inputs {
        [] => {}
        [input, rest @ ..] => match values {
            [] => {}
            [value, others @ ..] => {
                deliver_input(input, *value, mask, moves, delivered);
                deliver_inputs(rest, others, mask, moves, delivered);
            }
        },
    }
}

/// Puts one value that comes in, if its input has a target and applies.
fn deliver_input(
    input: &Option<BoundInput>,
    value: i64,
    mask: Mask,
    moves: &[Move],
    delivered: &mut [Delivered; MAX_LEAVES],
)
    requires few { length moves.now ≤ MAX_LEAVES }
    requires apart { AreApart moves.now }
    ensures { (states : List Local) (ds : List DeliveryDefinition) → AreDelivered moves.now (given_for states ds mask) delivered.old
        → AreDelivered moves.now (given_for states (ds ++ deliveries_with (option_map input_of input.now ∷ []) (value ∷ [])) mask) delivered.new }
{
    if let Some(found) = input {
        if has_all(mask, found.leaves) {
            give_input(found, value, mask, moves, delivered);
        }
    }
}

/// Gives the target of the input this value, unless it has one.
fn give_input(
    input: &BoundInput,
    value: i64,
    mask: Mask,
    moves: &[Move],
    delivered: &mut [Delivered; MAX_LEAVES],
)
    requires few { length moves.now ≤ MAX_LEAVES }
    requires apart { AreApart moves.now }
    ensures { IsGiven moves.now (λ other. input.now.atom == other) input.now.export value delivered.old delivered.new }
{
    let lower = u64::from(mask) & input.lower;
    if let Some(place) = place_behind(moves, input.atom, lower) {
        delivered[place].give_at(input.export, input.bit, value);
    }
}

/// Adds the values that come in for the atom to what the transfers give it.
fn add_inputs(
    inputs: &[Option<BoundInput>],
    values: &[i64],
    mask: Mask,
    atom: u16,
    delivered: &mut Delivered,
)
    ensures { (states : List Local) (ds : List DeliveryDefinition) → delivered.old ≡ given_for states ds mask atom
        → delivered.new ≡ given_for states (ds ++ deliveries_with (inputs_of inputs.now) values.now) mask atom }
{
    match inputs {
        [] => {}
        [input, rest @ ..] => match values {
            [] => {}
            [value, others @ ..] => {
                add_input(input, *value, mask, atom, delivered);
                add_inputs(rest, others, mask, atom, delivered);
            }
        },
    }
}

/// Adds one of them, if its input has a target, applies and is to the atom.
fn add_input(
    input: &Option<BoundInput>,
    value: i64,
    mask: Mask,
    atom: u16,
    delivered: &mut Delivered,
)
    ensures { (states : List Local) (ds : List DeliveryDefinition) → delivered.old ≡ given_for states ds mask atom
        → delivered.new ≡ given_for states (ds ++ deliveries_with (option_map input_of input.now ∷ []) (value ∷ [])) mask atom }
{
    if let Some(found) = input {
        if is_input_of(found, mask, atom) {
            delivered.give_at(found.export, found.bit, value);
        }
    }
}

/// Whether the input applies, and is to the atom.
fn is_input_of(input: &BoundInput, mask: Mask, atom: u16) -> bool
    ensures { result ≡ (has_all mask input.now.leaves && input.now.atom == atom) }
{
    has_all(mask, input.leaves) && input.atom == atom
}

/// Puts that nothing is delivered at the places of the moves.
fn deliver_nothing(moves: &[Move], delivered: &mut [Delivered; MAX_LEAVES])
    requires { length moves.now ≤ MAX_LEAVES }
    ensures { IsDelivered moves.now (λ _. nothing_delivered) delivered.new }
{
    for place in 0..moves.len() {
        delivered[place].clear();
    }
}

/// Puts what the deliveries that apply give to the atoms of the moves at the places of the moves, at which nothing is delivered yet.
fn deliver_all(
    deliveries: &Deliveries,
    states: &PlantState,
    mask: Mask,
    moves: &[Move],
    delivered: &mut [Delivered; MAX_LEAVES],
)
    requires few { length moves.now ≤ MAX_LEAVES }
    requires apart { AreApart moves.now }
    requires nothing { IsDelivered moves.now (λ _. nothing_delivered) delivered.old }
    ensures { AreDelivered moves.now (given_for states.now (deliveries_in deliveries.now) mask) delivered.new }
{
    match deliveries {
        Deliveries::Copies(rows) => deliver_copies(rows, states, mask, moves, delivered),
        Deliveries::Values(values) => deliver_values(values, states, mask, moves, delivered),
    }
}

/// The same of transfers that copy variables.
fn deliver_copies(
    rows: &[CopyRow],
    states: &PlantState,
    mask: Mask,
    moves: &[Move],
    delivered: &mut [Delivered; MAX_LEAVES],
)
    requires few { length moves.now ≤ MAX_LEAVES }
    requires apart { AreApart moves.now }
    requires nothing { IsDelivered moves.now (λ _. nothing_delivered) delivered.old }
    ensures { AreDelivered moves.now (given_for states.now (copied_by rows.now) mask) delivered.new }
{
    for row in rows {
        if has_all(mask, row.leaves) {
            deliver_row(row, states, mask, moves, delivered);
        }
    }
}

/// Gives the exported variables of the row their values, where they have none.
fn deliver_row(
    row: &CopyRow,
    states: &PlantState,
    mask: Mask,
    moves: &[Move],
    delivered: &mut [Delivered; MAX_LEAVES],
)
    requires few { length moves.now ≤ MAX_LEAVES }
    requires apart { AreApart moves.now }
    ensures { IsChanged moves.now (λ other. row.now.atom == other) (given_copies states.now 0 row.now.cells) delivered.old delivered.new }
{
    let lower = u64::from(mask) & row.lower;
    if let Some(place) = place_behind(moves, row.atom, lower) {
        row.give(states, &mut delivered[place]);
    }
}

/// The same of transfers of which some make a value.
#[inline(never)]
fn deliver_values(
    values: &MadeValues,
    states: &PlantState,
    mask: Mask,
    moves: &[Move],
    delivered: &mut [Delivered; MAX_LEAVES],
)
    requires few { length moves.now ≤ MAX_LEAVES }
    requires apart { AreApart moves.now }
    requires nothing { IsDelivered moves.now (λ _. nothing_delivered) delivered.old }
    ensures { AreDelivered moves.now (given_for states.now (map delivery_of values.now.all.items) mask) delivered.new }
{
    if moves.is_empty() {
        return;
    }
    let mut place = 0;
    for number in 0..values.leaves.len() {
        if has_all(mask, values.leaves[number]) {
            place = deliver_one(&values.all[number], states, mask, moves, place, delivered);
        }
    }
}

/// Gives the target of the delivery its value, unless it has one. Its atom's move is looked for at the place `last` first, and the place
/// where it stands is the result, or `last` if it has none.
fn deliver_one(
    delivery: &Delivery,
    states: &PlantState,
    mask: Mask,
    moves: &[Move],
    last: usize,
    delivered: &mut [Delivered; MAX_LEAVES],
) -> usize
    requires few { length moves.now ≤ MAX_LEAVES }
    requires apart { AreApart moves.now }
    requires last { last < length moves.now }
    ensures given { IsGiven moves.now (λ other. delivery.now.atom == other) delivery.now.export (value_of (value_there states.now) (tree_of delivery.now.value.tree)) delivered.old delivered.new }
    ensures place { result < length moves.now }
{
    let lower = u64::from(mask) & delivery.lower;
    match place_of(moves, delivery.atom, last, lower) {
        Some(place) => {
            let value = delivery.value.value(states);
            delivered[place].give_at(delivery.export, delivery.bit, value);
            place
        }
        None => last,
    }
}

/// The place of the atom's move, if it has one. It is looked for at the place `last` first, and then behind as many moves as there are
/// lower leaves.
fn place_of(moves: &[Move], atom: u16, last: usize, lower: u64) -> Option<usize>
    requires apart { AreApart moves.now }
    requires last { last < length moves.now }
    ensures found { IfSome result (λ place. IsPlaceOf moves.now atom place) }
    ensures none { result ≡ None → find (λ m. m.atom == atom) moves.now ≡ None }
{
    // Transfers to one atom mostly stand together: these take no search.
    if moves[last].atom == atom {
        return Some(last);
    }
    place_behind(moves, atom, lower)
}

/// The place of the atom's move, if it has one. It is looked for behind as many moves as there are lower leaves first.
fn place_behind(moves: &[Move], atom: u16, lower: u64) -> Option<usize>
    requires apart { AreApart moves.now }
    ensures found { IfSome result (λ place. IsPlaceOf moves.now atom place) }
    ensures none { result ≡ None → find (λ m. m.atom == atom) moves.now ≡ None }
{
    // The moves of a choice rise by their atoms.
    let expected = lower.count_ones() as usize;
    if expected < moves.len() && moves[expected].atom == atom {
        return Some(expected);
    }
    find_move(moves, atom)
}

/// The place of the first move of the atom, if there is one.
#[inline(never)]
fn find_move(moves: &[Move], atom: u16) -> Option<usize>
    ensures found { IfSome result (λ place. IsPlaceOf moves.now atom place) }
    ensures none { result ≡ None → find (λ m. m.atom == atom) moves.now ≡ None }
{
    for place in 0..moves.len() {
        if moves[place].atom == atom {
            return Some(place);
        }
    }
    None
}

/// What the deliveries that apply give to the atom.
fn given_for(deliveries: &Deliveries, states: &PlantState, mask: Mask, atom: u16) -> Delivered
    ensures { result ≡ given_for states.now (deliveries_in deliveries.now) mask atom }
{
    match deliveries {
        Deliveries::Copies(rows) => copied_for(rows, states, mask, atom),
        Deliveries::Values(values) => made_for(&values.all, states, mask, atom),
    }
}

/// The same of transfers that copy variables.
fn copied_for(rows: &[CopyRow], states: &PlantState, mask: Mask, atom: u16) -> Delivered
    ensures { result ≡ given_for states.now (copied_by rows.now) mask atom }
{
    let mut delivered = nothing_delivered();
    for row in rows {
        if has_all(mask, row.leaves) && row.atom == atom {
            row.give(states, &mut delivered);
        }
    }
    delivered
}

/// The same of transfers of which some make a value.
fn made_for(deliveries: &[Delivery], states: &PlantState, mask: Mask, atom: u16) -> Delivered
    ensures { result ≡ given_for states.now (map delivery_of deliveries.now) mask atom }
{
    Delivered::of([
        value_for(deliveries, states, mask, atom, 0),
        value_for(deliveries, states, mask, atom, 1),
        value_for(deliveries, states, mask, atom, 2),
        value_for(deliveries, states, mask, atom, 3),
    ])
}

/// The value that the exported variable of the atom gets, if a delivery to it applies.
fn value_for(
    deliveries: &[Delivery],
    states: &PlantState,
    mask: Mask,
    atom: u16,
    export: u8,
) -> Option<i64>
    ensures { result ≡ value_for states.now (map delivery_of deliveries.now) mask atom export }
{
    for delivery in deliveries {
        if delivery.applies_to(mask, atom, export) {
            return Some(delivery.value.value(states));
        }
    }
    None
}

/// Nothing delivered.
pub fn nothing_delivered() -> Delivered
    ensures { result ≡ nothing_delivered }
{
    Delivered::of([None; MAX_EXPORTS])
}

/// Nothing delivered, at each place.
pub fn no_deliveries() -> [Delivered; MAX_LEAVES]
    ensures { result ≡ replicate MAX_LEAVES nothing_delivered }
{
    [nothing_delivered(); MAX_LEAVES]
}
