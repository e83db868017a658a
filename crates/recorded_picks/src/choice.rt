//! The choice that the words of a fired line name.
ghost use Rattle.std.specs.Prelude.{◌≡◌, ◌∷◌, [], ◌++◌, ◌≤◌, map, length, Ok, Err, IfErr, IfOk, Some};
ghost use Rattle.std.specs.Cmp.Lexicographic.{pointwise};
ghost use Rattle.std.specs.Option.{option_and_then};
ghost use Rattle.run_text.specs.Seen.{choice_of, definition_of, plant_of};
ghost use Rattle.plant_model.specs.Interaction.{interaction_of};
ghost use Rattle.plant_model.specs.Laws.{is_of_port};
ghost use Rattle.recorded_picks.specs.Choices.{choice_in, connector_read, few_moves, fires, is_at_port, is_fired_by, mask_among, mask_of, moves_read};
ghost use Rattle.recorded_picks.specs.Moves.{move_read, moves_in};

use crate::names::PlantNames;
use connector_tree::{MAX_LEAVES, Mask, Port};
use petri_atom::Atom;
use plant_model::{Choice, Interaction, Move, Moves, System};
use plant_words::Words;
use run_text::{Misread, Word};

/// The choice that the name of a connector and the words after it name, or what is wrong with them.
pub fn read_choice(
    names: &PlantNames<'_>,
    connector: &[u8],
    words: &mut Words<'_>,
) -> Result<Choice, Misread>
    ensures choice { IfOk result (λ choice. choice_in (plant_of names.now.system.now) connector.now words.old ≡ Ok (choice_of choice)) }
    ensures misread { IfErr result (λ misread. choice_in (plant_of names.now.system.now) connector.now words.old ≡ Err misread) }
{
    let connector = read_connector(names, connector)?;
    let moves = read_moves(names, words)?;
    let mask = find_mask(names.system, connector, moves.as_slice()).ok_or(Misread::NoInteraction)?;
    Ok(Choice {
        connector,
        mask,
        moves,
    })
}

/// The connector with the name, or that there is none.
fn read_connector(names: &PlantNames<'_>, name: &[u8]) -> Result<u16, Misread>
    ensures { result ≡ connector_read (plant_of names.now.system.now) name.now }
{
    match names.find_connector(name) {
        Some(connector) => Ok(connector),
        None => Err(Misread::UnknownConnector(Word::of(name))),
    }
}

/// The moves that the words name. The words are read to their end: that there are too many is said only if each names a move.
fn read_moves(names: &PlantNames<'_>, words: &mut Words<'_>) -> Result<Moves, Misread>
    ensures { result ≡ moves_read (moves_in (plant_of names.now.system.now) words.old) }
{
    let mut moves = Some(Moves::none());
    while let Some(word) = words.next_word() {
        let step = read_move(names, word)?;
        moves = with_move(moves, step);
    }
    moves.ok_or(Misread::NoInteraction)
}

/// The move that the word names, or that it names none.
fn read_move(names: &PlantNames<'_>, word: &[u8]) -> Result<Move, Misread>
    ensures { result ≡ move_read (plant_of names.now.system.now) word.now }
{
    match names.find_move(word) {
        Some(step) => Ok(step),
        None => Err(Misread::UnknownMove(Word::of(word))),
    }
}

/// The moves with one more after them, if they are no more than an interaction has ports.
fn with_move(moves: Option<Moves>, step: Move) -> Option<Moves>
    ensures { result ≡ option_and_then (λ ms. few_moves (ms ++ step ∷ [])) moves }
{
    let mut moves = moves?;
    if moves.as_slice().len() == MAX_LEAVES {
        return None;
    }
    moves.push(step);
    Some(moves)
}

/// The mask of the interaction of the connector whose ports the moves fire.
fn find_mask(system: &System, connector: u16, moves: &[Move]) -> Option<Mask>
    ensures { result ≡ mask_of (plant_of system.now) connector moves.now }
{
    mask_among(system.atoms(), system.interactions(), connector, moves)
}

/// The mask of the first of the interactions that is one of the connector and whose ports the moves fire.
fn mask_among(
    atoms: &[Atom],
    interactions: &[Interaction],
    connector: u16,
    moves: &[Move],
) -> Option<Mask>
    ensures { result ≡ mask_among (map definition_of atoms.now) (map interaction_of interactions.now) connector moves.now }
{
    for interaction in interactions {
        if is_fired_by(atoms, interaction, connector, moves) {
            return Some(interaction.mask);
        }
    }
    None
}

/// Whether the interaction is one of the connector, and the moves fire its ports, one after the other.
fn is_fired_by(atoms: &[Atom], interaction: &Interaction, connector: u16, moves: &[Move]) -> bool
    ensures { result ≡ is_fired_by (map definition_of atoms.now) connector moves.now (interaction_of interaction.now) }
{
    interaction.connector == connector && are_fired(atoms, &interaction.ports, moves)
}

/// Whether the moves fire the ports, one after the other.
fn are_fired(atoms: &[Atom], ports: &[Port], moves: &[Move]) -> bool
    ensures { result ≡ pointwise (fires (map definition_of atoms.now)) ports.now moves.now }
{
    match ports {
        [] => moves.is_empty(),
        [port, later @ ..] => match moves {
            [] => false,
            [step, rest @ ..] => fires(atoms, *port, *step) && are_fired(atoms, later, rest),
        },
    }
}

/// Whether the move is one of the port's atom, by a transition of the port.
fn fires(atoms: &[Atom], port: Port, step: Move) -> bool
    ensures { result ≡ fires (map definition_of atoms.now) port step }
{
    step.atom == port.atom && is_at_port(atoms, port, step.transition)
}

/// Whether the transition of the port's atom is there, and is of the port.
fn is_at_port(atoms: &[Atom], port: Port, transition: u16) -> bool
    ensures { result ≡ is_at_port (map definition_of atoms.now) port transition }
{
    match atoms.get(usize::from(port.atom)) {
        Some(atom) => is_of_port(atom, port.port, transition),
        None => false,
    }
}

/// Whether the transition of the atom is there, and is of the port.
fn is_of_port(atom: &Atom, port: u16, transition: u16) -> bool
    ensures { result ≡ is_of_port (definition_of atom.now) port transition }
{
    match atom.transitions().get(usize::from(transition)) {
        Some(transition) => transition.port() == port,
        None => false,
    }
}
