//! The atom as its lines have written it so far.
ghost use Rattle.std.specs.Prelude.{◌<◌, ◌-◌, true, drop, length, map, IfSome, IsTrue, ◌≡◌, ◌≤◌, ◌∷◌, ◌++◌, IfOk, IfErr, OnOk, OnErr, IsOkAnd, Ok, Err, None, []};
ghost use Rattle.std.specs.List.{list_all};
ghost use Rattle.plant_words.specs.LineFaults.{IsFaultOf, IsLast};
ghost use Rattle.atom_lines.specs.Making.{IsRead, AreRead};
ghost use Rattle.atom_lines.specs.Rows.{place_row, variable_row, port_row, export_in, exports_in, with_place, with_variable, with_port};
ghost use Rattle.atom_lines.specs.Lookup.{place_number, variable_number, port_number, export_number};
ghost use Rattle.atom_lines.specs.Transitions.{port_in, place_in, places_in, places_after, expression_on, guard_in, update_in, updates_from, updates_in, transition_in, transition_row};
ghost use Rattle.atom_lines.specs.Sound.{is_sound_port, is_sound_transition};
ghost use Rattle.petri_atom.specs.Definition.{is_each_once};
ghost use Rattle.petri_atom.specs.Local.{are_places};
ghost use Rattle.petri_atom.specs.Name.{is_same_text};
ghost use Rattle.petri_atom.specs.Parts.{port_of};
ghost use Rattle.petri_atom.specs.Transition.{transition_of};
ghost use Rattle.petri_atom.specs.Expression.{tree_of};
ghost use Rattle.petri_atom.specs.Update.{update_of};
ghost use Rattle.petri_atom.specs.declared.state.TheConstants.{MAX_PLACES, MAX_VARIABLES, MAX_EXPORTS};
ghost use Rattle.petri_atom.specs.declared.parts.TheConstants.{MAX_PORTS, MAX_TRANSITIONS, MAX_UPDATES};

use crate::lookup;
use crate::reading::{goes_on, next_in_places, read_mark, read_value};
use arrayvec::ArrayVec;
use petri_atom::{
    Atom, AtomFault, Expression, MAX_EXPORTS, MAX_PLACES, MAX_PORTS, MAX_TRANSITIONS, MAX_UPDATES,
    MAX_VARIABLES, Name, Place, Port, Transition, Update, Variable,
};
use plant_words::reading::{check, next_keyword, next_name, next_word, skip_word};
use plant_words::{LineFault, NameIndex, Variables, Words, is_legal, read_expression};
use std::alloc::{AllocError, Global};

/// An atom to which lines add parts.
///
/// The `ghost` lines are for contracts alone: the lists keep the rules of an atom at any time, and each index has the names of its list.
#[derive(Drop)]
pub struct AtomDraft {
    alloc: Global,
    name: Name,
    places: Vec<Place>,
    place_names: NameIndex,
    variables: Vec<Variable>,
    variable_names: NameIndex,
    ports: Vec<Port>,
    port_names: NameIndex,
    transitions: Vec<Transition>,
    ghost few_places: { length places.items ≤ MAX_PLACES },
    ghost few_variables: { length variables.items ≤ MAX_VARIABLES },
    ghost few_ports: { length ports.items ≤ MAX_PORTS },
    ghost few_transitions: { length transitions.items ≤ MAX_TRANSITIONS },
    ghost places_named: { place_names ≡ map (λ p. p.name) places.items },
    ghost variables_named: { variable_names ≡ map (λ v. v.name) variables.items },
    ghost ports_named: { port_names ≡ map (λ p. p.name) ports.items },
    ghost places_once: { IsTrue (is_each_once (λ x y. is_same_text x.name y.name) places.items) },
    ghost variables_once: { IsTrue (is_each_once (λ x y. is_same_text x.name y.name) variables.items) },
    ghost ports_once: { IsTrue (is_each_once (λ x y. is_same_text x.name y.name) (map port_of ports.items)) },
    ghost sound_ports: { IsTrue (list_all (is_sound_port (length variables.items)) (map port_of ports.items)) },
    ghost sound_transitions: { IsTrue (list_all (is_sound_transition (length ports.items) (length places.items) (length variables.items)) (map transition_of transitions.items)) },
}

impl AtomDraft {
    ghost use Rattle.atom_lines.specs.Draft.{drafted};
    ghost use Rattle.petri_atom.specs.Atom.{definition_of};
    ghost use Rattle.petri_atom.specs.Definition.{fault_of};
    ghost use Rattle.petri_atom.specs.Parts.{definition_by};

    /// The atom with the name and no parts.
    pub fn new(alloc: Global, name: Name) -> Self
        ensures { drafted result ≡ definition_by name [] [] [] [] }
    {
        AtomDraft {
            alloc,
            name,
            places: Vec::new(alloc),
            place_names: NameIndex::new(alloc),
            variables: Vec::new(alloc),
            variable_names: NameIndex::new(alloc),
            ports: Vec::new(alloc),
            port_names: NameIndex::new(alloc),
            transitions: Vec::new(alloc),
        }
    }

    /// The name of the atom.
    pub fn name(&self) -> &Name
        ensures { result.now ≡ (drafted self.now).name }
    {
        &self.name
    }

    /// The number of the place with the name.
    pub fn find_place(&self, name: &[u8]) -> Option<u8>
        ensures number { result ≡ place_number (drafted self.now) name.now }
        ensures within { IfSome result (λ number. number < length (drafted self.now).places) }
    {
        Some(self.place_names.find(name)? as u8)
    }

    /// The number of the variable with the name.
    pub fn find_variable(&self, name: &[u8]) -> Option<u8>
        ensures { result ≡ variable_number (drafted self.now) name.now }
    {
        Some(self.variable_names.find(name)? as u8)
    }

    /// The number of the port with the name.
    pub fn find_port(&self, name: &[u8]) -> Option<u16>
        ensures { result ≡ port_number (drafted self.now) name.now }
    {
        Some(self.port_names.find(name)? as u16)
    }

    /// The place of the variable with the name among those that the port exports. `None` where the port exports none
    /// with the name, and if there is no such port.
    pub fn find_export(&self, port: u16, variable: &[u8]) -> Option<u8>
        ensures number { result ≡ export_number (drafted self.now) port variable.now }
        ensures within { IfSome result (λ number. number < MAX_EXPORTS) }
    {
        let port = self.ports.get(usize::from(port))?;
        Some(lookup::find_export(&self.variables, &port.exports, variable)? as u8)
    }

    /// Adds the place of a line `place NAME` or `place NAME init`, by the words after its first.
    pub fn add_place(&mut self, words: &mut Words) -> Result<(), LineFault>
        ensures added { OnOk result (place_row words.old (drafted self.old) ≡ Ok (drafted self.new)) }
        ensures fault { IfErr result (IsFaultOf (place_row words.old (drafted self.old))) }
        ensures memory { IfErr result (IsLast (place_row words.old (drafted self.old))) }
        ensures unchanged { OnErr result (drafted self.new ≡ drafted self.old) }
    {
        check(self.places.len() < MAX_PLACES, LineFault::Limit)?;
        let name = next_name(words)?;
        check(self.find_place(name.as_bytes()).is_none(), LineFault::Twice)?;
        let marked = read_mark(words)?;
        self.push_place(Place { name, marked })?;
        Ok(())
    }

    /// Puts a place with a new name after the others. It comes into the list and into the index of names, or, where there
    /// is no memory, into neither: so the list has its room first.
    fn push_place(&mut self, place: Place) -> Result<(), AllocError>
        requires few { length self.old.places.items < MAX_PLACES }
        requires new { place_number (drafted self.old) place.name ≡ None }
        ensures pushed { OnOk result (drafted self.new ≡ with_place (drafted self.old) place) }
        ensures unchanged { OnErr result (drafted self.new ≡ drafted self.old) }
    {
        self.places.reserve(1)?;
        self.place_names.add(place.name.as_bytes())?;
        self.places.push(place).unwrap();
        Ok(())
    }

    /// Adds the variable of a line `var NAME INT`, by the words after its first.
    pub fn add_variable(&mut self, words: &mut Words) -> Result<(), LineFault>
        ensures added { OnOk result (variable_row words.old (drafted self.old) ≡ Ok (drafted self.new)) }
        ensures fault { IfErr result (IsFaultOf (variable_row words.old (drafted self.old))) }
        ensures memory { IfErr result (IsLast (variable_row words.old (drafted self.old))) }
        ensures unchanged { OnErr result (drafted self.new ≡ drafted self.old) }
    {
        check(self.variables.len() < MAX_VARIABLES, LineFault::Limit)?;
        let name = next_name(words)?;
        check(
            self.find_variable(name.as_bytes()).is_none(),
            LineFault::Twice,
        )?;
        let first = read_value(words)?;
        self.push_variable(Variable { name, first })?;
        Ok(())
    }

    /// Puts a variable with a new name after the others, into the list and into the index of names, or into neither.
    fn push_variable(&mut self, variable: Variable) -> Result<(), AllocError>
        requires few { length self.old.variables.items < MAX_VARIABLES }
        requires new { variable_number (drafted self.old) variable.name ≡ None }
        ensures pushed { OnOk result (drafted self.new ≡ with_variable (drafted self.old) variable) }
        ensures unchanged { OnErr result (drafted self.new ≡ drafted self.old) }
    {
        self.variables.reserve(1)?;
        self.variable_names.add(variable.name.as_bytes())?;
        self.variables.push(variable).unwrap();
        Ok(())
    }

    /// Adds the port of a line `port NAME VAR..`, by the words after its first.
    pub fn add_port(&mut self, words: &mut Words) -> Result<(), LineFault>
        ensures added { OnOk result (port_row words.old (drafted self.old) ≡ Ok (drafted self.new)) }
        ensures fault { IfErr result (IsFaultOf (port_row words.old (drafted self.old))) }
        ensures memory { IfErr result (IsLast (port_row words.old (drafted self.old))) }
        ensures unchanged { OnErr result (drafted self.new ≡ drafted self.old) }
    {
        check(self.ports.len() < MAX_PORTS, LineFault::Limit)?;
        let name = next_name(words)?;
        check(self.find_port(name.as_bytes()).is_none(), LineFault::Twice)?;
        let numbers = self.read_exports(words)?;
        let exports = list_of(self.alloc, &numbers)?;
        self.push_port(Port { name, exports })?;
        Ok(())
    }

    /// Puts a sound port with a new name after the others, into the list and into the index of names, or into neither.
    fn push_port(&mut self, port: Port) -> Result<(), AllocError>
        requires few { length self.old.ports.items < MAX_PORTS }
        requires new { port_number (drafted self.old) port.name ≡ None }
        requires sound { IsTrue (is_sound_port (length self.old.variables.items) (port_of port)) }
        ensures pushed { OnOk result (drafted self.new ≡ with_port (drafted self.old) (port_of port)) }
        ensures unchanged { OnErr result (drafted self.new ≡ drafted self.old) }
    {
        self.ports.reserve(1)?;
        self.port_names.add(port.name.as_bytes())?;
        self.ports.push(port).unwrap();
        Ok(())
    }

    /// The number of the variable that the word exports after these.
    fn next_export(&self, before: &[u8], word: &[u8]) -> Result<u8, LineFault>
        ensures export { result ≡ export_in (drafted self.now) before.now word.now }
        ensures room { OnOk result (length before.now < MAX_EXPORTS) }
    {
        check(before.len() < MAX_EXPORTS, LineFault::Limit)?;
        check(is_legal(word), LineFault::NotAscii)?;
        let number = self.find_variable(word).ok_or(LineFault::UnknownName)?;
        check(!before.contains(&number), LineFault::Twice)?;
        Ok(number)
    }

    /// The numbers of the variables that the words name.
    fn read_exports(&self, words: &mut Words) -> Result<ArrayVec<u8, MAX_EXPORTS>, LineFault>
        ensures exports { IfOk result (λ exports. exports_in (drafted self.now) [] words.old ≡ Ok exports.items) }
        ensures fault { IfErr result (λ fault. exports_in (drafted self.now) [] words.old ≡ Err fault) }
    {
        let mut exports = ArrayVec::new();
        while let Some(word) = words.next_word() {
            let number = self.next_export(&exports, word)?;
            exports.push(number);
        }
        Ok(exports)
    }

    /// The number of the port that the next word names.
    fn read_port(&self, words: &mut Words) -> Result<u16, LineFault>
        ensures port { result ≡ port_in (drafted self.now) words.old }
        ensures taken { words.new ≡ drop 1 words.old }
    {
        let word = next_word(words)?;
        self.find_port(word).ok_or(LineFault::UnknownName)
    }

    /// The number of the place that the word lists after these.
    fn next_place(&self, before: &[u8], word: &[u8]) -> Result<u8, LineFault>
        ensures place { result ≡ place_in (drafted self.now) before.now word.now }
        ensures within { IfOk result (λ place. place < MAX_PLACES) }
    {
        check(is_legal(word), LineFault::NotAscii)?;
        let place = self.find_place(word).ok_or(LineFault::UnknownName)?;
        check(!before.contains(&place), LineFault::Twice)?;
        Ok(place)
    }

    /// The numbers of the places that the words list. Each stands there once, so there are no more than an atom has.
    fn read_places(&self, words: &mut Words) -> Result<ArrayVec<u8, MAX_PLACES>, LineFault>
        ensures places { IfOk result (λ places. places_in (drafted self.now) [] words.old ≡ Ok (places.items, words.new)) }
        ensures fault { IfErr result (λ fault. places_in (drafted self.now) [] words.old ≡ Err fault) }
        ensures within { IfOk result (λ places. IsTrue (are_places places.items)) }
    {
        let mut places = ArrayVec::new();
        while let Some(word) = next_in_places(words) {
            let place = self.next_place(&places, word)?;
            places.push(place);
        }
        Ok(places)
    }

    /// The numbers of the places of a list that begins with the keyword.
    fn read_places_behind(
        &self,
        keyword: &[u8],
        words: &mut Words,
    ) -> Result<ArrayVec<u8, MAX_PLACES>, LineFault>
        ensures places { IfOk result (λ places. places_after keyword.now (drafted self.now) words.old ≡ Ok (places.items, words.new)) }
        ensures fault { IfErr result (λ fault. places_after keyword.now (drafted self.now) words.old ≡ Err fault) }
        ensures within { IfOk result (λ places. IsTrue (are_places places.items)) }
    {
        next_keyword(words, keyword)?;
        let places = self.read_places(words)?;
        check(0 < places.len(), LineFault::Shape)?;
        Ok(places)
    }

    /// The expression that stands first in the words, as far as there is memory for it.
    fn read_expression(
        &self,
        words: &mut Words,
    ) -> Result<Result<Expression<u8>, AllocError>, LineFault>
        ensures expression { IfOk result (IsRead tree_of (expression_on (drafted self.now) words.old) words.new) }
        ensures fault { IfErr result (λ fault. expression_on (drafted self.now) words.old ≡ Err fault) }
    {
        Ok(read_expression(self.alloc, words, self)?)
    }

    /// The guard of a transition, as far as there is memory for it.
    fn read_guard(&self, words: &mut Words) -> Result<Result<Expression<u8>, AllocError>, LineFault>
        ensures guard { IfOk result (IsRead tree_of (guard_in (drafted self.now) words.old) words.new) }
        ensures fault { IfErr result (λ fault. guard_in (drafted self.now) words.old ≡ Err fault) }
    {
        if skip_word(words, b"when") {
            self.read_expression(words)
        } else {
            Ok(Ok(Expression::Number(1)))
        }
    }

    /// The update that stands first in the words, as far as there is memory for it.
    fn read_update(&self, words: &mut Words) -> Result<Result<Update, AllocError>, LineFault>
        ensures update { IfOk result (IsRead update_of (update_in (drafted self.now) words.old) words.new) }
        ensures fault { IfErr result (λ fault. update_in (drafted self.now) words.old ≡ Err fault) }
    {
        let word = next_word(words)?;
        let variable = self.find_variable(word).ok_or(LineFault::UnknownName)?;
        next_keyword(words, b":=")?;
        let value = self.read_expression(words)?;
        Ok(update(variable, value))
    }

    /// The updates of a transition, as far as there is memory for them.
    fn read_updates(&self, words: &mut Words) -> Result<Result<Vec<Update>, AllocError>, LineFault>
        ensures updates { IfOk result (AreRead (updates_in (drafted self.now) words.old)) }
        ensures fault { IfErr result (λ fault. updates_in (drafted self.now) words.old ≡ Err fault) }
    {
        let more = goes_on(words, b"do")?;
        self.read_update_list(more, words)
    }

    /// The updates of a list, if there is one, as far as there is memory for them.
    #[tactic(auto, using(crate::proofs::Updates::no_more_updates))]
    fn read_update_list(
        &self,
        mut more: bool,
        words: &mut Words,
    ) -> Result<Result<Vec<Update>, AllocError>, LineFault>
        ensures updates { IfOk result (AreRead (updates_from (drafted self.now) MAX_UPDATES [] more words.old)) }
        ensures fault { IfErr result (λ fault. updates_from (drafted self.now) MAX_UPDATES [] more words.old ≡ Err fault) }
    {
        let mut updates = Ok(Vec::new(self.alloc));
        let mut left = MAX_UPDATES;
        while more {
            if left == 0 {
                return Err(LineFault::Limit);
            }
            let update = self.read_update(words)?;
            more = goes_on(words, b";")?;
            updates = with_update(updates, update);
            left -= 1;
        }
        Ok(updates)
    }

    /// The transition that the words describe.
    fn read_transition(&self, words: &mut Words) -> Result<Transition, LineFault>
        ensures transition { IfOk result (λ transition. transition_in (drafted self.now) words.old ≡ Ok (transition_of transition)) }
        ensures fault { IfErr result (IsFaultOf (transition_in (drafted self.now) words.old)) }
        ensures memory { IfErr result (IsLast (transition_in (drafted self.now) words.old)) }
    {
        let port = self.read_port(words)?;
        let sources = self.read_places_behind(b"from", words)?;
        let targets = self.read_places_behind(b"to", words)?;
        let guard = self.read_guard(words)?;
        let updates = self.read_updates(words)?;
        let sources = list_of(self.alloc, &sources)?;
        let targets = list_of(self.alloc, &targets)?;
        Ok(Transition::new(port, sources, targets, guard?, updates?))
    }

    /// Adds the transition of a line `trans PORT from PLACE.. to PLACE..` with its guard and updates, by the words
    /// after its first.
    pub fn add_transition(&mut self, words: &mut Words) -> Result<(), LineFault>
        ensures added { OnOk result (transition_row words.old (drafted self.old) ≡ Ok (drafted self.new)) }
        ensures fault { IfErr result (IsFaultOf (transition_row words.old (drafted self.old))) }
        ensures memory { IfErr result (IsLast (transition_row words.old (drafted self.old))) }
        ensures unchanged { OnErr result (drafted self.new ≡ drafted self.old) }
    {
        check(self.transitions.len() < MAX_TRANSITIONS, LineFault::Limit)?;
        let transition = self.read_transition(words)?;
        self.transitions.push(transition)?;
        Ok(())
    }

    /// The atom of the parts that were added. They break no rule of an atom, so only memory can run out.
    pub fn into_atom(self) -> Result<Atom, AllocError>
        ensures made { IfOk result (λ atom. definition_of atom ≡ drafted self) }
        ensures sound { fault_of (drafted self) ≡ None }
    {
        let made = Atom::new(
            self.alloc,
            self.name,
            self.places,
            self.variables,
            self.ports,
            self.transitions,
        );
        match made {
            Ok(atom) => Ok(atom),
            Err(fault) => Err(want_of_memory(fault)),
        }
    }
}

/// The numbers as a list of just their length.
fn list_of(alloc: Global, numbers: &[u8]) -> Result<Vec<u8>, AllocError>
    ensures { IfOk result (λ list. list.items ≡ numbers.now) }
{
    numbers.to_vec(alloc)
}

/// The update of a variable to a value, if there was memory for that.
fn update(variable: u8, value: Result<Expression<u8>, AllocError>) -> Result<Update, AllocError>
    ensures { IfOk result (λ update. IsOkAnd value (λ expression. update_of update ≡ record { variable = variable; value = tree_of expression })) }
{
    Ok(Update {
        variable,
        value: value?,
    })
}

/// The updates with one more after them, if there was memory for all.
fn with_update(
    updates: Result<Vec<Update>, AllocError>,
    update: Result<Update, AllocError>,
) -> Result<Vec<Update>, AllocError>
    ensures { IfOk result (λ more. IsOkAnd updates (λ before. IsOkAnd update (λ last. more.items ≡ before.items ++ last ∷ []))) }
{
    let mut updates = updates?;
    updates.push(update?)?;
    Ok(updates)
}

/// The fault that is left to parts that break no rule.
fn want_of_memory(fault: AtomFault) -> AllocError
    requires { fault ≡ AtomFault.Memory }
{
    match fault {
        AtomFault::Memory => AllocError,
        _ => unreachable!(),
    }
}

impl Variables<u8> for AtomDraft {
    ghost use Rattle.atom_lines.specs.Draft.{drafted};
    ghost use Rattle.atom_lines.specs.Lookup.{variable_number};

    ghost variable_named = { λ draft word. variable_number (drafted draft) word };

    fn find(&self, word: &[u8]) -> Option<u8> {
        self.find_variable(word)
    }
}
