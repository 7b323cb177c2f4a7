//! Tables of names, in which a name is found by hash.

ghost use Rattle.std.specs.Prelude.{◌≡◌, [], ◌∷◌, ◌++◌, length, map, false, OnOk, OnErr, IfSome, Some, ◌<◌, slice_get, option_copied};
ghost use Rattle.std.specs.Option.{option_map};
ghost use Rattle.std.specs.Str.{bytes_eq};
ghost use Rattle.hem_syntax.specs.Names.{place_in, is_in, place_among, is_among, with_last};

use hem_base::{Name, OutOfMemory};
use indexmap::{IndexMap, IndexSet};
use std::alloc::Global;
use std::marker::Model;

/// Names in order of declaration. A name is found by a guess, or else by hash.
#[derive(Debug, Drop)]
pub struct Names {
    names: IndexSet<Name>,
    /// For each hint the place, modulo 256, of the last name with that hint. Most names have a hint to themselves.
    guesses: [u8; 256],
}

/// The hint of a text: texts with different hints differ.
fn hint_of(text: &[u8]) -> usize
    ensures { result < 256 }
{
    let hint = text
        .iter()
        .fold(0, |hint: u8, b| hint.wrapping_mul(31).wrapping_add(*b));
    usize::from(hint)
}

/// Whether two short texts are the same.
fn are_same(first: &[u8], second: &[u8]) -> bool
    ensures { result ≡ bytes_eq first.now second.now }
{
    if first.len() != second.len() {
        return false;
    }
    for place in 0..first.len() {
        if first[place] != second[place] {
            return false;
        }
    }
    true
}

impl Model for Names {
    ghost use Rattle.std.specs.Prelude.{List, ℕ};
    ghost use Rattle.hem_syntax.specs.Names.{AreNames};

    ghost Value = { List (List ℕ) };

    ghost view = { λ n. n.names.keys };

    ghost invariant = { λ n. AreNames n.names.keys };
}

impl Names {
    /// No names. It takes no memory.
    pub fn new(alloc: Global) -> Names
        ensures { result ≡ [] }
    {
        Names {
            names: IndexSet::new(alloc),
            guesses: [0; 256],
        }
    }

    /// How many names there are.
    pub fn len(&self) -> usize
        ensures { result ≡ length self.now }
    {
        self.names.len()
    }

    /// The names, in order.
    pub fn as_slice(&self) -> &[Name]
        ensures { result.now ≡ self.now }
    {
        self.names.as_slice()
    }

    /// The name at a place, from 0, where there is one.
    pub fn get(&self, at: usize) -> Option<&Name>
        ensures { option_copied result ≡ slice_get self.now at }
    {
        self.names.get_index(at)
    }

    /// The place of a name, where the guess for it is right.
    fn guessed(&self, text: &[u8]) -> Option<usize>
        ensures { IfSome result (λ place. place_in self.now text.now ≡ Some place) }
    {
        let place = usize::from(self.guesses[hint_of(text)]);
        let names = self.names.as_slice();
        match names.get(place) {
            Some(name) if are_same(name.as_bytes(), text) => Some(place),
            _ => None,
        }
    }

    /// The place of a name by its hash.
    fn hashed(&self, text: &[u8]) -> Option<usize>
        ensures { result ≡ place_in self.now text.now }
    {
        let names = &self.names;
        match Name::from_slice(text) {
            Some(name) => names.get_index_of(&name),
            None => None,
        }
    }

    /// The place of a name, where it is declared. It takes no memory.
    pub fn place(&self, text: &[u8]) -> Option<usize>
        ensures { result ≡ place_in self.now text.now }
    {
        match self.guessed(text) {
            Some(place) => Some(place),
            None => self.hashed(text),
        }
    }

    /// Whether a name is declared. It takes no memory.
    pub fn has(&self, text: &[u8]) -> bool
        ensures { result ≡ is_in self.now text.now }
    {
        let names = &self.names;
        match Name::from_slice(text) {
            Some(name) => names.contains(&name),
            None => false,
        }
    }

    /// Puts a name at the end that isn't there yet. Where memory is wanted the names stay as they were.
    pub fn push(&mut self, name: Name) -> Result<(), OutOfMemory>
        requires { is_in self.old name ≡ false }
        ensures ok { OnOk result (self.new ≡ self.old ++ name ∷ []) }
        ensures err { OnErr result (self.new ≡ self.old) }
    {
        let hint = hint_of(name.as_bytes());
        let place = self.names.len();
        self.names.insert(name)?;
        self.guesses[hint] = (place % 256) as u8;
        Ok(())
    }
}

/// Names in order of declaration, each with something, found by hash.
#[derive(Debug, Drop)]
pub struct Named<V> {
    entries: IndexMap<Name, V>,
}

impl<V> Model for Named<V> {
    ghost use Rattle.std.specs.Prelude.{List, ℕ};
    ghost use Rattle.hem_syntax.specs.Names.{AreNamed};

    ghost Value = { List (List ℕ × V) };

    ghost view = { λ n. n.entries.entries };

    ghost invariant = { λ n. AreNamed n.entries.entries };
}

impl<V> Named<V> {
    /// No names. It takes no memory.
    pub fn new(alloc: Global) -> Named<V>
        ensures { result ≡ [] }
    {
        Named {
            entries: IndexMap::new(alloc),
        }
    }

    /// How many names there are.
    pub fn len(&self) -> usize
        ensures { result ≡ length self.now }
    {
        self.entries.len()
    }

    /// The name at a place, from 0, where there is one.
    pub fn name(&self, at: usize) -> Option<&Name>
        ensures { option_copied result ≡ option_map (λ m. m.0) (slice_get self.now at) }
    {
        let (name, _) = self.entries.get_index(at)?;
        Some(name)
    }

    /// What stands with the name at a place, from 0, where there is one.
    pub fn value(&self, at: usize) -> Option<&V>
        ensures { option_copied result ≡ option_map (λ m. m.1) (slice_get self.now at) }
    {
        let (_, value) = self.entries.get_index(at)?;
        Some(value)
    }

    /// The place of a name, where it is declared. It takes no memory.
    pub fn place(&self, text: &[u8]) -> Option<usize>
        ensures { result ≡ place_among self.now text.now }
    {
        let entries = &self.entries;
        match Name::from_slice(text) {
            Some(name) => entries.get_index_of(&name),
            None => None,
        }
    }

    /// Whether a name is declared. It takes no memory.
    pub fn has(&self, text: &[u8]) -> bool
        ensures { result ≡ is_among self.now text.now }
    {
        self.place(text).is_some()
    }
}

impl<V: Drop> Named<V> {
    /// Puts a name at the end that isn't there yet. Where memory is wanted the names stay as they were.
    pub fn push(&mut self, name: Name, value: V) -> Result<(), OutOfMemory>
        requires { is_among self.old name ≡ false }
        ensures ok { OnOk result (self.new ≡ self.old ++ (name, value) ∷ []) }
        ensures err { OnErr result (self.new ≡ self.old) }
    {
        let _bytes = name.as_bytes();
        self.entries.insert(name, value)?;
        Ok(())
    }

    /// Puts this with the last name, where there is one.
    pub fn set_last(&mut self, value: V)
        ensures { self.new ≡ with_last self.old value }
    {
        let len = self.entries.len();
        if len > 0 {
            self.entries[len - 1] = value;
        }
    }
}
