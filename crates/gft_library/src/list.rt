ghost use Rattle.std.specs.Prelude.{◌≡◌, [], length, MatchOption, None, OnErr, OnOk, option_copied, position};
ghost use Rattle.gft_library.specs.Kept.{Adds, LetsGo, Puts, StandsAt, is_under, kept_under};

use gft_base::OutOfMemory;
use gft_text::Name;
use std::alloc::Global;
use std::marker::Model;
use std::mem;

/// A name with what is kept under it.
#[derive(Drop)]
pub(crate) struct KeptName<T: Drop> {
    name: Name,
    holding: T,
}

impl<T: Drop> KeptName<T> {
    // Whether it has this name.
    fn is_under(&self, name: &Name) -> bool
        ensures { result ≡ is_under name.now self.now }
    {
        self.name == *name
    }
}

/// What is kept under names, each name once.
#[derive(Drop)]
pub(crate) struct NameList<T: Drop> {
    entries: Vec<KeptName<T>>,
}

impl<T: Drop> Model for NameList<T> {
    ghost use Rattle.std.specs.Prelude.{List};
    ghost use Rattle.gft_library.specs.declared.list.KeptName.{KeptName};
    ghost use Rattle.gft_library.specs.Kept.{AreApart};

    ghost Value = { List (KeptName T) };

    ghost view = { λ l. l.entries.items };

    ghost invariant = { λ l. AreApart l.entries.items };
}

impl<T: Drop> NameList<T> {
    pub(crate) fn new(alloc: Global) -> Self
        ensures { result ≡ [] }
    {
        NameList {
            entries: Vec::new(alloc),
        }
    }

    /// How many names are kept.
    pub(crate) fn len(&self) -> usize
        ensures { result ≡ length self.now }
    {
        self.entries.len()
    }

    /// What is kept under the name.
    pub(crate) fn get(&self, name: &Name) -> Option<&T>
        ensures { option_copied result ≡ kept_under self.now name.now }
    {
        match self.place_of(name) {
            Some(place) => Some(&self.entries[place].holding),
            None => None,
        }
    }

    /// Keeps this under a name under which something is kept, and gives what was.
    pub(crate) fn put(&mut self, name: &Name, holding: T) -> Option<T>
        ensures was { result ≡ kept_under self.old name.now }
        ensures puts { Puts self.old self.new name.now holding }
    {
        match self.place_of(name) {
            Some(place) => Some(mem::replace(&mut self.entries[place].holding, holding)),
            None => None,
        }
    }

    /// Keeps this under a name under which nothing is kept.
    pub(crate) fn add(&mut self, name: Name, holding: T) -> Result<(), OutOfMemory>
        requires none { kept_under self.old name ≡ None }
        ensures added { OnOk result (Adds self.old self.new name holding) }
        ensures refused { OnErr result (self.new ≡ self.old) }
    {
        match self.entries.push(KeptName { name, holding }) {
            Ok(()) => Ok(()),
            Err(_) => Err(OutOfMemory),
        }
    }

    /// Takes the name out with what is kept under it.
    pub(crate) fn remove(&mut self, name: &Name) -> Option<T>
        ensures was { result ≡ kept_under self.old name.now }
        ensures gone { LetsGo self.old self.new name.now }
    {
        match self.place_of(name) {
            Some(place) => {
                let KeptName { name: _, holding } = self.entries.remove(place);
                Some(holding)
            }
            None => None,
        }
    }

    /// Keeps this under a name under which something is kept.
    pub(crate) fn set(&mut self, name: &Name, holding: T)
        ensures { Puts self.old self.new name.now holding }
    {
        let _was = self.put(name, holding);
    }

    /// Drops the name with what is kept under it.
    pub(crate) fn forget(&mut self, name: &Name)
        ensures { LetsGo self.old self.new name.now }
    {
        let _gone = self.remove(name);
    }

    // The place of the name.
    fn place_of(&self, name: &Name) -> Option<usize>
        ensures { MatchOption result (kept_under self.now name.now ≡ None) (StandsAt self.now name.now) }
    {
        position_of(&self.entries, name)
    }
}

fn position_of<T: Drop>(entries: &[KeptName<T>], name: &Name) -> Option<usize>
    ensures { result ≡ position (is_under name.now) entries.now }
{
    entries.iter().position(|entry| entry.is_under(name))
}
