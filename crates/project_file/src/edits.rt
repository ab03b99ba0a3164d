//! A dependency that is set or taken out, and a source that is dropped.
ghost use Rattle.std.specs.Prelude.{◌≡◌, ◌<◌, ◌∷◌, ◌++◌, List, ℕ, length, IsTrue, OnOk, OnErr, IfOk, IfSome, MatchOption, is_some};
ghost use Rattle.std.specs.List.{remove};
ghost use Rattle.toml.specs.View.{table_view};
ghost use Rattle.pkg_world.specs.ByName.{is_by_name};
ghost use Rattle.project_file.specs.Edits.{has_name, with_entry as with_entry_of, without_entry, with_dep, without_dep, without_source};
ghost use Rattle.project_file.specs.Said.{said};

use crate::project::Project;
use pkg_world::{Duplicate, Listed, Name, NameIds, Named};
use std::alloc::{AllocError, Global};
use std::cmp::Ordering;
use uuid::Uuid;

impl Project {
    /// Gives the name this identifier among the dependencies, in the order of the names, and leaves all else. Want of
    /// memory is the one error, and then the project is as before.
    #[tactic(auto, unfolding(crate::specs::Said::said, crate::specs::Edits::with_dep))]
    pub fn set_dep(&mut self, alloc: Global, name: &Name, uuid: Uuid) -> Result<(), AllocError>
        ensures ok { OnOk result (said self.new ≡ with_dep name.now uuid (said self.old)) }
        ensures err { OnErr result (said self.new ≡ said self.old) }
        ensures rest { table_view self.new.rest ≡ table_view self.old.rest }
    {
        self.deps = with_entry(alloc, self.deps.items(), name, uuid)?;
        Ok(())
    }

    /// Takes the name out of the dependencies, and its compatibility text and source with it unless it is a weak
    /// dependency or one of the extras; leaves all else. Answers whether it was a dependency. Takes no memory.
    #[tactic(auto, unfolding(crate::specs::Said::said, crate::specs::Edits::without_dep))]
    pub fn drop_dep(&mut self, name: &Name) -> bool
        ensures said { said self.new ≡ without_dep name.now (said self.old) }
        ensures found { result ≡ has_name name.now self.old.deps.items }
        ensures rest { table_view self.new.rest ≡ table_view self.old.rest }
    {
        let found = take_out(&mut self.deps, name);
        if !has(self.weakdeps.items(), name) && !has(self.extras.items(), name) {
            take_out(&mut self.compat, name);
            take_out(&mut self.sources, name);
        }
        found
    }

    /// Takes the name's source away, where it has one, and leaves all else. Takes no memory.
    #[tactic(auto, unfolding(crate::specs::Said::said, crate::specs::Edits::without_source))]
    pub fn drop_source(&mut self, name: &Name)
        ensures said { said self.new ≡ without_source name.now (said self.old) }
        ensures rest { table_view self.new.rest ≡ table_view self.old.rest }
    {
        take_out(&mut self.sources, name);
    }
}

/// The pairs with this identifier at the name.
fn with_entry(
    alloc: Global,
    pairs: &[(Name, Uuid)],
    name: &Name,
    uuid: Uuid,
) -> Result<NameIds, AllocError>
    requires { IsTrue (is_by_name pairs.now) }
    ensures { IfOk result (λ made. made.items ≡ with_entry_of name.now uuid pairs.now) }
{
    let (before, after) = around(pairs, name);
    let mut made = Listed::make(alloc);
    copy_pairs(alloc, &mut made, before)?;
    made.push((name.copy(alloc)?, uuid))?;
    copy_pairs(alloc, &mut made, after)?;
    Ok(Named::of(made))
}

/// The pairs whose names come before the name, and those whose names come after it.
fn around<'a>(pairs: &'a [(Name, Uuid)], name: &Name) -> (&'a [(Name, Uuid)], &'a [(Name, Uuid)])
    ensures { (id : List ℕ) → with_entry_of name.now id pairs.now ≡ result.0.now ++ (name.now, id) ∷ result.1.now }
{
    let mut place = 0;
    while place < pairs.len() {
        match name.as_str().cmp(pairs[place].0.as_str()) {
            Ordering::Less => return pairs.split_at(place),
            Ordering::Equal => return (&pairs[..place], &pairs[place + 1..]),
            Ordering::Greater => place += 1,
        }
    }
    pairs.split_at(place)
}

/// Appends equal pairs.
fn copy_pairs(
    alloc: Global,
    made: &mut Listed<(Name, Uuid)>,
    pairs: &[(Name, Uuid)],
) -> Result<(), AllocError>
    ensures { OnOk result (made.new.items ≡ made.old.items ++ pairs.now) }
{
    for (name, uuid) in pairs {
        made.push((name.copy(alloc)?, *uuid))?;
    }
    Ok(())
}

/// Takes the name out of the list, and answers whether it was there.
fn take_out<T: Drop>(list: &mut Named<T>, name: &Name) -> bool
    ensures left { list.new.items ≡ without_entry name.now list.old.items }
    ensures found { result ≡ has_name name.now list.old.items }
{
    match place_of(list.items(), name) {
        Some(place) => {
            list.remove(place);
            true
        }
        None => false,
    }
}

/// Whether the list has the name.
fn has<T>(pairs: &[(Name, T)], name: &Name) -> bool
    requires { IsTrue (is_by_name pairs.now) }
    ensures { result ≡ has_name name.now pairs.now }
{
    place_of(pairs, name).is_some()
}

/// The place of the name.
fn place_of<T>(pairs: &[(Name, T)], name: &Name) -> Option<usize>
    requires { IsTrue (is_by_name pairs.now) }
    ensures within { IfSome result (λ place. place < length pairs.now) }
    ensures left { MatchOption result (without_entry name.now pairs.now ≡ pairs.now) (λ place. without_entry name.now pairs.now ≡ remove pairs.now place) }
    ensures found { is_some result ≡ has_name name.now pairs.now }
{
    let mut place = 0;
    while place < pairs.len() {
        if pairs[place].0.as_str() == name.as_str() {
            return Some(place);
        }
        place += 1;
    }
    None
}
