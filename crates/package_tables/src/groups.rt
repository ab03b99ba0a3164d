//! The entries of a table by their names.
ghost use Rattle.std.specs.Prelude.{◌≡◌, ◌++◌, ◌∷◌, [], map, filter, not, IfOk, OnOk};
ghost use Rattle.std.specs.List.{list_any};
ghost use Rattle.std.specs.Option.{unwrap_or};
ghost use Rattle.package_tables.specs.Clash as spec;

use crate::name_ref::NameRef;
use crate::package_rows::Entry;
use crate::section_value::SectionValue;
use std::alloc::{AllocError, Global};
use std::collections::BTreeMap;
use std::marker::Model;

/// Entries of one name, in their order.
#[derive(Drop)]
pub(crate) struct Group<'a, T> {
    entries: Vec<&'a Entry<T>>,
}

impl<'a, T> Model for Group<'a, T> {
    ghost use Rattle.std.specs.Prelude.{List, map};
    ghost use Rattle.package_tables.specs.declared.package_rows.Entry.{Entry};

    ghost Value = { List (Entry T) };

    ghost view = { λ group. map (λ e. e.now) group.entries.items };
}

impl<'a, T> Group<'a, T> {
    fn make(alloc: Global) -> Group<'a, T>
        ensures { result ≡ [] }
    {
        Group {
            entries: Vec::new(alloc),
        }
    }

    fn push(&mut self, entry: &'a Entry<T>) -> Result<(), AllocError>
        ensures { OnOk result (self.new ≡ self.old ++ entry.now ∷ []) }
    {
        self.entries.push(entry)?;
        Ok(())
    }

    /// The entries, in order.
    pub(crate) fn items(&self) -> &[&'a Entry<T>]
        ensures { map (λ e. e.now) result.now ≡ self.now }
    {
        self.entries.as_slice()
    }
}

type Groups<'a, T> = BTreeMap<NameRef<'a>, Group<'a, T>>;

/// The entries of each name that has several values, in the order of the names' bytes.
pub(crate) fn groups<'a, T: SectionValue>(
    alloc: Global,
    entries: &'a [Entry<T>],
) -> Result<Vec<Group<'a, T>>, AllocError>
    ensures { IfOk result (λ lists. lists.items ≡ spec.groups T.same entries.now) }
{
    let mut grouped = BTreeMap::new(alloc);
    for entry in entries {
        join(alloc, &mut grouped, entry)?;
    }
    lists(alloc, grouped)
}

/// Puts an entry behind those of its name.
fn join<'a, T>(
    alloc: Global,
    grouped: &mut Groups<'a, T>,
    entry: &'a Entry<T>,
) -> Result<(), AllocError>
    ensures { OnOk result (grouped.new.entries ≡ spec.joining grouped.old.entries entry.now) }
{
    let Ok(found) = grouped.insert(NameRef::of(&entry.name), Group::make(alloc)) else {
        return Err(AllocError);
    };
    let mut group = or_new(alloc, found);
    group.push(entry)?;
    match grouped.insert(NameRef::of(&entry.name), group) {
        Ok(_) => Ok(()),
        Err(_) => Err(AllocError),
    }
}

fn or_new<'a, T>(alloc: Global, found: Option<Group<'a, T>>) -> Group<'a, T>
    ensures { result ≡ unwrap_or found.entry [] }
{
    match found {
        Some(group) => group,
        None => Group::make(alloc),
    }
}

fn lists<'a, T: SectionValue>(
    alloc: Global,
    mut grouped: Groups<'a, T>,
) -> Result<Vec<Group<'a, T>>, AllocError>
    ensures { IfOk result (λ lists. lists.items ≡ filter (spec.is_varied T.same) (map (λ g. g.1) grouped.entry.entries)) }
{
    let mut lists = Vec::new(alloc);
    while let Some((_, group)) = grouped.pop_first() {
        if is_varied(&group) {
            lists.push(group)?;
        }
    }
    Ok(lists)
}

/// Whether a name has several values.
fn is_varied<T: SectionValue>(group: &Group<T>) -> bool
    ensures { result ≡ spec.is_varied T.same group.now }
{
    let Some((first, more)) = group.items().split_first() else {
        return false;
    };
    has_other(first, more)
}

fn has_other<T: SectionValue>(first: &Entry<T>, more: &[&Entry<T>]) -> bool
    ensures { result ≡ list_any (λ e. not (T.same first.now.value e.value)) (map (λ e. e.now) more.now) }
{
    for entry in more {
        if !first.value.is_same(&entry.value) {
            return true;
        }
    }
    false
}
