//! The readers of texts, identifiers, truth values, lists and tables.
ghost use Rattle.std.specs.Prelude.{◌≡◌, Ok, Some, None, IfOk, IfErr, IsTrue};
ghost use Rattle.toml.specs.View.{view, array_view, table_view};
ghost use Rattle.uuid.specs.Text.{parsed};
ghost use Rattle.pkg_world.specs.ByName.{is_by_name};
ghost use Rattle.toml_view.specs.Reading.{text_of, uuid_of, tree_id_of, flag_of, texts_of, list_of, items_read, table_of, each, table_at, texts_at};
ghost use Rattle.toml_view.specs.Answers.{Refuses, HasPath};

use crate::reader::{Reader, opt, other_shape, read_at};
use crate::refusal::Stop;
use crate::values::NamedValues;
use pkg_world::{Listed, Name, Text, TreeId, Values};
use std::alloc::Global;
use toml::value::Array;
use toml::{Table, Value};
use uuid::Uuid;

/// Reads a text as a name.
#[derive(Clone, Copy, Debug, Drop)]
pub struct NameReader;

impl Reader for NameReader {
    type Out = Name;

    ghost gives = { λ _ value. text_of value };

    fn read(&self, alloc: Global, value: &Value) -> Result<Name, Stop> {
        match value.as_str() {
            Some(text) => Ok(Name::of(alloc, text)?),
            None => Err(other_shape()),
        }
    }
}

/// Reads a text.
#[derive(Clone, Copy, Debug, Drop)]
pub struct TextReader;

impl Reader for TextReader {
    type Out = Text;

    ghost gives = { λ _ value. text_of value };

    fn read(&self, alloc: Global, value: &Value) -> Result<Text, Stop> {
        match value.as_str() {
            Some(text) => Ok(Text::of(alloc, text)?),
            None => Err(other_shape()),
        }
    }
}

/// Reads the text of an identifier, as the crate `uuid` does.
#[derive(Clone, Copy, Debug, Drop)]
pub struct UuidReader;

impl Reader for UuidReader {
    type Out = Uuid;

    ghost gives = { λ _ value. uuid_of value };

    fn read(&self, _alloc: Global, value: &Value) -> Result<Uuid, Stop> {
        match value.as_str() {
            Some(text) => match identifier(text) {
                Some(id) => Ok(id),
                None => Err(other_shape()),
            },
            None => Err(other_shape()),
        }
    }
}

/// The identifier that a text spells, as the crate `uuid` reads it (RFC 9562); None for any other text.
pub fn identifier(text: &str) -> Option<Uuid>
    ensures { result ≡ parsed text.now }
{
    match Uuid::parse_str(text) {
        Ok(id) => Some(id),
        Err(_) => None,
    }
}

/// Reads the identifier of a tree, a text of 40 hexadecimal digits.
#[derive(Clone, Copy, Debug, Drop)]
pub struct TreeReader;

impl Reader for TreeReader {
    type Out = TreeId;

    ghost gives = { λ _ value. tree_id_of value };

    fn read(&self, _alloc: Global, value: &Value) -> Result<TreeId, Stop> {
        match value.as_str() {
            Some(text) => match TreeId::read(text) {
                Some(tree) => Ok(tree),
                None => Err(other_shape()),
            },
            None => Err(other_shape()),
        }
    }
}

/// Reads true or false.
#[derive(Clone, Copy, Debug, Drop)]
pub struct FlagReader;

impl Reader for FlagReader {
    type Out = bool;

    ghost gives = { λ _ value. flag_of value };

    fn read(&self, _alloc: Global, value: &Value) -> Result<bool, Stop> {
        match value.as_bool() {
            Some(flag) => Ok(flag),
            None => Err(other_shape()),
        }
    }
}

/// Reads a list, each member with the inner reader. A member's refusal has the list's path.
#[derive(Clone, Copy, Debug, Drop)]
pub struct ListOf<R> {
    pub reader: R,
}

impl<R: Reader> Reader for ListOf<R> {
    type Out = Values<R::Out>;

    ghost gives = { λ it value. list_of (R.gives it.reader) value };

    fn read(&self, alloc: Global, value: &Value) -> Result<Values<R::Out>, Stop> {
        match value.as_array() {
            Some(array) => read_items(alloc, &self.reader, array),
            None => Err(other_shape()),
        }
    }
}

fn read_items<R: Reader>(alloc: Global, reader: &R, array: &Array) -> Result<Values<R::Out>, Stop>
    ensures ok { IfOk result (λ out. items_read (R.gives reader.now) (array_view array.now) ≡ Ok out) }
    ensures err { IfErr result (λ stop. Refuses stop (items_read (R.gives reader.now) (array_view array.now))) }
{
    let mut list = Listed::make(alloc);
    for item in array {
        list.push(reader.read(alloc, item)?)?;
    }
    Ok(Values::of(list))
}

/// Reads a text as the list of it alone, or a list of texts.
#[derive(Clone, Copy, Debug, Drop)]
pub struct TextsReader;

impl Reader for TextsReader {
    type Out = Values<Text>;

    ghost gives = { λ _ value. texts_of value };

    fn read(&self, alloc: Global, value: &Value) -> Result<Values<Text>, Stop> {
        match value.as_str() {
            Some(text) => {
                let mut list = Listed::make(alloc);
                list.push(Text::of(alloc, text)?)?;
                Ok(Values::of(list))
            }
            None => ListOf { reader: TextReader }.read(alloc, value),
        }
    }
}

/// Reads a name as the list of it alone, or a list of names.
#[derive(Clone, Copy, Debug, Drop)]
pub struct NamesReader;

impl Reader for NamesReader {
    type Out = Values<Name>;

    ghost gives = { λ _ value. texts_of value };

    fn read(&self, alloc: Global, value: &Value) -> Result<Values<Name>, Stop> {
        match value.as_str() {
            Some(text) => {
                let mut list = Listed::make(alloc);
                list.push(Name::of(alloc, text)?)?;
                Ok(Values::of(list))
            }
            None => ListOf { reader: NameReader }.read(alloc, value),
        }
    }
}

/// Reads a table, each value with the inner reader, in the order of the keys.
#[derive(Clone, Copy, Debug, Drop)]
pub struct Each<R> {
    pub reader: R,
}

impl<R: Reader> Reader for Each<R> {
    type Out = NamedValues<R::Out>;

    ghost gives = { λ it value. table_of (R.gives it.reader) value };

    fn read(&self, alloc: Global, value: &Value) -> Result<NamedValues<R::Out>, Stop> {
        match value.as_table() {
            Some(table) => read_each(alloc, &self.reader, table),
            None => Err(other_shape()),
        }
    }
}

fn read_each<R: Reader>(
    alloc: Global,
    reader: &R,
    table: &Table,
) -> Result<NamedValues<R::Out>, Stop>
    ensures ok { IfOk result (λ out. each (R.gives reader.now) (table_view table.now) ≡ Ok out) }
    ensures err { IfErr result (λ stop. Refuses stop (each (R.gives reader.now) (table_view table.now))) }
{
    let pairs = read_pairs(alloc, reader, table)?;
    Ok(NamedValues::of(pairs))
}

fn read_pairs<R: Reader>(
    alloc: Global,
    reader: &R,
    table: &Table,
) -> Result<Listed<(Name, R::Out)>, Stop>
    ensures ok { IfOk result (λ out. each (R.gives reader.now) (table_view table.now) ≡ Ok out.items) }
    ensures by_name { IfOk result (λ out. IsTrue (is_by_name out.items)) }
    ensures err { IfErr result (λ stop. Refuses stop (each (R.gives reader.now) (table_view table.now))) }
{
    let mut pairs = Listed::make(alloc);
    'members: for (key, value) in table.iter() {
        let found = read_at(alloc, reader, key.as_str(), value)?;
        pairs.push((Name::of(alloc, key.as_str())?, found))?;
    }
    Ok(pairs)
}

/// The table at a key, each value with the inner reader; an absent one is empty.
pub fn table_at<R: Reader + Drop>(
    alloc: Global,
    reader: R,
    table: &Table,
    key: &str,
) -> Result<NamedValues<R::Out>, Stop>
    ensures ok { IfOk result (λ out. table_at (R.gives reader) key.now (table_view table.now) ≡ Ok out) }
    ensures err { IfErr result (λ stop. Refuses stop (table_at (R.gives reader) key.now (table_view table.now))) }
    ensures path { IfErr result HasPath }
{
    match opt(alloc, &Each { reader }, table, key) {
        Ok(Some(found)) => Ok(found),
        Ok(None) => Ok(NamedValues::make(alloc)),
        Err(stop) => Err(stop),
    }
}

/// The texts at a key: a text alone or a list of texts; an absent key has none.
pub fn texts_at(alloc: Global, table: &Table, key: &str) -> Result<Values<Text>, Stop>
    ensures ok { IfOk result (λ out. texts_at key.now (table_view table.now) ≡ Ok out) }
    ensures err { IfErr result (λ stop. Refuses stop (texts_at key.now (table_view table.now))) }
    ensures path { IfErr result HasPath }
{
    match opt(alloc, &TextsReader, table, key) {
        Ok(Some(found)) => Ok(found),
        Ok(None) => Ok(Values::make(alloc)),
        Err(stop) => Err(stop),
    }
}
