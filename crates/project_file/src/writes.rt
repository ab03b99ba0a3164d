//! What is written as a value of a table.
ghost use Rattle.std.specs.Prelude.{◌≡◌, ◌≤◌, ◌∷◌, Ok, IfOk, List, ℕ, true};
ghost use Rattle.toml.specs.Data.{depth, items_depth, members_depth, has_valid_dates, items_have_valid_dates, members_have_valid_dates};
ghost use Rattle.toml.specs.View.{view, array_view, table_view};
ghost use Rattle.toml_view.specs.Reading.{text_of, uuid_of, version_at, texts_of, items_read};
ghost use Rattle.project_file.specs.Spelled.{spec_of};
ghost use Rattle.project_file.specs.Places.{source_of, source_in};
ghost use Rattle.project_file.specs.declared.source.Source.TheVariants.{Path, Url};

use crate::putting::{put, put_text};
use crate::source::Source;
use crate::spec_text::SpecText;
use jl_versions::Version;
use jl_versions::laws::text_means_one_version;
use pkg_world::{Name, Values};
use std::alloc::{AllocError, Global};
use toml::value::Array;
use toml_view::{Table, Value};
use uuid::Uuid;

/// What can be written as a value of a table.
pub(crate) trait Writes {
    ghost use Rattle.std.specs.Prelude.{Result};
    ghost use Rattle.toml.specs.Data.{Data};
    ghost use Rattle.toml_view.specs.declared.refusal.Refusal.{Refusal};

    ghost gives: { Data → Result Self Refusal };

    /// A value that reads as this again, nests one deep at most, and has no date without a text.
    fn write(&self, alloc: Global) -> Result<Value, AllocError>
        ensures back { IfOk result (λ value. gives (view value) ≡ Ok self.now) }
        ensures flat { IfOk result (λ value. depth (view value) ≤ 1) }
        ensures dated { IfOk result (λ value. has_valid_dates (view value) ≡ true) };
}

impl Writes for Name {
    ghost gives = { text_of };

    fn write(&self, alloc: Global) -> Result<Value, AllocError> {
        Value::string(alloc, self.as_str())
    }
}

impl Writes for Uuid {
    ghost gives = { uuid_of };

    fn write(&self, alloc: Global) -> Result<Value, AllocError> {
        let mut buffer = Uuid::encode_buffer();
        Value::string(alloc, self.hyphenated().encode_lower(&mut buffer))
    }
}

impl Writes for Version {
    ghost gives = { version_at };

    fn write(&self, alloc: Global) -> Result<Value, AllocError> {
        text_means_one_version();
        let text = self.print(alloc)?;
        Value::string(alloc, text.as_str())
    }
}

impl Writes for Values<Name> {
    ghost gives = { texts_of };

    fn write(&self, alloc: Global) -> Result<Value, AllocError> {
        let array = array_of(alloc, self.items())?;
        Ok(Value::Array(array))
    }
}

/// The list of those names.
fn array_of(alloc: Global, names: &[Name]) -> Result<Array, AllocError>
    ensures back { IfOk result (λ array. items_read text_of (array_view array) ≡ Ok names.now) }
    ensures flat { IfOk result (λ array. items_depth (array_view array) ≤ 0) }
    ensures dated { IfOk result (λ array. items_have_valid_dates (array_view array) ≡ true) }
{
    let mut array = Array::new(alloc);
    for name in names {
        array.push(Value::string(alloc, name.as_str())?)?;
    }
    Ok(array)
}

impl Writes for SpecText {
    ghost gives = { spec_of };

    fn write(&self, alloc: Global) -> Result<Value, AllocError> {
        Value::string(alloc, self.text())
    }
}

impl Writes for Source {
    ghost gives = { source_of };

    fn write(&self, alloc: Global) -> Result<Value, AllocError> {
        let table = source_table(alloc, self)?;
        Ok(Value::Table(table))
    }
}

/// The table of a source.
fn source_table(alloc: Global, source: &Source) -> Result<Table, AllocError>
    ensures back { IfOk result (λ table. source_in (table_view table) ≡ Ok source.now) }
    ensures flat { IfOk result (λ table. members_depth (table_view table) ≤ 0) }
    ensures dated { IfOk result (λ table. members_have_valid_dates (table_view table) ≡ true) }
{
    match source {
        Source::Path(path) => path_table(alloc, path),
        Source::Url { url, rev, subdir } => url_table(alloc, url, rev, subdir),
    }
}

/// The table of a source with a path.
fn path_table(alloc: Global, path: &Name) -> Result<Table, AllocError>
    ensures back { IfOk result (λ table. source_in (table_view table) ≡ Ok (Path path.now)) }
    ensures flat { IfOk result (λ table. members_depth (table_view table) ≤ 0) }
    ensures dated { IfOk result (λ table. members_have_valid_dates (table_view table) ≡ true) }
{
    let mut table = Table::new(alloc);
    let text = Value::string(alloc, path.as_str())?;
    put(alloc, &mut table, "path", text)?;
    Ok(table)
}

/// The table of a source with an address.
#[tactic(auto, using(crate::proofs::Written::url_back, crate::proofs::Written::url_flat, crate::proofs::Written::url_dated))]
fn url_table(
    alloc: Global,
    url: &Name,
    rev: &Option<Name>,
    subdir: &Option<Name>,
) -> Result<Table, AllocError>
    ensures back { IfOk result (λ table. source_in (table_view table) ≡ Ok (Url url.now rev.now subdir.now)) }
    ensures flat { IfOk result (λ table. members_depth (table_view table) ≤ 0) }
    ensures dated { IfOk result (λ table. members_have_valid_dates (table_view table) ≡ true) }
{
    let mut table = Table::new(alloc);
    let text = Value::string(alloc, url.as_str())?;
    put(alloc, &mut table, "url", text)?;
    put_text(alloc, &mut table, "rev", rev)?;
    put_text(alloc, &mut table, "subdir", subdir)?;
    Ok(table)
}
