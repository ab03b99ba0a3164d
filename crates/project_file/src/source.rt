//! Where a package comes from.
ghost use Rattle.std.specs.Prelude.{◌≡◌, ◌||◌, codes, Ok, IfOk, IfErr};
ghost use Rattle.toml.specs.View.{table_view};
ghost use Rattle.project_file.specs.Places.{source_of, source_in, source_from};
ghost use Rattle.project_file.specs.Chain.{source_chain};
ghost use Rattle.toml_view.specs.Answers.{Refuses};
ghost use Rattle.toml_view.specs.Reading.{has_key};

use pkg_world::Name;
use std::alloc::Global;
use toml_view::{NameReader, Reader, Stop, Table, Value, has_key, opt, other_shape};

/// Where a project says that a package comes from (Pkg, `[sources]`).
#[derive(Debug, Drop)]
pub enum Source {
    /// The path of a folder.
    Path(Name),
    /// An address, with a revision and a folder in it where they are given.
    Url {
        url: Name,
        rev: Option<Name>,
        subdir: Option<Name>,
    },
}

/// Reads the table of a source.
#[derive(Clone, Copy, Debug, Drop)]
pub(crate) struct SourceReader;

impl Reader for SourceReader {
    type Out = Source;

    ghost gives = { λ _ value. source_of value };

    fn read(&self, alloc: Global, value: &Value) -> Result<Source, Stop> {
        match value.as_table() {
            Some(table) => read_source(alloc, table),
            None => Err(other_shape()),
        }
    }
}

/// The source of a table that has a path or an address; without either the table is refused itself.
#[tactic(auto, using(crate::proofs::Orders::source_in_order))]
fn read_source(alloc: Global, table: &Table) -> Result<Source, Stop>
    ensures ok { IfOk result (λ source. source_in (table_view table.now) ≡ Ok source) }
    ensures err { IfErr result (λ stop. Refuses stop (source_in (table_view table.now))) }
{
    if is_placed(table) {
        placed_source(alloc, table)
    } else {
        Err(other_shape())
    }
}

/// Whether a table has a path or an address.
fn is_placed(table: &Table) -> bool
    ensures { result ≡ (has_key (codes "path") (table_view table.now) || has_key (codes "url") (table_view table.now)) }
{
    has_key(table, "path") || has_key(table, "url")
}

/// The source by its keys, in the order of their bytes.
#[tactic(auto, unfolding(crate::specs::Chain::source_chain))]
fn placed_source(alloc: Global, table: &Table) -> Result<Source, Stop>
    ensures ok { IfOk result (λ source. source_chain (table_view table.now) ≡ Ok source) }
    ensures err { IfErr result (λ stop. Refuses stop (source_chain (table_view table.now))) }
{
    let path = opt(alloc, &NameReader, table, "path")?;
    let rev = opt(alloc, &NameReader, table, "rev")?;
    let subdir = opt(alloc, &NameReader, table, "subdir")?;
    let url = opt(alloc, &NameReader, table, "url")?;
    chosen(path, url, rev, subdir)
}

/// A path counts before an address.
fn chosen(
    path: Option<Name>,
    url: Option<Name>,
    rev: Option<Name>,
    subdir: Option<Name>,
) -> Result<Source, Stop>
    ensures ok { IfOk result (λ source. source_from path url rev subdir ≡ Ok source) }
    ensures err { IfErr result (λ stop. Refuses stop (source_from path url rev subdir)) }
{
    match path {
        Some(path) => Ok(Source::Path(path)),
        None => match url {
            Some(url) => Ok(Source::Url { url, rev, subdir }),
            None => Err(other_shape()),
        },
    }
}
