//! The table of a project.
ghost use Rattle.std.specs.Prelude.{◌≡◌, ◌≤◌, Ok, IfOk, OnOk, IsTrue};
ghost use Rattle.toml.specs.Data.{members_have_valid_dates};
ghost use Rattle.toml.specs.View.{table_view};
ghost use Rattle.toml_view.specs.Document.{nesting, nesting_limit};
ghost use Rattle.project_file.specs.Keys.{names_none};
ghost use Rattle.project_file.specs.Projects.{project_of};
ghost use Rattle.project_file.specs.Putting.{PutsBack, PutsMiddle, PutsFront};
ghost use Rattle.project_file.specs.Said.{said};

use crate::project::Project;
use crate::putting::{put_each, put_one};
use std::alloc::{AllocError, Global};
use toml_view::Table;

impl Project {
    /// The table of the project, which reads as an equal project. Lists without any member aren't written, a version is
    /// printed as `Version::print` does, identifiers have hyphens and are in lower case, and a compatibility text stands
    /// unchanged. No key of the rest may be a named one, and the rest may nest 64 deep at most. Want of memory is the
    /// one error.
    pub fn to_table(&self, alloc: Global) -> Result<Table, AllocError>
        requires plain { IsTrue (names_none (table_view self.now.rest)) }
        requires nested { nesting (table_view self.now.rest) ≤ nesting_limit }
        ensures back { IfOk result (λ table. project_of (table_view table) ≡ Ok (said self.now)) }
        ensures nested { IfOk result (λ table. nesting (table_view table) ≤ nesting_limit) }
        // Its dates are those of the rest.
        ensures dates { IfOk result (λ table. members_have_valid_dates (table_view table) ≡ members_have_valid_dates (table_view self.now.rest)) }
    {
        let mut table = copied(&self.rest)?;
        self.put_back(alloc, &mut table)?;
        self.put_middle(alloc, &mut table)?;
        self.put_front(alloc, &mut table)?;
        Ok(table)
    }

    /// Puts what stands at the keys from `uuid` on, the last one first: reading then undoes one put after the other.
    fn put_back(&self, alloc: Global, table: &mut Table) -> Result<(), AllocError>
        ensures { OnOk result (PutsBack self.now.uuid self.now.version self.now.weakdeps.items (table_view table.old) (table_view table.new)) }
    {
        put_each(alloc, table, "weakdeps", self.weakdeps.items())?;
        put_one(alloc, table, "version", &self.version)?;
        put_one(alloc, table, "uuid", &self.uuid)?;
        Ok(())
    }

    /// Puts what stands at the keys from `manifest` to `sources`.
    fn put_middle(&self, alloc: Global, table: &mut Table) -> Result<(), AllocError>
        ensures { OnOk result (PutsMiddle self.now.manifest self.now.name self.now.sources.items (table_view table.old) (table_view table.new)) }
    {
        put_each(alloc, table, "sources", self.sources.items())?;
        put_one(alloc, table, "name", &self.name)?;
        put_one(alloc, table, "manifest", &self.manifest)?;
        Ok(())
    }

    /// Puts what stands at the keys before `manifest`.
    fn put_front(&self, alloc: Global, table: &mut Table) -> Result<(), AllocError>
        ensures { OnOk result (PutsFront self.now.compat.items self.now.deps.items self.now.extensions.items self.now.extras.items (table_view table.old) (table_view table.new)) }
    {
        put_each(alloc, table, "extras", self.extras.items())?;
        put_each(alloc, table, "extensions", self.extensions.items())?;
        put_each(alloc, table, "deps", self.deps.items())?;
        put_each(alloc, table, "compat", self.compat.items())?;
        Ok(())
    }
}

/// A table of equal values.
fn copied(table: &Table) -> Result<Table, AllocError>
    ensures { IfOk result (λ copy. table_view copy ≡ table_view table.now) }
{
    match table.clone() {
        Ok(copy) => Ok(copy),
        Err(none) => Err(none),
    }
}
