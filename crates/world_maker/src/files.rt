//! The files of a made world, each with its table.
ghost use Rattle.std.specs.Prelude.{◌≡◌, ◌∷◌, ◌++◌, ◌*◌, ◌<◌, ◌≤◌, ◌^◌, true, [], map, length, IfOk, OnOk};
ghost use Rattle.std.specs.List.{AllByRecursion};
ghost use Rattle.toml.specs.View.{table_view};
ghost use Rattle.pkg_world.specs.Path.{is_plain};
ghost use Rattle.world_maker.specs.Draws.{state};
ghost use Rattle.world_maker.specs.Drawn.{spans_from};
ghost use Rattle.world_maker.specs.Laid.{file_of};
ghost use Rattle.world_maker.specs.World as spec;

use crate::draws::{Draws, starts};
use crate::needs::all_needs;
use crate::ranges::{Span, spans_of};
use crate::tables::{
    compat_table, deps_table, package_table, project_table, registry_table, versions_table,
};
use crate::texts::name_text;
use pkg_world::NormPath;
use std::alloc::{AllocError, Global};
use toml_view::Table;

/// A file, with the table that its text is to read as.
#[derive(Drop)]
pub(crate) struct TableFile {
    pub(crate) path: NormPath,
    pub(crate) table: Table,
}

/// How many versions a package has.
const VERSIONS: u64 = 8;

/// How many first packages the project depends on.
const ROOTS: u64 = 10;

/// The files of the world of so many packages.
pub(crate) fn world_files(
    alloc: Global,
    number: u64,
    count: u64,
) -> Result<Vec<TableFile>, AllocError>
    requires { count ≤ 2 ^ 32 }
    ensures { IfOk result (λ files. map file_of files.items ≡ spec.sized_world number count) }
{
    let mut draws = Draws { state: number };
    let starts = starts(alloc, &mut draws, count)?;
    let needs = all_needs(alloc, &mut draws, count)?;
    let registry = registry_path(alloc)?;
    let mut files = first_files(alloc, &registry, count)?;
    'packages: for package in 0..count {
        let needs = &needs[package as usize];
        push_drawn(
            alloc, &mut files, &mut draws, &registry, &starts, package, needs,
        )?;
    }
    Ok(files)
}

/// The registry's folder.
fn registry_path(alloc: Global) -> Result<NormPath, AllocError>
    ensures { IfOk result (λ path. path ≡ spec.registry) }
{
    let depot = NormPath::root(alloc).child(alloc, "d")?;
    depot.child(alloc, "registries")?.child(alloc, "Made")
}

/// The project's file, and that of the registry.
fn first_files(alloc: Global, registry: &NormPath, count: u64) -> Result<Vec<TableFile>, AllocError>
    requires { registry.now ≡ spec.registry }
    ensures { IfOk result (λ files. map file_of files.items ≡ spec.first_files count) }
{
    let project = NormPath::root(alloc).child(alloc, "p")?;
    let mut files = Vec::new(alloc);
    push_file(
        alloc,
        &mut files,
        &project,
        "Project.toml",
        project_table(alloc, ROOTS)?,
    )?;
    push_file(
        alloc,
        &mut files,
        registry,
        "Registry.toml",
        registry_table(alloc, count)?,
    )?;
    Ok(files)
}

/// Appends a file in a folder.
fn push_file(
    alloc: Global,
    files: &mut Vec<TableFile>,
    folder: &NormPath,
    name: &str,
    table: Table,
) -> Result<(), AllocError>
    requires { is_plain name.now ≡ true }
    ensures { OnOk result (map file_of files.new.items ≡ map file_of files.old.items ++ spec.filed folder.now name.now (table_view table) ∷ []) }
{
    let path = folder.child(alloc, name)?;
    files.push(TableFile { path, table })?;
    Ok(())
}

/// Appends the files of a package, whose ranges are drawn.
fn push_drawn(
    alloc: Global,
    files: &mut Vec<TableFile>,
    draws: &mut Draws,
    registry: &NormPath,
    starts: &[u64],
    package: u64,
    needs: &[u64],
) -> Result<(), AllocError>
    requires folder { registry.now ≡ spec.registry }
    requires small { AllByRecursion (λ start. start < 8) starts.now }
    requires known { AllByRecursion (λ need. need < length starts.now) needs.now }
    ensures made { OnOk result (map file_of files.new.items ≡ map file_of files.old.items ++ spec.package_files «package» needs.now (spans_from draws.old.state starts.now needs.now)) }
    ensures next { OnOk result (draws.new.state ≡ state draws.old.state (16 * length needs.now)) }
{
    let spans = spans_of(alloc, draws, starts, needs)?;
    push_package(alloc, files, registry, package, needs, &spans)?;
    Ok(())
}

/// Appends the files of a package.
fn push_package(
    alloc: Global,
    files: &mut Vec<TableFile>,
    registry: &NormPath,
    package: u64,
    needs: &[u64],
    spans: &[Span],
) -> Result<(), AllocError>
    requires folder { registry.now ≡ spec.registry }
    requires ranges { length spans.now ≡ 8 * length needs.now }
    ensures { OnOk result (map file_of files.new.items ≡ map file_of files.old.items ++ spec.package_files «package» needs.now spans.now) }
{
    let name = name_text(alloc, package)?;
    let folder = registry.child(alloc, name.as_str())?;
    push_file(
        alloc,
        files,
        &folder,
        "Package.toml",
        package_table(alloc, package)?,
    )?;
    push_file(
        alloc,
        files,
        &folder,
        "Versions.toml",
        versions_table(alloc, VERSIONS, package)?,
    )?;
    push_file(
        alloc,
        files,
        &folder,
        "Deps.toml",
        deps_table(alloc, needs)?,
    )?;
    push_file(
        alloc,
        files,
        &folder,
        "Compat.toml",
        compat_table(alloc, VERSIONS, needs, spans)?,
    )?;
    Ok(())
}
