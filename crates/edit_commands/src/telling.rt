//! The texts that tell what a demand is resolved to: the printed line, and the manifest.
ghost use Rattle.std.specs.Prelude.{◌≡◌, ◌∷◌, [], true, false, Ok, length, map, IfOk, IfErr, string_bytes};
ghost use Rattle.toml.specs.View.{table_view};
ghost use Rattle.project_file.specs.Keys.{IsPlain};
ghost use Rattle.project_file.specs.Projects.{read_of as project_read};
ghost use Rattle.project_file.specs.Said.{said as said_project};
ghost use Rattle.manifest_file.specs.Saying.{read_of};
ghost use Rattle.manifest_file.specs.Written.{written as table_of};
ghost use Rattle.offer_terms.specs.Demanded.{wanted};
ghost use Rattle.toml_view.specs.Document.{viewed};
ghost use Rattle.log_text.specs.Text.{text_of};
ghost use Rattle.book_graph.specs.Limits.{IsPast};
ghost use Rattle.resolve_core.specs.Classed.{AreClassesOf};
ghost use Rattle.manifest_writing.specs.Views.{found_said};
ghost use Rattle.manifest_writing.specs.Writing.{written as manifest_of};
ghost use Rattle.pkg_commands.specs.Edit.{seen as seen_edit};
ghost use Rattle.resolve_lines.specs.Lines.{resolved_line as line_meant};
ghost use Rattle.command_answers.specs.Endings.{said_write};
ghost use Rattle.toml_view.specs.declared.print.PrintFault.TheVariants.{Memory};
ghost use Rattle.edit_commands.specs.EditDue as spec;

use command_answers::{Write, Writes};
use log_text::print_log;
use manifest_writing::{FoundExtensions, manifest_text, written};
use offer_book::{Book, Catalog, Demand, Selection};
use pkg_commands::Edited;
use pkg_world::{Bytes, Duplicate, Listed, NormPath};
use project_file::Project;
use refutation_log::Log;
use resolve_core::{ClassTable, Resolved, class_table};
use resolve_lines::{class_lines, resolved_line};
use std::alloc::{AllocError, Global};
use toml_view::{PrintFault, print_table};
use version_graph::GraphFault;

/// The line of what is resolved, behind the lines of the classes where they are asked for.
pub(crate) fn line_of(
    alloc: Global,
    classes: bool,
    demand: &Demand,
    book: &Book,
    resolved: &Resolved,
) -> Result<String, GraphFault>
    ensures ok { IfOk result (λ line. spec.IsLine book.now (wanted demand.now) classes resolved.now (string_bytes line)) }
    ensures past { IfErr result (IsPast book.now (wanted demand.now)) }
{
    if classes {
        with_classes(alloc, demand, book, resolved)
    } else {
        Ok(plain_line(alloc, resolved)?)
    }
}

fn plain_line(alloc: Global, resolved: &Resolved) -> Result<String, AllocError>
    ensures { IfOk result (λ line. string_bytes line ≡ line_meant (length resolved.now.selection.items) resolved.now.nodes) }
{
    let count = resolved.selection.items().len() as u64;
    resolved_line(alloc, count, resolved.nodes)
}

/// The line behind the lines of the classes.
fn with_classes(
    alloc: Global,
    demand: &Demand,
    book: &Book,
    resolved: &Resolved,
) -> Result<String, GraphFault>
    ensures ok { IfOk result (λ line. spec.HasClasses book.now (wanted demand.now) resolved.now (string_bytes line)) }
    ensures past { IfErr result (IsPast book.now (wanted demand.now)) }
{
    match class_table(alloc, book, demand) {
        Ok(table) => Ok(classes_line(alloc, demand, book, &table, resolved)?),
        Err(fault) => Err(fault),
    }
}

fn classes_line(
    alloc: Global,
    demand: &Demand,
    book: &Book,
    table: &ClassTable,
    resolved: &Resolved,
) -> Result<String, AllocError>
    requires { AreClassesOf book.now (wanted demand.now) table.now.items }
    ensures { IfOk result (λ line. spec.HasClasses book.now (wanted demand.now) resolved.now (string_bytes line)) }
{
    let mut text = class_lines(alloc, book, table)?;
    let line = plain_line(alloc, resolved)?;
    text.push_str(line.as_str())?;
    Ok(text)
}

/// The project file to be replaced, where the command changes it, by a text that reads as the project.
///
/// Errors: BadDate exactly where a date in it is none that a text can tell; want of memory.
#[tactic(auto, unfolding(project_file::specs::Said::said))]
pub(crate) fn front_of(
    alloc: Global,
    rewrites: bool,
    file: &NormPath,
    project: &Project,
) -> Result<Writes, PrintFault>
    requires { IsPlain (table_view project.now.rest) }
    ensures front { IfOk result (λ writes. spec.IsFront rewrites file.now (said_project project.now) (map said_write writes.items)) }
    ensures dated { IfOk result (λ writes. spec.has_bad_date rewrites (said_project project.now) ≡ false) }
    ensures date { IfErr result (spec.IsDateOf (spec.has_bad_date rewrites (said_project project.now))) }
{
    if !rewrites {
        return Ok(Writes::make(alloc));
    }
    match project_bytes(alloc, project) {
        Ok(bytes) => written_file(alloc, file, bytes),
        Err(fault) => Err(fault),
    }
}

fn written_file(alloc: Global, file: &NormPath, bytes: Bytes) -> Result<Writes, PrintFault>
    ensures only { IfOk result (λ writes. map said_write writes.items ≡ (file.now, bytes.items) ∷ []) }
    ensures memory { IfErr result (λ fault. fault ≡ Memory) }
{
    match one_write(alloc, file, bytes) {
        Ok(writes) => Ok(writes),
        Err(_) => Err(PrintFault::Memory),
    }
}

/// The bytes of a project's file.
#[tactic(auto, unfolding(project_file::specs::Said::said))]
fn project_bytes(alloc: Global, project: &Project) -> Result<Bytes, PrintFault>
    requires { IsPlain (table_view project.now.rest) }
    ensures reads { IfOk result (λ bytes. project_read bytes.items ≡ Ok (said_project project.now)) }
    ensures dated { IfOk result (λ bytes. spec.has_bad_date true (said_project project.now) ≡ false) }
    ensures date { IfErr result (spec.IsDateOf (spec.has_bad_date true (said_project project.now))) }
{
    match project.to_table(alloc) {
        Ok(table) => print_table(alloc, &table),
        Err(_) => Err(PrintFault::Memory),
    }
}

/// The files to be replaced: these, and then the manifest by the text that says the selection.
pub(crate) fn writes_of(
    alloc: Global,
    catalog: &Catalog,
    edited: &Edited,
    book: &Book,
    selection: &Selection,
    front: Writes,
) -> Result<Writes, AllocError>
    ensures { IfOk result (λ writes. spec.SaysManifest (spec.question_of (seen_edit edited.now) catalog.now.home book.now) [] selection.now.items (map said_write front.items) (map said_write writes.items)) }
{
    // Extensions that are found in trees stand here.
    let found = FoundExtensions::new(alloc);
    let bytes = manifest_bytes(alloc, &edited.demand, book, selection, &found)?;
    let path = catalog.home().manifest.copy(alloc)?;
    let mut writes = front;
    writes.push(Write { path, bytes })?;
    Ok(writes)
}

/// The bytes of the manifest that says the selection.
fn manifest_bytes(
    alloc: Global,
    demand: &Demand,
    book: &Book,
    selection: &Selection,
    found: &FoundExtensions,
) -> Result<Bytes, AllocError>
    ensures says { IfOk result (λ bytes. viewed bytes.items ≡ Ok (table_of (manifest_of book.now (wanted demand.now) (found_said found.now.entries) selection.now.items))) }
    ensures reads { IfOk result (λ bytes. read_of bytes.items ≡ Ok (manifest_of book.now (wanted demand.now) (found_said found.now.entries) selection.now.items)) }
{
    let manifest = written(alloc, book, demand, selection, found)?;
    manifest_text(alloc, &manifest)
}

/// The file to be replaced where no selection is feasible: the one that is named for the proof, by the certificate's text.
pub(crate) fn proof_writes(alloc: Global, file: &NormPath, log: &Log) -> Result<Writes, AllocError>
    ensures { IfOk result (λ writes. map said_write writes.items ≡ (file.now, text_of log.now.items) ∷ []) }
{
    let text = print_log(alloc, log)?;
    one_write(alloc, file, text)
}

/// The replacing of one file.
fn one_write(alloc: Global, path: &NormPath, bytes: Bytes) -> Result<Writes, AllocError>
    ensures { IfOk result (λ writes. map said_write writes.items ≡ (path.now, bytes.items) ∷ []) }
{
    let path = path.copy(alloc)?;
    let mut writes = Listed::make(alloc);
    writes.push(Write { path, bytes })?;
    Ok(writes)
}
