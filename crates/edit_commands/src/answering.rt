//! What a demand is resolved to over its book, and how this ends the command.
ghost use Rattle.std.specs.Prelude.{◌≡◌, true, false, IfOk, IfErr, map, string_bytes};
ghost use Rattle.toml.specs.View.{table_view};
ghost use Rattle.project_file.specs.Keys.{IsPlain};
ghost use Rattle.project_file.specs.Said.{said as said_project};
ghost use Rattle.offer_terms.specs.Demanded.{wanted};
ghost use Rattle.instance_search.specs.declared.answer.Answer.TheVariants.{Empty};
ghost use Rattle.book_graph.specs.Limits.{IsPast};
ghost use Rattle.book_graph.specs.StandsFor.{IsBook};
ghost use Rattle.resolve_core.specs.Resolved.{IsAnswer, IsResolved};
ghost use Rattle.resolve_core.specs.declared.resolved.Resolved as resolves;
ghost use Rattle.pkg_commands.specs.Edit.{seen as seen_edit};
ghost use Rattle.command_answers.specs.Answers.{NoFault, IsLate, IsUnprinted};
ghost use Rattle.command_answers.specs.Endings.{EndsBy, TellsLate, said_write};
ghost use Rattle.edit_commands.specs.EditDue as spec;
ghost use Rattle.edit_commands.specs.declared.options.Options as asked;

use crate::options::Options;
use crate::telling::{front_of, line_of, proof_writes, writes_of};
use command_answers::{Ending, Status, Writes};
use offer_book::{Book, Catalog};
use pkg_commands::Edited;
use pkg_world::{Cause, Duplicate, NormPath};
use refutation_log::Log;
use resolve_core::{ResolveFault, Resolved, resolve};
use std::alloc::Global;
use toml_view::PrintFault;
use version_graph::GraphFault;

/// The ending of the command by the book of the edited project's demand, which is let go.
pub(crate) fn of_book(
    alloc: Global,
    options: &Options,
    catalog: &Catalog,
    edited: &Edited,
    book: Book,
) -> Result<Ending, Status>
    requires { IsPlain (table_view edited.now.project.rest) }
    ensures answer { EndsBy (spec.IsFound (spec.question_of (seen_edit edited.now) catalog.now.home book) options.now) result }
    ensures sound { IsBook book }
    ensures told { IfOk result TellsLate }
    ensures late { IfErr result IsLate }
    ensures unprinted { IfErr result IsUnprinted }
    ensures fault { IfErr result NoFault }
{
    match resolve(alloc, &book, &edited.demand, options.budget) {
        Ok(resolved) => of_resolved(alloc, options, catalog, edited, &book, &resolved),
        Err(ResolveFault::Unsatisfiable(log)) => of_none(alloc, options, log),
        Err(ResolveFault::GaveUp(log)) => Err(Status::GaveUp(log)),
        Err(ResolveFault::Limit(kind, count)) => Err(Status::Limit(kind, count)),
        Err(ResolveFault::Memory) => Err(Status::Memory),
    }
}

/// The ending by what the demand is resolved to.
fn of_resolved(
    alloc: Global,
    options: &Options,
    catalog: &Catalog,
    edited: &Edited,
    book: &Book,
    resolved: &Resolved,
) -> Result<Ending, Status>
    requires plain { IsPlain (table_view edited.now.project.rest) }
    requires resolves { IsResolved book.now (wanted edited.now.demand) options.now.budget resolved.now }
    ensures answer { EndsBy (spec.IsFound (spec.question_of (seen_edit edited.now) catalog.now.home book.now) options.now) result }
    ensures told { IfOk result TellsLate }
    ensures late { IfErr result IsLate }
    ensures unprinted { IfErr result IsUnprinted }
    ensures fault { IfErr result NoFault }
{
    let file = &catalog.home().project;
    match front_of(alloc, options.rewrites, file, &edited.project) {
        Ok(front) => of_front(alloc, options, catalog, edited, book, resolved, front),
        Err(PrintFault::BadDate) => bad_date(alloc, file),
        Err(PrintFault::Memory) => Err(Status::Memory),
    }
}

/// The ending behind the project file that is to be replaced.
fn of_front(
    alloc: Global,
    options: &Options,
    catalog: &Catalog,
    edited: &Edited,
    book: &Book,
    resolved: &Resolved,
    front: Writes,
) -> Result<Ending, Status>
    requires resolves { IsResolved book.now (wanted edited.now.demand) options.now.budget resolved.now }
    requires dated { spec.has_bad_date options.now.rewrites (said_project edited.now.project) ≡ false }
    requires front { spec.IsFront options.now.rewrites catalog.now.home.project (said_project edited.now.project) (map said_write front.items) }
    ensures answer { EndsBy (spec.IsFound (spec.question_of (seen_edit edited.now) catalog.now.home book.now) options.now) result }
    ensures told { IfOk result TellsLate }
    ensures late { IfErr result IsLate }
    ensures unprinted { IfErr result IsUnprinted }
    ensures fault { IfErr result NoFault }
{
    match texts(alloc, options, catalog, edited, book, resolved, front) {
        Ok((line, writes)) => Ok(Ending {
            writes,
            told: Ok(line),
        }),
        Err(GraphFault::Limit(kind, count)) => Err(Status::Limit(kind, count)),
        Err(GraphFault::Memory) => Err(Status::Memory),
    }
}

/// The line of what is resolved, and the files to be replaced.
fn texts(
    alloc: Global,
    options: &Options,
    catalog: &Catalog,
    edited: &Edited,
    book: &Book,
    resolved: &Resolved,
    front: Writes,
) -> Result<(String, Writes), GraphFault>
    requires resolves { IsResolved book.now (wanted edited.now.demand) options.now.budget resolved.now }
    requires dated { spec.has_bad_date options.now.rewrites (said_project edited.now.project) ≡ false }
    requires front { spec.IsFront options.now.rewrites catalog.now.home.project (said_project edited.now.project) (map said_write front.items) }
    ensures ok { IfOk result (λ it. spec.Tells (spec.question_of (seen_edit edited.now) catalog.now.home book.now) options.now resolved.now (string_bytes it.0) (map said_write it.1.items)) }
    ensures past { IfErr result (IsPast book.now (wanted edited.now.demand)) }
{
    let line = match line_of(alloc, options.classes, &edited.demand, book, resolved) {
        Ok(line) => line,
        Err(fault) => return Err(fault),
    };
    let writes = writes_of(alloc, catalog, edited, book, &resolved.selection, front)?;
    Ok((line, writes))
}

/// The project file can't be replaced, for a date that no text can tell.
fn bad_date(alloc: Global, file: &NormPath) -> Result<Ending, Status>
    ensures answer { (q : spec.Question) (o : asked.Options) (resolved : resolves.Resolved) → IsResolved q.book q.wanted o.budget resolved
        → spec.has_bad_date o.rewrites q.project ≡ true → q.home.project ≡ file.now → EndsBy (spec.IsFound q o) result }
    ensures told { IfOk result TellsLate }
    ensures late { IfErr result IsLate }
    ensures unprinted { IfErr result IsUnprinted }
    ensures fault { IfErr result NoFault }
{
    match file.copy(alloc) {
        Ok(file) => Err(Status::BadFile(file, Cause::BadDate)),
        Err(_) => Err(Status::Memory),
    }
}

/// That no selection is feasible, behind the certificate where a file is named for it.
fn of_none(alloc: Global, options: &Options, log: Log) -> Result<Ending, Status>
    ensures answer { (q : spec.Question) → IsAnswer q.book q.wanted options.now.budget (Empty log) → EndsBy (spec.IsFound q options.now) result }
    ensures told { IfOk result TellsLate }
    ensures late { IfErr result IsLate }
    ensures unprinted { IfErr result IsUnprinted }
    ensures fault { IfErr result NoFault }
{
    match &options.proof {
        Some(file) => {
            let writes = proof_writes(alloc, file, &log)?;
            Ok(Ending {
                writes,
                told: Err(Status::Unsatisfiable(log)),
            })
        }
        None => Err(Status::Unsatisfiable(log)),
    }
}
