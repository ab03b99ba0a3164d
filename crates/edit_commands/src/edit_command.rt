//! A command that writes: the phases before the packages are chosen.
ghost use Rattle.std.specs.Prelude.{◌≡◌, ◌≤◌, Ok, IfSome, IfOk, IfErr, MatchResult};
ghost use Rattle.toml.specs.View.{table_view};
ghost use Rattle.project_file.specs.Keys.{IsPlain};
ghost use Rattle.pkg_commands.specs.Commands.{said_command};
ghost use Rattle.pkg_commands.specs.Edit.{seen as seen_edit};
ghost use Rattle.project_phases.specs.Phases.{seen as seen_opened, said_wish};
ghost use Rattle.command_answers.specs.Answers.{Refuses, ReadFaultRose, IsLate, IsUnprinted};
ghost use Rattle.command_answers.specs.Endings.{EndsBy, TellsLate};
ghost use Rattle.edit_commands.specs.Orders.{said_order};
ghost use Rattle.edit_commands.specs.EditDue as spec;

use crate::answering::of_book;
use crate::laws::found_is_due;
use crate::options::Options;
use crate::order::{Order, Parts, parts_of};
use command_answers::{Ending, Status};
use offer_book::Catalog;
use pkg_commands::{Command, Edited};
use pkg_world::{Ids, Place, Store};
use project_phases::{
    Opened, Wish, begin_project, command_of, edit_project, gather_book, open_project,
};
use std::alloc::Global;

/// What a command that writes ends with, or its refusal: the line of what is resolved, before it the lines of the classes where
/// they are asked for, and the files that are to be replaced: the project file, where the command changes it, and then the
/// manifest. The manifest says a selection that is valid for the offers of the files and the demand of the edited project, and
/// in which no package can be raised alone. (Pkg, Compatibility, Project.toml and Manifest.toml; the order, the lines and
/// raising are own rules.) Nothing is written here.
///
/// Where no selection is feasible and a file is named for the proof, that file alone is to be replaced, by the text of the
/// certificate, and then Unsatisfiable is told.
///
/// Refusals, of which the first that is due comes: MissingFile of the project file, unless packages are added or developed;
/// BadFile of the project file and of the manifest, each of which is empty where it isn't there; MissingFile and BadFile of the
/// files of the catalog, and BadFile of the project file of a folder that is to be developed; NotAProject of that folder; by the
/// words of the order, one after the other, NameTaken, UnknownName, UnknownPackage, AmbiguousName, NotInProject, NotInManifest
/// and NotPinned; WrongJulia; NeedsFetch; MissingFile and BadFile of the tables of the packages that are reached;
/// UnknownPackage; Limit of packages, of states, of bits and of cells; Unsatisfiable, where no selection is feasible and the
/// search fits the budget, with its certificate, and no file is named for the proof; GaveUp, where the search spends the budget
/// before it finds a solution, with as many nodes; BadFile of the project file, where it is replaced and has a date that no text
/// can tell. ReadFault comes where the store fails, and want of memory is free.
pub fn write_project<S: Store>(
    alloc: Global,
    place: &Place,
    order: Order,
    budget: u32,
    store: &mut S,
) -> Result<Ending, Status>
    ensures answer { IfSome (S.files store.old) (λ all. EndsBy (spec.IsDue all place.now (said_order order) budget) result) }
    ensures told { IfOk result TellsLate }
    ensures late { IfErr result IsLate }
    ensures unprinted { IfErr result IsUnprinted }
    ensures fault { IfErr result (ReadFaultRose (S.read_faults store.old) (S.read_faults store.new)) }
    ensures files { S.files store.new ≡ S.files store.old }
    ensures later { S.read_faults store.old ≤ S.read_faults store.new }
    ensures other { S.write_faults store.new ≡ S.write_faults store.old }
{
    of_parts(alloc, place, parts_of(order, budget), store)
}

/// The same by the parts of the order.
fn of_parts<S: Store>(
    alloc: Global,
    place: &Place,
    parts: Parts,
    store: &mut S,
) -> Result<Ending, Status>
    ensures answer { IfSome (S.files store.old) (λ all. EndsBy (spec.IsAnswerOn (spec.posed_by parts.begun (said_wish parts.wish) all place.now) parts.options) result) }
    ensures told { IfOk result TellsLate }
    ensures late { IfErr result IsLate }
    ensures unprinted { IfErr result IsUnprinted }
    ensures fault { IfErr result (ReadFaultRose (S.read_faults store.old) (S.read_faults store.new)) }
    ensures files { S.files store.new ≡ S.files store.old }
    ensures later { S.read_faults store.old ≤ S.read_faults store.new }
    ensures other { S.write_faults store.new ≡ S.write_faults store.old }
{
    let Parts {
        begun,
        options,
        wish,
    } = parts;
    of_wish(alloc, place, begun, &options, wish, store)
}

/// The same by what is to be done with the project.
fn of_wish<S: Store>(
    alloc: Global,
    place: &Place,
    begun: bool,
    options: &Options,
    wish: Wish,
    store: &mut S,
) -> Result<Ending, Status>
    ensures answer { IfSome (S.files store.old) (λ all. EndsBy (spec.IsAnswerOn (spec.posed_by begun (said_wish wish) all place.now) options.now) result) }
    ensures told { IfOk result TellsLate }
    ensures late { IfErr result IsLate }
    ensures unprinted { IfErr result IsUnprinted }
    ensures fault { IfErr result (ReadFaultRose (S.read_faults store.old) (S.read_faults store.new)) }
    ensures files { S.files store.new ≡ S.files store.old }
    ensures later { S.read_faults store.old ≤ S.read_faults store.new }
    ensures other { S.write_faults store.new ≡ S.write_faults store.old }
{
    match opened_by(alloc, place, begun, store) {
        Ok(opened) => of_opened(alloc, place, options, wish, store, opened),
        Err(status) => Err(status),
    }
}

/// What the files say before the edit.
fn opened_by<S: Store>(
    alloc: Global,
    place: &Place,
    begun: bool,
    store: &mut S,
) -> Result<Opened, Status>
    ensures told { IfSome (S.files store.old) (λ all. MatchResult result
        (λ it. spec.opened_by begun all place.now ≡ Ok (seen_opened it))
        (Refuses (spec.opened_by begun all place.now))) }
    ensures plain { IfOk result (λ it. IsPlain (table_view it.project.rest)) }
    ensures late { IfErr result IsLate }
    ensures unprinted { IfErr result IsUnprinted }
    ensures fault { IfErr result (ReadFaultRose (S.read_faults store.old) (S.read_faults store.new)) }
    ensures files { S.files store.new ≡ S.files store.old }
    ensures later { S.read_faults store.old ≤ S.read_faults store.new }
    ensures other { S.write_faults store.new ≡ S.write_faults store.old }
{
    if begun {
        begin_project(alloc, place, store)
    } else {
        open_project(alloc, place, false, store)
    }
}

/// The same by what the files say before the edit.
fn of_opened<S: Store>(
    alloc: Global,
    place: &Place,
    options: &Options,
    wish: Wish,
    store: &mut S,
    opened: Opened,
) -> Result<Ending, Status>
    requires { IsPlain (table_view opened.project.rest) }
    ensures answer { IfSome (S.files store.old) (λ all. EndsBy (spec.IsAnswerOn (spec.with_wish all place.now (said_wish wish) (seen_opened opened)) options.now) result) }
    ensures told { IfOk result TellsLate }
    ensures late { IfErr result IsLate }
    ensures unprinted { IfErr result IsUnprinted }
    ensures fault { IfErr result (ReadFaultRose (S.read_faults store.old) (S.read_faults store.new)) }
    ensures files { S.files store.new ≡ S.files store.old }
    ensures later { S.read_faults store.old ≤ S.read_faults store.new }
    ensures other { S.write_faults store.new ≡ S.write_faults store.old }
{
    match command_of(alloc, store, wish) {
        Ok(command) => of_command(alloc, place, options, command, store, opened),
        Err(status) => Err(status),
    }
}

/// The same by the command.
fn of_command<S: Store>(
    alloc: Global,
    place: &Place,
    options: &Options,
    command: Command,
    store: &mut S,
    opened: Opened,
) -> Result<Ending, Status>
    requires { IsPlain (table_view opened.project.rest) }
    ensures answer { IfSome (S.files store.old) (λ all. EndsBy (spec.IsAnswerOn (spec.with_command all place.now (seen_opened opened) (said_command command)) options.now) result) }
    ensures told { IfOk result TellsLate }
    ensures late { IfErr result IsLate }
    ensures unprinted { IfErr result IsUnprinted }
    ensures fault { IfErr result (ReadFaultRose (S.read_faults store.old) (S.read_faults store.new)) }
    ensures files { S.files store.new ≡ S.files store.old }
    ensures later { S.read_faults store.old ≤ S.read_faults store.new }
    ensures other { S.write_faults store.new ≡ S.write_faults store.old }
{
    let Opened {
        catalog,
        project,
        manifest,
    } = opened;
    match edit_project(alloc, command, place, &catalog, project, manifest) {
        Ok(edited) => of_edited(alloc, options, store, &catalog, &edited),
        Err(status) => Err(status),
    }
}

/// The same by the edited project and its demand.
fn of_edited<S: Store>(
    alloc: Global,
    options: &Options,
    store: &mut S,
    catalog: &Catalog,
    edited: &Edited,
) -> Result<Ending, Status>
    requires { IsPlain (table_view edited.now.project.rest) }
    ensures answer { IfSome (S.files store.old) (λ all. EndsBy (spec.IsAnswerOn (spec.with_edit all catalog.now (seen_edit edited.now)) options.now) result) }
    ensures told { IfOk result TellsLate }
    ensures late { IfErr result IsLate }
    ensures unprinted { IfErr result IsUnprinted }
    ensures fault { IfErr result (ReadFaultRose (S.read_faults store.old) (S.read_faults store.new)) }
    ensures files { S.files store.new ≡ S.files store.old }
    ensures later { S.read_faults store.old ≤ S.read_faults store.new }
    ensures other { S.write_faults store.new ≡ S.write_faults store.old }
{
    found_is_due();
    match gather_book(alloc, store, catalog, &edited.demand, &Ids::make(alloc)) {
        Ok(book) => of_book(alloc, options, catalog, edited, book),
        Err(status) => Err(status),
    }
}
