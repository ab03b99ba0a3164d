//! `check`: the phases before what is judged.
ghost use Rattle.std.specs.Prelude.{◌≡◌, ◌≤◌, IfSome, IfErr};
ghost use Rattle.offer_terms.specs.Demanded.{wanted};
ghost use Rattle.project_phases.specs.Phases.{seen as seen_opened};
ghost use Rattle.command_answers.specs.Answers.{ReadFaultRose, IsLate, IsUnprinted};
ghost use Rattle.check_command.specs.CheckDue as spec;
ghost use Rattle.log_check.specs.Answered.{AnswersBy};

use crate::claim::{Claim, claim_of, extra_of};
use crate::judging::of_book;
use crate::laws::judged_is_due;
use command_answers::Status;
use offer_book::{Book, Catalog, Demand};
use pkg_commands::Command;
use pkg_world::{Ids, NormPath, Place, Store};
use project_phases::{Opened, edit_project, gather_book, open_project};
use std::alloc::Global;

/// The lines of `check`, or its refusal: `good` where what the manifest says is valid for the offers of the files and the
/// demand of the project, then `raisable UUID VERSION` where a package can be raised alone, the least by number with its least
/// such offer. Where a file is named, the one line is `refuted` instead: the log that the file tells shows that no selection is
/// feasible for these offers and this demand, whoever made it. (Pkg, Compatibility; the order and the lines are own rules.)
///
/// Refusals, of which the first that is due comes: MissingFile and BadFile of the project file, the manifest, and the files
/// of the catalog; WrongJulia; NeedsFetch; MissingFile and BadFile of the tables of the packages that are reached, among which
/// are those that the manifest selects where no file is named; UnknownPackage; Limit of packages, and then of the states, bits
/// and cells of the instance that stands for the book and the demand. Then Differs with the first clause that is broken; or, of
/// the named file, MissingFile where it isn't there, BadFile with the first line that is none of a log, and Differs with its
/// path where the log doesn't refute the instance. ReadFault comes where the store fails, and want of memory is free.
pub fn check<S: Store>(
    alloc: Global,
    place: &Place,
    proof: &Option<NormPath>,
    store: &mut S,
) -> Result<String, Status>
    ensures answer { IfSome (S.files store.old) (λ all. AnswersBy (spec.IsDue all place.now proof.now) result) }
    ensures late { IfErr result IsLate }
    ensures unprinted { IfErr result IsUnprinted }
    ensures fault { IfErr result (ReadFaultRose (S.read_faults store.old) (S.read_faults store.new)) }
    ensures files { S.files store.new ≡ S.files store.old }
    ensures later { S.read_faults store.old ≤ S.read_faults store.new }
    ensures other { S.write_faults store.new ≡ S.write_faults store.old }
{
    match open_project(alloc, place, true, store) {
        Ok(opened) => of_opened(alloc, place, proof, store, opened),
        Err(status) => Err(status),
    }
}

/// The same by what the project's two files and those of the catalog say.
fn of_opened<S: Store>(
    alloc: Global,
    place: &Place,
    proof: &Option<NormPath>,
    store: &mut S,
    opened: Opened,
) -> Result<String, Status>
    ensures answer { IfSome (S.files store.old) (λ all. AnswersBy (spec.IsAnswerOn all (spec.with_opened all place.now proof.now (seen_opened opened))) result) }
    ensures late { IfErr result IsLate }
    ensures unprinted { IfErr result IsUnprinted }
    ensures fault { IfErr result (ReadFaultRose (S.read_faults store.old) (S.read_faults store.new)) }
    ensures files { S.files store.new ≡ S.files store.old }
    ensures later { S.read_faults store.old ≤ S.read_faults store.new }
    ensures other { S.write_faults store.new ≡ S.write_faults store.old }
{
    match claim_of(alloc, proof, &opened) {
        Ok(claim) => of_claim(alloc, place, store, opened, claim),
        Err(_) => Err(Status::Memory),
    }
}

/// The same by what is claimed.
fn of_claim<S: Store>(
    alloc: Global,
    place: &Place,
    store: &mut S,
    opened: Opened,
    claim: Claim,
) -> Result<String, Status>
    ensures answer { IfSome (S.files store.old) (λ all. AnswersBy (spec.IsAnswerOn all (spec.with_claim all place.now (spec.seen_claim claim) (seen_opened opened))) result) }
    ensures late { IfErr result IsLate }
    ensures unprinted { IfErr result IsUnprinted }
    ensures fault { IfErr result (ReadFaultRose (S.read_faults store.old) (S.read_faults store.new)) }
    ensures files { S.files store.new ≡ S.files store.old }
    ensures later { S.read_faults store.old ≤ S.read_faults store.new }
    ensures other { S.write_faults store.new ≡ S.write_faults store.old }
{
    let Opened {
        catalog,
        project,
        manifest,
    } = opened;
    match edit_project(alloc, Command::Resolve, place, &catalog, project, manifest) {
        Ok(edited) => of_demand(alloc, store, &catalog, &edited.demand, claim),
        Err(status) => Err(status),
    }
}

/// The same by the project's demand.
fn of_demand<S: Store>(
    alloc: Global,
    store: &mut S,
    catalog: &Catalog,
    demand: &Demand,
    claim: Claim,
) -> Result<String, Status>
    ensures answer { IfSome (S.files store.old) (λ all. AnswersBy (spec.IsAnswerOn all (spec.with_demand all catalog.now (spec.seen_claim claim) (wanted demand.now))) result) }
    ensures late { IfErr result IsLate }
    ensures unprinted { IfErr result IsUnprinted }
    ensures fault { IfErr result (ReadFaultRose (S.read_faults store.old) (S.read_faults store.new)) }
    ensures files { S.files store.new ≡ S.files store.old }
    ensures later { S.read_faults store.old ≤ S.read_faults store.new }
    ensures other { S.write_faults store.new ≡ S.write_faults store.old }
{
    match extra_of(alloc, &claim) {
        Ok(extra) => of_extra(alloc, store, catalog, demand, claim, &extra),
        Err(_) => Err(Status::Memory),
    }
}

/// The same by the book that is gathered with these packages beside the roots.
fn of_extra<S: Store>(
    alloc: Global,
    store: &mut S,
    catalog: &Catalog,
    demand: &Demand,
    claim: Claim,
    extra: &Ids,
) -> Result<String, Status>
    requires { extra.now.items ≡ spec.extra_of (spec.seen_claim claim) }
    ensures answer { IfSome (S.files store.old) (λ all. AnswersBy (spec.IsAnswerOn all (spec.with_demand all catalog.now (spec.seen_claim claim) (wanted demand.now))) result) }
    ensures late { IfErr result IsLate }
    ensures unprinted { IfErr result IsUnprinted }
    ensures fault { IfErr result (ReadFaultRose (S.read_faults store.old) (S.read_faults store.new)) }
    ensures files { S.files store.new ≡ S.files store.old }
    ensures later { S.read_faults store.old ≤ S.read_faults store.new }
    ensures other { S.write_faults store.new ≡ S.write_faults store.old }
{
    judged_is_due();
    match gather_book(alloc, store, catalog, demand, extra) {
        Ok(book) => of_gathered(alloc, store, demand, claim, book),
        Err(status) => Err(status),
    }
}

/// The same by a book, which is let go.
fn of_gathered<S: Store>(
    alloc: Global,
    store: &mut S,
    demand: &Demand,
    claim: Claim,
    book: Book,
) -> Result<String, Status>
    ensures answer { IfSome (S.files store.old) (λ all. AnswersBy (spec.IsJudgement all (spec.judged_by book (wanted demand.now) (spec.seen_claim claim))) result) }
    ensures late { IfErr result IsLate }
    ensures unprinted { IfErr result IsUnprinted }
    ensures fault { IfErr result (ReadFaultRose (S.read_faults store.old) (S.read_faults store.new)) }
    ensures files { S.files store.new ≡ S.files store.old }
    ensures later { S.read_faults store.old ≤ S.read_faults store.new }
    ensures other { S.write_faults store.new ≡ S.write_faults store.old }
{
    of_book(alloc, store, demand, claim, &book)
}
