//! The verdict on what is claimed, over the book.
ghost use Rattle.std.specs.Prelude.{◌≡◌, ◌≢◌, ◌≤◌, ◌<◌, ℕ, length, Some, IfSome, IfOk, IfErr, OnOk, MatchOption, string_bytes};
ghost use Rattle.offer_terms.specs.Booked.{book_offers, package_at};
ghost use Rattle.offer_terms.specs.Demanded.{wanted};
ghost use Rattle.offer_terms.specs.Feasible.{IsValid};
ghost use Rattle.book_graph.specs.Limits.{Fits};
ghost use Rattle.command_answers.specs.Answers.{NoFault, ReadFaultRose, IsLate, IsUnprinted};
ghost use Rattle.selection_check.specs.Raises.{HasFewOffers};
ghost use Rattle.selection_check.specs.Scratch.{IsScratchFor};
ghost use Rattle.selection_check.specs.Verdicts.{IsFirstBreach};
ghost use Rattle.check_command.specs.CheckDue as spec;
ghost use Rattle.log_check.specs.Answered.{AnswersBy};
ghost use Rattle.check_command.specs.Lines.{good_text};

use crate::claim::Claim;
use crate::lines::{good_line, raise_lines};
use command_answers::{Difference, Status};
use log_check::{limit_status, log_verdict, within_limits};
use offer_book::{Book, Demand, Selection};
use pkg_world::Store;
use selection_check::{Scratch, Verdict, check, raisable, valid_breaks_none};
use std::alloc::{AllocError, Global};

/// The answer on a claim by what a book offers, where the instance of the book and the demand passes no limit.
pub(crate) fn of_book<S: Store>(
    alloc: Global,
    store: &mut S,
    demand: &Demand,
    claim: Claim,
    book: &Book,
) -> Result<String, Status>
    ensures answer { IfSome (S.files store.old) (λ all. AnswersBy (spec.IsJudgement all (spec.judged_by book.now (wanted demand.now) (spec.seen_claim claim))) result) }
    ensures late { IfErr result IsLate }
    ensures unprinted { IfErr result IsUnprinted }
    ensures fault { IfErr result (ReadFaultRose (S.read_faults store.old) (S.read_faults store.new)) }
    ensures files { S.files store.new ≡ S.files store.old }
    ensures later { S.read_faults store.old ≤ S.read_faults store.new }
    ensures other { S.write_faults store.new ≡ S.write_faults store.old }
{
    match within_limits(alloc, book, demand) {
        Ok(()) => of_claim(alloc, store, demand, claim, book),
        Err(fault) => Err(limit_status(fault)),
    }
}

fn of_claim<S: Store>(
    alloc: Global,
    store: &mut S,
    demand: &Demand,
    claim: Claim,
    book: &Book,
) -> Result<String, Status>
    requires fits { Fits book.now (wanted demand.now) }
    ensures answer { IfSome (S.files store.old) (λ all. AnswersBy (spec.IsJudgement all (spec.judged_by book.now (wanted demand.now) (spec.seen_claim claim))) result) }
    ensures late { IfErr result IsLate }
    ensures unprinted { IfErr result IsUnprinted }
    ensures fault { IfErr result (ReadFaultRose (S.read_faults store.old) (S.read_faults store.new)) }
    ensures files { S.files store.new ≡ S.files store.old }
    ensures later { S.read_faults store.old ≤ S.read_faults store.new }
    ensures other { S.write_faults store.new ≡ S.write_faults store.old }
{
    match claim {
        Claim::Valid(selection) => judged(alloc, demand, &selection, book),
        Claim::Refuted(path) => log_verdict(alloc, store, demand, path, book),
    }
}

/// The answer on a selection by what a book offers.
fn judged(
    alloc: Global,
    demand: &Demand,
    selection: &Selection,
    book: &Book,
) -> Result<String, Status>
    requires fits { Fits book.now (wanted demand.now) }
    ensures answer { AnswersBy (spec.IsSelectionJudged (spec.judged_by book.now (wanted demand.now) (spec.claims_valid selection.now.items)) selection.now.items) result }
    ensures late { IfErr result IsLate }
    ensures unprinted { IfErr result IsUnprinted }
    ensures fault { IfErr result NoFault }
{
    match Scratch::make(alloc, book) {
        Ok(mut scratch) => with_scratch(alloc, demand, selection, book, &mut scratch),
        Err(_) => Err(Status::Memory),
    }
}

fn with_scratch(
    alloc: Global,
    demand: &Demand,
    selection: &Selection,
    book: &Book,
    scratch: &mut Scratch,
) -> Result<String, Status>
    requires fits { Fits book.now (wanted demand.now) }
    requires made { IsScratchFor book.now scratch.old }
    ensures answer { AnswersBy (spec.IsSelectionJudged (spec.judged_by book.now (wanted demand.now) (spec.claims_valid selection.now.items)) selection.now.items) result }
    ensures late { IfErr result IsLate }
    ensures unprinted { IfErr result IsUnprinted }
    ensures fault { IfErr result NoFault }
{
    match first_breach(book, demand, selection, scratch) {
        Some(verdict) => Err(Status::Differs(Difference::Broken(verdict))),
        None => match good_lines(alloc, demand, selection, book, scratch) {
            Ok(text) => Ok(text),
            Err(_) => Err(Status::Memory),
        },
    }
}

/// The first clause that the selection breaks, None where it is valid.
fn first_breach(
    book: &Book,
    demand: &Demand,
    selection: &Selection,
    scratch: &mut Scratch,
) -> Option<Verdict>
    requires made { IsScratchFor book.now scratch.old }
    ensures breach { MatchOption result
        (IsValid (book_offers book.now) (wanted demand.now) selection.now.items)
        (λ verdict. spec.IsBreach book.now (wanted demand.now) selection.now.items verdict) }
    ensures made { IsScratchFor book.now scratch.new }
{
    valid_breaks_none();
    match check(book, demand, selection, scratch) {
        Verdict::Good => None,
        Verdict::MissingRoot(uuid) => Some(Verdict::MissingRoot(uuid)),
        Verdict::NoOffer(uuid) => Some(Verdict::NoOffer(uuid)),
        Verdict::MissingDep(uuid, missing) => Some(Verdict::MissingDep(uuid, missing)),
        Verdict::Outside(uuid, outside) => Some(Verdict::Outside(uuid, outside)),
        Verdict::PinBroken(uuid) => Some(Verdict::PinBroken(uuid)),
        Verdict::Unneeded(uuid) => Some(Verdict::Unneeded(uuid)),
    }
}

/// The lines of a valid selection.
fn good_lines(
    alloc: Global,
    demand: &Demand,
    selection: &Selection,
    book: &Book,
    scratch: &mut Scratch,
) -> Result<String, AllocError>
    requires valid { IsValid (book_offers book.now) (wanted demand.now) selection.now.items }
    requires few { HasFewOffers book.now }
    requires made { IsScratchFor book.now scratch.old }
    ensures { IfOk result (λ text. spec.IsGood (spec.judged_by book.now (wanted demand.now) (spec.claims_valid selection.now.items)) selection.now.items (string_bytes text)) }
{
    match raisable(book, demand, selection, scratch) {
        Some((package, place)) => with_raise(alloc, book, package, place),
        None => good_line(alloc),
    }
}

/// The lines with that package and the version of its offer in that place.
fn with_raise(alloc: Global, book: &Book, package: u32, place: u32) -> Result<String, AllocError>
    requires known { «package» < length book.now }
    requires inside { place < length (package_at book.now «package»).offers }
    ensures { IfOk result (λ text. string_bytes text ≡ good_text (spec.raised_to book.now «package» place)) }
{
    let offers = book.offers(package);
    raise_lines(alloc, &book.uuid(package), &offers[place as usize].version)
}
