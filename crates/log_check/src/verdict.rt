//! The verdict on the log of a file, over the book.
ghost use Rattle.std.specs.Prelude.{◌≡◌, ◌≤◌, true, Some, IfSome, IfOk, IfErr, MatchBool, option_map, string_bytes};
ghost use Rattle.pkg_world.specs.Tree.{holds, file_bytes};
ghost use Rattle.offer_terms.specs.Booked.{book_offers};
ghost use Rattle.offer_terms.specs.Demanded.{wanted};
ghost use Rattle.book_graph.specs.Limits.{Fits, IsPast};
ghost use Rattle.resolve_core.specs.Laws.{NoneFeasible};
ghost use Rattle.command_answers.specs.Answers.{NoFault, ReadFaultRose, IsLate, IsUnprinted};
ghost use Rattle.log_check.specs.Answered.{AnswersBy};
ghost use Rattle.log_check.specs.LogDue as spec;

use crate::limits::limit_status;
use alike_refutations::refuted_alike;
use command_answers::{Difference, Status};
use log_text::{LogFault, read_log};
use offer_terms::{Book, Demand};
use pkg_world::{Bytes, Cause, NormPath, Store, Unread, file_at};
use refutation_log::Log;
use resolve_core::{VerifyFault, verify_log};
use std::alloc::{AllocError, Global};

/// The answer of `check --proof FILE` by a book and a demand whose instance passes no limit: the line `refuted` where the file
/// tells a log that refutes the instance. Then no selection is feasible over what the book offers, whoever made the log. (own rule)
///
/// Refusals, of which the first that is due comes: MissingFile where no file is there, a folder in its place being none; BadFile
/// with the first line that is none of a log; Differs with the path where the log refutes nothing. ReadFault comes where the
/// store fails, and want of memory is free.
pub fn log_verdict<S: Store>(
    alloc: Global,
    store: &mut S,
    demand: &Demand,
    path: NormPath,
    book: &Book,
) -> Result<String, Status>
    requires fits { Fits book.now (wanted demand.now) }
    ensures answer { IfSome (S.files store.old) (λ all. AnswersBy (spec.IsLogJudged (book_offers book.now) (wanted demand.now) book.now path (file_bytes (holds path all))) result) }
    ensures late { IfErr result IsLate }
    ensures unprinted { IfErr result IsUnprinted }
    ensures fault { IfErr result (ReadFaultRose (S.read_faults store.old) (S.read_faults store.new)) }
    ensures files { S.files store.new ≡ S.files store.old }
    ensures later { S.read_faults store.old ≤ S.read_faults store.new }
    ensures other { S.write_faults store.new ≡ S.write_faults store.old }
{
    match file_at(alloc, store, &path) {
        Ok(found) => of_file(alloc, demand, path, book, found),
        Err(Unread::Failed(path)) => Err(Status::ReadFault(path)),
        Err(Unread::Memory) => Err(Status::Memory),
    }
}

/// The same by what the file holds, which may not be there.
fn of_file(
    alloc: Global,
    demand: &Demand,
    path: NormPath,
    book: &Book,
    found: Option<Bytes>,
) -> Result<String, Status>
    requires fits { Fits book.now (wanted demand.now) }
    ensures answer { AnswersBy (spec.IsLogJudged (book_offers book.now) (wanted demand.now) book.now path (option_map (λ b. b.items) found)) result }
    ensures late { IfErr result IsLate }
    ensures unprinted { IfErr result IsUnprinted }
    ensures fault { IfErr result NoFault }
{
    match found {
        Some(bytes) => of_text(alloc, demand, path, book, bytes.items()),
        None => Err(Status::MissingFile(path)),
    }
}

/// The same by the text of the file.
fn of_text(
    alloc: Global,
    demand: &Demand,
    path: NormPath,
    book: &Book,
    text: &[u8],
) -> Result<String, Status>
    requires fits { Fits book.now (wanted demand.now) }
    ensures answer { AnswersBy (spec.IsLogJudged (book_offers book.now) (wanted demand.now) book.now path (Some text.now)) result }
    ensures late { IfErr result IsLate }
    ensures unprinted { IfErr result IsUnprinted }
    ensures fault { IfErr result NoFault }
{
    match read_log(alloc, text) {
        Ok(log) => of_nodes(alloc, demand, path, book, &log),
        Err(LogFault::BadLog(line)) => Err(Status::BadFile(path, Cause::BadLog(line))),
        Err(LogFault::Memory) => Err(Status::Memory),
    }
}

/// The same by the log that was read.
fn of_nodes(
    alloc: Global,
    demand: &Demand,
    path: NormPath,
    book: &Book,
    log: &Log,
) -> Result<String, Status>
    requires fits { Fits book.now (wanted demand.now) }
    ensures answer { AnswersBy (spec.AreNodesJudged (book_offers book.now) (wanted demand.now) book.now path log.now.items) result }
    ensures late { IfErr result IsLate }
    ensures unprinted { IfErr result IsUnprinted }
    ensures fault { IfErr result NoFault }
{
    match is_certificate(alloc, demand, book, log) {
        Ok(true) => match refuted_line(alloc) {
            Ok(line) => Ok(line),
            Err(_) => Err(Status::Memory),
        },
        Ok(false) => Err(Status::Differs(Difference::Log(path))),
        Err(fault) => Err(limit_status(fault)),
    }
}

/// `refuted`. The one error is want of memory.
fn refuted_line(alloc: Global) -> Result<String, AllocError>
    ensures { IfOk result (λ text. string_bytes text ≡ spec.refuted_line) }
{
    String::from_str(alloc, "refuted\n")
}

/// Whether the log refutes the instance of the book and the demand, so that no selection is feasible. Refused where the instance
/// passes a limit, and for want of memory.
fn is_certificate(
    alloc: Global,
    demand: &Demand,
    book: &Book,
    log: &Log,
) -> Result<bool, VerifyFault>
    ensures verdict { IfOk result (λ is. MatchBool is
        (spec.Certifies book.now (wanted demand.now) log.now.items)
        (spec.Certifies book.now (wanted demand.now) log.now.items → ⊥)) }
    ensures none { IfOk result (λ is. is ≡ true → NoneFeasible book.now (wanted demand.now)) }
    ensures past { IfErr result (IsPast book.now (wanted demand.now)) }
{
    refuted_alike();
    verify_log(alloc, book, demand, log)
}
