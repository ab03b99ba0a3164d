//! How a command ends.
ghost use Rattle.std.specs.Prelude.{◌≡◌, ◌++◌, ◌∷◌, [], length, Some, codes, IfOk, string_bytes};
ghost use Rattle.std.specs.Fmt.{decimal};
ghost use Rattle.pkg_world.specs.Path.{path_text};
ghost use Rattle.pkg_world.specs.TreeIds.{tree_text};
ghost use Rattle.command_answers.specs.Lines.{code_of, status_line as line_of, error_line as line_with, cause_text as text_of_cause, uuid_text as text_of_uuid, limit_text as text_of_limit, difference_text as text_of_difference, verdict_text as text_of_verdict, two};

use crate::cause_line::{cause_text, number_text, plain_uuid, two_words};
use crate::verdict_line::verdict_text;
use pkg_world::{Cause, LimitKind, Name, NormPath, Text, TreeId};
use refutation_log::Log;
use selection_check::Verdict;
use std::alloc::{AllocError, Global};
use uuid::Uuid;

/// How a command ended, and whether its error line was told.
#[derive(Debug, Drop)]
pub struct Ended {
    pub status: Status,
    pub told: Told,
}

/// Whether the error line was printed.
#[derive(Debug, Drop)]
pub enum Told {
    /// Whole; also where there was none to print.
    Whole,
    /// The sink of errors failed, and got a prefix of the line.
    Failed,
    /// There was no memory, and the sink of errors got nothing.
    Memory,
}

/// What is not the same.
#[derive(Debug, Drop)]
pub enum Difference {
    /// The clause that what a manifest says breaks.
    Broken(Verdict),
    /// The tree that a stanza names, and that of the installed folder.
    Trees(TreeId, TreeId),
    /// The log of this file, which does not show that no selection exists.
    Log(NormPath),
}

/// The status of a command.
#[derive(Debug, Drop)]
pub enum Status {
    /// The answer is printed.
    Ok,
    /// The words break the rules: the command word, or `-` where there is none.
    BadWords(Text),
    /// A file that the command must have is not there.
    MissingFile(NormPath),
    /// The bytes of this file are refused.
    BadFile(NormPath, Cause),
    /// The source of this dependency is an address, and no stanza of the manifest has fetched it.
    NeedsFetch(Name),
    /// No package has this name here.
    NoIdentity(Name),
    /// The package of this identifier has no entry file.
    NoSource(Option<Uuid>),
    /// No selection exists, as this log shows.
    Unsatisfiable(Log),
    /// The search has more nodes than its budget; these are the first.
    GaveUp(Log),
    /// Reading failed outside at this path.
    ReadFault(NormPath),
    /// Writing failed outside at this path.
    WriteFault(NormPath),
    /// This path was to be replaced, and is a folder or lies below a file.
    Blocked(NormPath),
    /// No registry lists this name.
    UnknownName(Name),
    /// Nothing offers the package of this identifier.
    UnknownPackage(Uuid),
    /// A name that two packages have, with their identifiers, the lesser first.
    AmbiguousName(Uuid, Uuid),
    /// A count passes this limit.
    Limit(LimitKind, u64),
    /// What was compared is not the same.
    Differs(Difference),
    /// The project has no dependency of this name.
    NotInProject(Name),
    /// No stanza of the manifest has this name.
    NotInManifest(Name),
    /// The package of this name is not pinned, and not fixed by the manifest alone.
    NotPinned(Name),
    /// This folder has no project file with a name and an identifier.
    NotAProject(NormPath),
    /// The name is taken by this package, which has no identifier where it is the project's own and that has none.
    NameTaken(Option<Uuid>),
    /// The project's compat on Julia, of this text, does not hold Julia's version.
    WrongJulia(Text),
    /// This version does not have that yet.
    NotBuilt(Text),
    /// There was no memory.
    Memory,
    /// The answer could not be printed.
    SinkFault,
}

impl Status {
    /// The exit code of the program.
    pub fn code(&self) -> u8
        ensures { result ≡ code_of self.now }
    {
        match self {
            Status::Ok => 0,
            Status::BadWords(_) => 2,
            Status::MissingFile(_) => 3,
            Status::BadFile(..) => 3,
            Status::NeedsFetch(_) => 3,
            Status::NoIdentity(_) => 4,
            Status::NoSource(_) => 5,
            Status::Unsatisfiable(_) => 6,
            Status::GaveUp(_) => 7,
            Status::ReadFault(_) => 8,
            Status::WriteFault(_) => 9,
            Status::Blocked(_) => 9,
            Status::UnknownName(_) => 10,
            Status::UnknownPackage(_) => 10,
            Status::AmbiguousName(..) => 11,
            Status::Limit(..) => 12,
            Status::Differs(_) => 13,
            Status::NotInProject(_) => 14,
            Status::NotInManifest(_) => 14,
            Status::NotPinned(_) => 14,
            Status::NotAProject(_) => 14,
            Status::NameTaken(_) => 14,
            Status::WrongJulia(_) => 14,
            Status::Memory => 15,
            Status::SinkFault => 16,
            Status::NotBuilt(_) => 17,
        }
    }
}

impl From<AllocError> for Status {
    ghost use Rattle.command_answers.specs.declared.status.Status.TheVariants.{Memory};

    ghost from_gives = { λ _ status. status ≡ Memory };

    fn from(_none: AllocError) -> Status {
        Status::Memory
    }
}

/// The line of a status that is not Ok, with its newline: `error`, the code and the name of the status, and what it
/// carries. (own rule) The one error is want of memory.
pub fn status_line(alloc: Global, status: &Status) -> Result<String, AllocError>
    ensures { IfOk result (λ line. string_bytes line ≡ line_of status.now) }
{
    match status {
        Status::Ok => Ok(String::new(alloc)),
        Status::BadWords(word) => error_line(alloc, "2 BadWords", word.as_str()),
        Status::MissingFile(path) => error_line(alloc, "3 MissingFile", path.as_str()),
        Status::BadFile(path, cause) => bad_file_line(alloc, path, cause),
        Status::NeedsFetch(name) => error_line(alloc, "3 NeedsFetch", name.as_str()),
        Status::NoIdentity(name) => error_line(alloc, "4 NoIdentity", name.as_str()),
        Status::NoSource(uuid) => identity_line(alloc, "5 NoSource", uuid),
        Status::Unsatisfiable(log) => log_line(alloc, "6 Unsatisfiable", log),
        Status::GaveUp(log) => log_line(alloc, "7 GaveUp", log),
        Status::ReadFault(path) => error_line(alloc, "8 ReadFault", path.as_str()),
        Status::WriteFault(path) => error_line(alloc, "9 WriteFault", path.as_str()),
        Status::Blocked(path) => error_line(alloc, "9 Blocked", path.as_str()),
        Status::UnknownName(name) => error_line(alloc, "10 UnknownName", name.as_str()),
        Status::UnknownPackage(uuid) => unknown_package_line(alloc, uuid),
        Status::AmbiguousName(first, second) => ambiguous_line(alloc, first, second),
        Status::Limit(kind, count) => limit_line(alloc, kind, *count),
        Status::Differs(difference) => differs_line(alloc, difference),
        Status::NotInProject(name) => error_line(alloc, "14 NotInProject", name.as_str()),
        Status::NotInManifest(name) => error_line(alloc, "14 NotInManifest", name.as_str()),
        Status::NotPinned(name) => error_line(alloc, "14 NotPinned", name.as_str()),
        Status::NotAProject(path) => error_line(alloc, "14 NotAProject", path.as_str()),
        Status::NameTaken(uuid) => identity_line(alloc, "14 NameTaken", uuid),
        Status::WrongJulia(text) => error_line(alloc, "14 WrongJulia", text.as_str()),
        Status::NotBuilt(word) => error_line(alloc, "17 NotBuilt", word.as_str()),
        Status::Memory => String::from_str(alloc, "error 15 Memory\n"),
        Status::SinkFault => String::from_str(alloc, "error 16 SinkFault\n"),
    }
}

fn error_line(alloc: Global, head: &str, carried: &str) -> Result<String, AllocError>
    ensures { IfOk result (λ line. string_bytes line ≡ line_with head.now carried.now) }
{
    format!(in alloc; "error {head} {carried}\n")
}

fn bad_file_line(alloc: Global, path: &NormPath, cause: &Cause) -> Result<String, AllocError>
    ensures { IfOk result (λ line. string_bytes line ≡ line_with (codes "3 BadFile") (two (path_text path.now) (text_of_cause cause.now))) }
{
    let cause = cause_text(alloc, cause)?;
    two_carried(alloc, "3 BadFile", path.as_str(), cause.as_str())
}

/// The line of a status that carries two values.
fn two_carried(alloc: Global, head: &str, first: &str, second: &str) -> Result<String, AllocError>
    ensures { IfOk result (λ line. string_bytes line ≡ line_with head.now (two first.now second.now)) }
{
    let carried = two_words(alloc, first, second)?;
    error_line(alloc, head, carried.as_str())
}

/// The line of a log, by how many nodes it has.
fn log_line(alloc: Global, head: &str, log: &Log) -> Result<String, AllocError>
    ensures { IfOk result (λ line. string_bytes line ≡ line_with head.now (decimal (length log.now.items))) }
{
    let count = number_text(alloc, log.items().len() as u64)?;
    error_line(alloc, head, count.as_str())
}

fn unknown_package_line(alloc: Global, uuid: &Uuid) -> Result<String, AllocError>
    ensures { IfOk result (λ line. string_bytes line ≡ line_with (codes "10 UnknownPackage") (text_of_uuid (Some uuid.now))) }
{
    let uuid = plain_uuid(alloc, uuid)?;
    error_line(alloc, "10 UnknownPackage", uuid.as_str())
}

fn ambiguous_line(alloc: Global, first: &Uuid, second: &Uuid) -> Result<String, AllocError>
    ensures { IfOk result (λ line. string_bytes line ≡ line_with (codes "11 AmbiguousName") (two (text_of_uuid (Some first.now)) (text_of_uuid (Some second.now)))) }
{
    let first = plain_uuid(alloc, first)?;
    let second = plain_uuid(alloc, second)?;
    two_carried(alloc, "11 AmbiguousName", first.as_str(), second.as_str())
}

fn limit_line(alloc: Global, kind: &LimitKind, count: u64) -> Result<String, AllocError>
    ensures { IfOk result (λ line. string_bytes line ≡ line_with (codes "12 Limit") (two (text_of_limit kind.now) (decimal count))) }
{
    let count = number_text(alloc, count)?;
    two_carried(alloc, "12 Limit", limit_text(kind), count.as_str())
}

fn limit_text(kind: &LimitKind) -> &'static str
    ensures { result.now ≡ text_of_limit kind.now }
{
    match kind {
        LimitKind::Packages => "Packages",
        LimitKind::States => "States",
        LimitKind::Bits => "Bits",
        LimitKind::Cells => "Cells",
        LimitKind::TreeDepth => "TreeDepth",
        LimitKind::TreeFiles => "TreeFiles",
    }
}

fn differs_line(alloc: Global, difference: &Difference) -> Result<String, AllocError>
    ensures { IfOk result (λ line. string_bytes line ≡ line_with (codes "13 Differs") (text_of_difference difference.now)) }
{
    match difference {
        Difference::Broken(verdict) => broken_line(alloc, verdict),
        Difference::Trees(wanted, found) => trees_line(alloc, wanted, found),
        Difference::Log(path) => error_line(alloc, "13 Differs", path.as_str()),
    }
}

fn broken_line(alloc: Global, verdict: &Verdict) -> Result<String, AllocError>
    ensures { IfOk result (λ line. string_bytes line ≡ line_with (codes "13 Differs") (text_of_verdict verdict.now)) }
{
    let verdict = verdict_text(alloc, verdict)?;
    error_line(alloc, "13 Differs", verdict.as_str())
}

fn trees_line(alloc: Global, wanted: &TreeId, found: &TreeId) -> Result<String, AllocError>
    ensures { IfOk result (λ line. string_bytes line ≡ line_with (codes "13 Differs") (two (tree_text wanted.now) (tree_text found.now))) }
{
    let wanted = wanted.text(alloc)?;
    let found = found.text(alloc)?;
    two_carried(alloc, "13 Differs", wanted.as_str(), found.as_str())
}

/// The line of a status that carries an identifier, nil as `-`.
fn identity_line(alloc: Global, head: &str, uuid: &Option<Uuid>) -> Result<String, AllocError>
    ensures { IfOk result (λ line. string_bytes line ≡ line_with head.now (text_of_uuid uuid.now)) }
{
    let text = uuid_text(alloc, uuid)?;
    error_line(alloc, head, text.as_str())
}

/// An identifier in lower case with hyphens, nil as `-`. The one error is want of memory.
pub fn uuid_text(alloc: Global, uuid: &Option<Uuid>) -> Result<String, AllocError>
    ensures { IfOk result (λ text. string_bytes text ≡ text_of_uuid uuid.now) }
{
    match uuid {
        Some(uuid) => plain_uuid(alloc, uuid),
        None => String::from_str(alloc, "-"),
    }
}
