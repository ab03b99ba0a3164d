//! How a command ends without a catalog or a book.
ghost use Rattle.std.specs.Prelude.{◌≡◌, None};
ghost use Rattle.project_phases.specs.Refusals as spec;

use command_answers::Status;
use offer_book::BookFault;
use pkg_commands::EditFault;
use uuid::Uuid;

/// The status that tells a fault.
pub(crate) fn book_status(fault: BookFault) -> Status
    ensures { result ≡ spec.book_status fault }
{
    match unknown_in(&fault) {
        Some(uuid) => Status::UnknownPackage(uuid),
        None => known_status(fault),
    }
}

/// The package that nothing offers, where a fault tells that.
fn unknown_in(fault: &BookFault) -> Option<Uuid>
    ensures { result ≡ spec.unknown_in fault.now }
{
    match fault {
        BookFault::UnknownPackage(uuid) => Some(*uuid),
        BookFault::ReadFault(_) => None,
        BookFault::MissingFile(_) => None,
        BookFault::BadFile(..) => None,
        BookFault::Limit(..) => None,
        BookFault::Memory => None,
    }
}

/// The status that tells any other fault.
fn known_status(fault: BookFault) -> Status
    requires { spec.unknown_in fault ≡ None }
    ensures { result ≡ spec.book_status fault }
{
    match fault {
        BookFault::ReadFault(path) => Status::ReadFault(path),
        BookFault::MissingFile(path) => Status::MissingFile(path),
        BookFault::BadFile(path, cause) => Status::BadFile(path, cause),
        BookFault::UnknownPackage(_) => unreachable!(),
        BookFault::Limit(kind, count) => Status::Limit(kind, count),
        BookFault::Memory => Status::Memory,
    }
}

/// The status that tells why an edit is refused.
pub(crate) fn edit_status(fault: EditFault) -> Status
    ensures { result ≡ spec.edit_status fault }
{
    match identity_status(&fault) {
        Some(status) => status,
        None => named_status(fault),
    }
}

/// The same of a fault that tells identifiers.
fn identity_status(fault: &EditFault) -> Option<Status>
    ensures { result ≡ spec.identity_status fault.now }
{
    match fault {
        EditFault::NameTaken(uuid) => Some(Status::NameTaken(*uuid)),
        EditFault::UnknownPackage(uuid) => Some(Status::UnknownPackage(*uuid)),
        EditFault::AmbiguousName(least, next) => Some(Status::AmbiguousName(*least, *next)),
        EditFault::UnknownName(_) => None,
        EditFault::NotInProject(_) => None,
        EditFault::NotInManifest(_) => None,
        EditFault::NotPinned(_) => None,
        EditFault::WrongJulia(_) => None,
        EditFault::NeedsFetch(_) => None,
        EditFault::Memory => None,
    }
}

/// The same of any other fault.
fn named_status(fault: EditFault) -> Status
    requires { spec.identity_status fault ≡ None }
    ensures { result ≡ spec.edit_status fault }
{
    match fault {
        EditFault::NameTaken(_) => unreachable!(),
        EditFault::UnknownPackage(_) => unreachable!(),
        EditFault::AmbiguousName(..) => unreachable!(),
        EditFault::UnknownName(name) => Status::UnknownName(name),
        EditFault::NotInProject(name) => Status::NotInProject(name),
        EditFault::NotInManifest(name) => Status::NotInManifest(name),
        EditFault::NotPinned(name) => Status::NotPinned(name),
        EditFault::WrongJulia(text) => Status::WrongJulia(text),
        EditFault::NeedsFetch(name) => Status::NeedsFetch(name),
        EditFault::Memory => Status::Memory,
    }
}
