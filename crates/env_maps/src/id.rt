//! Identities of packages, and from where an import is asked.
ghost use Rattle.std.specs.Prelude.{◌≡◌, Some};
ghost use Rattle.env_maps.specs.Contexts.{same_uuid};

use pkg_world::{Duplicate, Name};
use std::alloc::{AllocError, Global};
use uuid::Uuid;

/// The identity of a package: its name, and its identifier where it has one (Julia manual, Code Loading).
#[derive(Debug, Drop)]
pub struct Id {
    pub uuid: Option<Uuid>,
    pub name: Name,
}

impl Duplicate for Id {
    fn copy(&self, alloc: Global) -> Result<Id, AllocError> {
        Ok(Id {
            uuid: self.uuid,
            name: self.name.copy(alloc)?,
        })
    }
}

/// From where an import is asked.
#[derive(Debug, Drop)]
pub enum Context {
    /// From the top level, as in the REPL or a script.
    Top,
    /// From inside a package.
    Package(Id),
    /// From inside an extension: the identifier and the name of the package that it extends, and its own name.
    Extension(Uuid, Name, Name),
}

/// What an environment's graph says of a name from a context (Julia manual, Code Loading).
#[derive(Debug, Drop)]
pub enum DepAnswer {
    /// The environment hasn't the context.
    NotMine,
    /// The context has no dependency of that name.
    NoName,
    /// The identity of that dependency.
    Found(Id),
}

/// Whether the identifier is given.
pub(crate) fn is_uuid(given: &Option<Uuid>, uuid: &Uuid) -> bool
    ensures { result ≡ same_uuid (Some uuid.now) given.now }
{
    match given {
        Some(given) => *uuid == *given,
        None => false,
    }
}
