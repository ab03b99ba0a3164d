//! A list that contracts see as its values alone, with no spare room.
ghost use Rattle.std.specs.Prelude.{◌≡◌, [], IfOk};

use crate::list::Listed;
use crate::named::Named;
use crate::text::{Duplicate, Name};
use std::alloc::{AllocError, Global};
use std::marker::Model;

/// The values of a list, in order.
#[derive(Debug, Drop)]
pub struct Values<T> {
    inside: Listed<T>,
}

impl<T> Model for Values<T> {
    ghost use Rattle.std.specs.Prelude.{List};

    ghost Value = { List T };

    ghost view = { λ a. a.inside.items };
}

impl<T: Drop> Values<T> {
    /// No values.
    pub fn make(alloc: Global) -> Self
        ensures { result ≡ [] }
    {
        Self {
            inside: Listed::make(alloc),
        }
    }

    /// The values of that list.
    pub fn of(list: Listed<T>) -> Self
        ensures { result ≡ list.items }
    {
        Self { inside: list }
    }

    /// The values, in order.
    pub fn items(&self) -> &[T]
        ensures { result.now ≡ self.now }
    {
        self.inside.items()
    }

    /// The list of the values.
    pub fn into_list(self) -> Listed<T>
        ensures { result.items ≡ self }
    {
        let Self { inside } = self;
        inside
    }
}

impl<T: Duplicate + Drop> Duplicate for Values<T> {
    fn copy(&self, alloc: Global) -> Result<Self, AllocError> {
        Ok(Self {
            inside: self.inside.copy(alloc)?,
        })
    }
}

/// Extensions, each with the names of its triggers.
pub type ExtList = Named<Values<Name>>;
