//! The identifiers of Git's trees.
ghost use Rattle.std.specs.Prelude.{◌≡◌, Some, IfOk};
ghost use Rattle.pkg_world.specs.TreeIds.{tree_of, tree_text};

use crate::text::{Duplicate, Text};
use hex::FromHex;
use std::alloc::{AllocError, Global};
use std::marker::Model;

/// The identifier of a tree: the 20 bytes of a SHA-1 (Git's object format).
#[derive(Clone, Copy, Debug, PartialEq, Eq)]
pub struct TreeId {
    bytes: [u8; 20],
}

impl Model for TreeId {
    ghost use Rattle.std.specs.Prelude.{List, ℕ};

    ghost Value = { List ℕ };

    ghost view = { λ a. a.bytes };

    ghost inverse = { λ bytes. record { bytes = bytes } };
}

impl TreeId {
    /// The identifier with these bytes. It takes no memory.
    pub fn of(bytes: [u8; 20]) -> Self
        ensures { result ≡ bytes }
    {
        Self { bytes }
    }

    /// The bytes. It takes no memory.
    pub fn bytes(&self) -> &[u8; 20]
        ensures { result.now ≡ self.now }
    {
        &self.bytes
    }

    /// The identifier that a text spells: Some exactly where the text is 40 hexadecimal digits, in either case. It takes
    /// no memory.
    pub fn read(text: &str) -> Option<Self>
        ensures { result ≡ tree_of text.now }
    {
        match <[u8; 20] as FromHex>::from_hex(text) {
            Ok(bytes) => Some(Self { bytes }),
            Err(_) => None,
        }
    }

    /// The 40 hexadecimal digits, in lower case. It takes no memory.
    pub fn print(&self) -> [u8; 40]
        ensures digits { result ≡ tree_text self.now }
        ensures reads { tree_of result ≡ Some self.now }
    {
        digits_of(&self.bytes)
    }

    /// The 40 hexadecimal digits as a text. The one error is want of memory.
    pub fn text(&self, alloc: Global) -> Result<Text, AllocError>
        ensures { IfOk result (λ text. text ≡ tree_text self.now) }
    {
        let digits = hex::encode(alloc, self.bytes)?;
        Text::of(alloc, digits.as_str())
    }
}

/// The hexadecimal digits of 20 bytes.
fn digits_of(bytes: &[u8; 20]) -> [u8; 40]
    ensures digits { result ≡ tree_text bytes.now }
    ensures reads { tree_of result ≡ Some bytes.now }
{
    let mut digits = [0; 40];
    match hex::encode_to_slice(*bytes, &mut digits) {
        Ok(()) => digits,
        Err(_) => unreachable!(),
    }
}

impl Duplicate for TreeId {
    fn copy(&self, _alloc: Global) -> Result<Self, AllocError> {
        Ok(*self)
    }
}
