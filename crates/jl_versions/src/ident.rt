//! The identifiers of a version's pre-release and build.

ghost use Rattle.std.specs.Prelude.{◌≡◌, ◌^◌, [], ◌∷◌, ◌++◌, OnOk, OnErr, IfOk, IsTrue, string_bytes, true, None, nat_lt, if◌then◌else◌, Some, length, ◌<◌};
ghost use Rattle.std.specs.List.{list_all};
ghost use Rattle.jl_versions.specs.Words.{is_digit, is_ident_byte, is_word, number_of};
ghost use Rattle.jl_versions.specs.Pieces.{ident_of};

use std::alloc::{AllocError, Global};
use std::marker::Model;

/// A word of a pre-release or a build: one or more ASCII letters, digits or hyphens, and not digits
/// alone, seen as its bytes (Julia's `VersionNumber`). Only reading and copying a version make one.
#[derive(Drop)]
pub struct Word {
    text: String,
}

impl Model for Word {
    ghost use Rattle.std.specs.Prelude.{List, ℕ, IsTrue, string_bytes};
    ghost use Rattle.jl_versions.specs.Words.{is_word};

    ghost Value = { List ℕ };

    ghost view = { λ word. string_bytes word.text };

    ghost invariant = { λ word. IsTrue (is_word (string_bytes word.text)) };
}

impl Word {
    /// The word as a text.
    pub fn as_str(&self) -> &str
        ensures bytes { result.now ≡ self.now }
        ensures word { IsTrue (is_word self.now) }
    {
        self.text.as_str()
    }

    /// An equal word, unless memory runs out.
    pub(crate) fn copy(&self, alloc: Global) -> Result<Word, AllocError>
        ensures { IfOk result (λ word. word ≡ self.now) }
    {
        Ok(Word {
            text: String::from_str(alloc, self.text.as_str())?,
        })
    }
}

/// An identifier: digits alone are a number, anything else is a word.
#[derive(Drop)]
pub enum Ident {
    /// An identifier of digits alone, by its value.
    Number(u64),
    /// Any other identifier, by its bytes.
    Word(Word),
}

impl Ident {
    /// An equal identifier, unless memory runs out.
    pub(crate) fn copy(&self, alloc: Global) -> Result<Ident, AllocError>
        ensures { IfOk result (λ ident. ident ≡ self.now) }
    {
        match self {
            Ident::Number(number) => Ok(Ident::Number(*number)),
            Ident::Word(word) => Ok(Ident::Word(word.copy(alloc)?)),
        }
    }
}

/// A list of identifiers, seen as a list.
#[derive(Drop)]
pub struct Idents {
    inside: Vec<Ident>,
}

impl Model for Idents {
    ghost use Rattle.std.specs.Prelude.{List};
    ghost use Rattle.jl_versions.specs.declared.ident.Ident.{Ident};

    ghost Value = { List Ident };

    ghost view = { λ idents. idents.inside.items };
}

impl Idents {
    /// The empty list, which takes no memory.
    pub fn make(alloc: Global) -> Idents
        ensures { result ≡ [] }
    {
        Idents {
            inside: Vec::new(alloc),
        }
    }

    /// The identifiers in order. Takes no memory.
    pub fn items(&self) -> &[Ident]
        ensures { result.now ≡ self.now }
    {
        self.inside.as_slice()
    }

    /// Appends an identifier; want of memory leaves the list as it was.
    pub fn push(&mut self, item: Ident) -> Result<(), AllocError>
        ensures ok { OnOk result (self.new ≡ self.old ++ item ∷ []) }
        ensures err { OnErr result (self.new ≡ self.old) }
    {
        self.inside.push(item)?;
        Ok(())
    }

    /// An equal list, unless memory runs out.
    pub(crate) fn copy(&self, alloc: Global) -> Result<Idents, AllocError>
        ensures { IfOk result (λ idents. idents ≡ self.now) }
    {
        let mut copy = Idents::make(alloc);
        let items = self.items();
        for ident in items {
            copy.push(ident.copy(alloc)?)?;
        }
        Ok(copy)
    }
}

/// Whether the byte may stand in an identifier: an ASCII letter, a digit or a hyphen.
pub(crate) fn is_label_byte(byte: u8) -> bool
    ensures value { result ≡ is_ident_byte byte }
    ensures ascii { IsTrue result → byte < 128 }
{
    (byte >= b'A' && byte <= b'Z')
        || (byte >= b'a' && byte <= b'z')
        || (byte >= b'0' && byte <= b'9')
        || byte == b'-'
}

/// The bytes of an identifier that is being read: letters, digits and hyphens, perhaps none yet.
#[derive(Drop)]
pub(crate) struct Piece {
    text: String,
}

impl Model for Piece {
    ghost use Rattle.std.specs.Prelude.{List, ℕ, IsTrue, string_bytes};
    ghost use Rattle.std.specs.List.{list_all};
    ghost use Rattle.jl_versions.specs.Words.{is_ident_byte};

    ghost Value = { List ℕ };

    ghost view = { λ piece. string_bytes piece.text };

    ghost invariant = { λ piece. IsTrue (list_all is_ident_byte (string_bytes piece.text)) };
}

impl Piece {
    /// No bytes yet, which takes no memory.
    pub(crate) fn make(alloc: Global) -> Piece
        ensures { result ≡ [] }
    {
        Piece {
            text: String::new(alloc),
        }
    }

    /// Appends a byte of an identifier.
    pub(crate) fn push(&mut self, byte: u8) -> Result<(), AllocError>
        requires byte { is_ident_byte byte ≡ true }
        requires ascii { byte < 128 }
        ensures { OnOk result (self.new ≡ self.old ++ byte ∷ []) }
    {
        self.text.push(char::from(byte))?;
        Ok(())
    }

    /// The identifier that the bytes spell; none where there are no bytes, or only digits that mean
    /// 2^64 or more. Takes no memory.
    #[tactic(auto, unfolding(crate::specs::Pieces::ident_of))]
    pub(crate) fn ident(self) -> Option<Ident>
        ensures { result ≡ ident_of self }
    {
        if self.text.is_empty() {
            return None;
        }
        if all_digits(self.text.as_bytes()) {
            return match digits_number(self.text.as_str()) {
                Some(number) => Some(Ident::Number(number)),
                None => None,
            };
        }
        Some(Ident::Word(Word { text: self.text }))
    }
}

/// Whether all bytes are digits.
fn all_digits(bytes: &[u8]) -> bool
    ensures { result ≡ list_all is_digit bytes.now }
{
    bytes.iter().all(|byte| *byte >= b'0' && *byte <= b'9')
}

/// The number that digits mean, where it is below 2^64.
fn digits_number(digits: &str) -> Option<u64>
    requires some { 0 < length digits.now }
    requires digits { list_all is_digit digits.now ≡ true }
    ensures { result ≡ (if nat_lt (number_of digits.now) (2 ^ 64) then Some (number_of digits.now) else None) }
{
    digits.parse::<u64>().ok()
}
