//! The text of a version.

ghost use Rattle.std.specs.Prelude.{◌≡◌, ◌<◌, ◌^◌, ◌++◌, OnOk, IfOk, IsTrue, string_bytes};
ghost use Rattle.std.specs.List.{list_all};
ghost use Rattle.std.specs.Fmt.{decimal};
ghost use Rattle.jl_versions.specs.Printing.{ident_text, label_text, numbers_text, printed, is_label};
ghost use Rattle.jl_versions.specs.Grammar.{Reads};

use crate::ident::{Ident, Idents};
use crate::version::Version;
use std::alloc::{AllocError, Global};
use std::marker::Model;

/// The printed text of a version, seen as its bytes.
#[derive(Drop)]
pub struct VersionText {
    text: String,
}

impl Model for VersionText {
    ghost use Rattle.std.specs.Prelude.{List, ℕ, string_bytes};

    ghost Value = { List ℕ };

    ghost view = { λ printed. string_bytes printed.text };
}

impl VersionText {
    /// The text. Takes no memory.
    pub fn as_str(&self) -> &str
        ensures { result.now ≡ self.now }
    {
        self.text.as_str()
    }
}

/// Appends a number without leading zeros.
fn push_number(text: &mut String, number: u64) -> Result<(), AllocError>
    ensures ok { OnOk result (string_bytes text.new ≡ string_bytes text.old ++ decimal number) }
    ensures small { number < 2 ^ 64 }
{
    write!(text, "{number}")
}

/// Appends an identifier: a number without leading zeros, a word as it is.
fn push_ident(text: &mut String, ident: &Ident) -> Result<(), AllocError>
    ensures ok { OnOk result (string_bytes text.new ≡ string_bytes text.old ++ ident_text ident.now) }
    ensures label { IsTrue (is_label ident.now) }
{
    match ident {
        Ident::Number(number) => push_number(text, *number),
        Ident::Word(word) => text.push_str(word.as_str()),
    }
}

/// Appends the identifiers, the first behind the sign and each other one behind a dot.
fn push_label(text: &mut String, sign: char, idents: &Idents) -> Result<(), AllocError>
    requires { sign < 128 }
    ensures ok { OnOk result (string_bytes text.new ≡ string_bytes text.old ++ label_text sign idents.now) }
    ensures labels { OnOk result (IsTrue (list_all is_label idents.now)) }
{
    let mut mark = sign;
    let items = idents.items();
    for ident in items {
        text.push(mark)?;
        push_ident(text, ident)?;
        mark = '.';
    }
    Ok(())
}

impl Version {
    /// The text of the version: the three numbers, `-` and the pre-release if there is one, `+` and
    /// the build if there is one, without leading zeros. Reading it again gives the version. Want of memory is the only refusal.
    pub fn print(&self, alloc: Global) -> Result<VersionText, AllocError>
        ensures text { IfOk result (λ text. text ≡ printed self.now) }
        ensures reads { IfOk result (λ text. Reads text self.now) }
    {
        let mut text = self.print_numbers(alloc)?;
        push_label(&mut text, '-', &self.pre)?;
        push_label(&mut text, '+', &self.build)?;
        Ok(VersionText { text })
    }

    /// The three numbers, joined by dots.
    fn print_numbers(&self, alloc: Global) -> Result<String, AllocError>
        ensures text { IfOk result (λ text. string_bytes text ≡ numbers_text self.now) }
        ensures major { self.now.major < 2 ^ 32 }
        ensures minor { self.now.minor < 2 ^ 32 }
        ensures patch { self.now.patch < 2 ^ 32 }
    {
        let major = self.major;
        let minor = self.minor;
        let patch = self.patch;
        format!(in alloc; "{major}.{minor}.{patch}")
    }
}
