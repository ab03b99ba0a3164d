//! Absolute paths without `.`, `..` or empty parts.
ghost use Rattle.std.specs.Prelude.{◌≡◌, ◌∷◌, ◌++◌, true, if◌then◌else◌, [], map, IfOk, OnOk, OnErr, string_bytes};
ghost use Rattle.pkg_world.specs.Path.{joined, along, path_text, is_absolute, is_plain, are_plain, folder_of, last_ends_in as last_part_ends_in, GivesPath};
ghost use Rattle.std.specs.Prelude.{◌==◌, not};
ghost use Rattle.std.specs.List.{list_all};
ghost use Rattle.pkg_world.specs.Steps.{StepGives};

use crate::pieces::first_piece;
use crate::text::Duplicate;
use std::alloc::{AllocError, Global};
use std::fmt;
use std::marker::Model;
use thiserror::Error;

/// Why a text is no path.
#[derive(Debug, Drop, Error)]
pub enum PathFault {
    /// A part `..` rises above the root.
    #[error("the path rises above the root")]
    Escapes,
    #[error("no memory")]
    Memory,
}

impl From<AllocError> for PathFault {
    ghost use Rattle.pkg_world.specs.declared.path.PathFault.TheVariants.{Memory};

    ghost from_gives = { λ _ fault. fault ≡ Memory };

    fn from(_none: AllocError) -> PathFault {
        PathFault::Memory
    }
}

/// A path from the root on, as the list of its parts.
#[derive(Debug, Drop)]
pub struct NormPath {
    parts: Vec<String>,
    text: String,
}

impl Model for NormPath {
    ghost use Rattle.std.specs.Prelude.{◌≡◌, List, ℕ, map, string_bytes};

    ghost Value = { List (List ℕ) };

    ghost use Rattle.std.specs.Prelude.{true};
    ghost use Rattle.pkg_world.specs.Path.{slashed, are_plain};

    ghost view = { λ a. map string_bytes a.parts.items };

    ghost invariant = { λ a. (string_bytes a.text ≡ slashed (map string_bytes a.parts.items)) × (are_plain (map string_bytes a.parts.items) ≡ true) };
}

impl NormPath {
    /// The root, `/`.
    pub fn root(alloc: Global) -> Self
        ensures { result ≡ [] }
    {
        Self {
            parts: Vec::new(alloc),
            text: String::new(alloc),
        }
    }

    /// The path as it is printed: each part behind a slash, the root as `/`. No part is empty, `.` or `..`.
    pub fn as_str(&self) -> &str
        ensures text { result.now ≡ path_text self.now }
        ensures plain { are_plain self.now ≡ true }
    {
        if self.parts.is_empty() {
            "/"
        } else {
            self.text.as_str()
        }
    }

    /// The path that a text means from a base: the base's parts, or none where the text begins with `/`,
    /// then the text's parts. Empty parts and `.` are left out, and `..` takes the last part away.
    /// It is refused as Escapes exactly where `..` rises above the root.
    pub fn join(alloc: Global, base: &NormPath, text: &str) -> Result<NormPath, PathFault>
        ensures { GivesPath result (joined base.now text.now) }
    {
        let mut parts = start(alloc, base, text)?;
        let mut rest = text;
        loop {
            match first_piece(rest, '/') {
                Some((piece, more)) => {
                    step(alloc, &mut parts, piece)?;
                    rest = more;
                }
                None => {
                    step(alloc, &mut parts, rest)?;
                    return Ok(from_parts(alloc, parts)?);
                }
            }
        }
    }

    /// The path of a plain part inside this folder. The one error is want of memory.
    pub fn child(&self, alloc: Global, part: &str) -> Result<NormPath, AllocError>
        requires { is_plain part.now ≡ true }
        ensures { IfOk result (λ path. path ≡ self.now ++ part.now ∷ []) }
    {
        let mut parts = copy_parts(alloc, &self.parts)?;
        push_part(alloc, &mut parts, part)?;
        from_parts(alloc, parts)
    }

    /// The folder that holds what this path names; the root for the root. The one error is want of memory.
    pub fn folder(&self, alloc: Global) -> Result<NormPath, AllocError>
        ensures { IfOk result (λ path. path ≡ folder_of self.now) }
    {
        let mut parts = copy_parts(alloc, &self.parts)?;
        let _ = parts.pop();
        from_parts(alloc, parts)
    }

    /// Whether the last part ends in that text; the root has no part.
    pub fn last_ends_in(&self, suffix: &str) -> bool
        ensures { result ≡ last_part_ends_in self.now suffix.now }
    {
        match self.parts.last() {
            Some(part) => part.as_bytes().ends_with(suffix.as_bytes()),
            None => false,
        }
    }

    /// The parts, from the root on.
    pub(crate) fn parts(&self) -> &[String]
        ensures { map string_bytes result.now ≡ self.now }
    {
        self.parts.as_slice()
    }
}

impl Duplicate for NormPath {
    fn copy(&self, alloc: Global) -> Result<Self, AllocError> {
        from_parts(alloc, copy_parts(alloc, &self.parts)?)
    }
}

impl fmt::Display for NormPath {
    fn fmt<W: fmt::Write>(&self, f: &mut fmt::Formatter<W>) -> fmt::Result {
        f.write_str(self.as_str())
    }
}

fn copy_parts(alloc: Global, parts: &Vec<String>) -> Result<Vec<String>, AllocError>
    ensures { IfOk result (λ made. map string_bytes made.items ≡ map string_bytes parts.now.items) }
{
    let mut made = Vec::new(alloc);
    for part in parts.iter() {
        made.push(part.clone()?)?;
    }
    Ok(made)
}

fn start(alloc: Global, base: &NormPath, text: &str) -> Result<Vec<String>, AllocError>
    ensures parts { IfOk result (λ parts. map string_bytes parts.items ≡ (if is_absolute text.now then [] else base.now)) }
    ensures plain { IfOk result (λ parts. are_plain (map string_bytes parts.items) ≡ true) }
{
    if text.as_bytes().first() == Some(&b'/') {
        Ok(Vec::new(alloc))
    } else {
        copy_parts(alloc, &base.parts)
    }
}

/// Goes along one piece between slashes.
fn step(alloc: Global, parts: &mut Vec<String>, piece: &str) -> Result<(), PathFault>
    requires no_slash { list_all (λ b. not (b == 47)) piece.now ≡ true }
    requires plain { are_plain (map string_bytes parts.old.items) ≡ true }
    ensures moved { StepGives parts.old.items parts.new.items piece.now result }
    ensures plain { are_plain (map string_bytes parts.new.items) ≡ true }
{
    if piece.is_empty() || piece == "." {
        return Ok(());
    }
    if piece == ".." {
        return match parts.pop() {
            Some(_) => Ok(()),
            None => Err(PathFault::Escapes),
        };
    }
    push_part(alloc, parts, piece)?;
    Ok(())
}

fn push_part(alloc: Global, parts: &mut Vec<String>, piece: &str) -> Result<(), AllocError>
    ensures ok { OnOk result (map string_bytes parts.new.items ≡ map string_bytes parts.old.items ++ piece.now ∷ []) }
    ensures err { OnErr result (parts.new.items ≡ parts.old.items) }
{
    parts.push(String::from_str(alloc, piece)?)?;
    Ok(())
}

/// The path of these parts.
fn from_parts(alloc: Global, parts: Vec<String>) -> Result<NormPath, AllocError>
    requires { are_plain (map string_bytes parts.items) ≡ true }
    ensures { IfOk result (λ path. path ≡ map string_bytes parts.items) }
{
    let mut text = String::new(alloc);
    for part in parts.iter() {
        text.push('/')?;
        text.push_str(part.as_str())?;
    }
    Ok(NormPath { parts, text })
}
