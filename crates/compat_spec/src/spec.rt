//! Whole specifiers.

ghost use Rattle.std.specs.Prelude.{◌≡◌, IfOk, IfErr, MatchResult, Some, Ok};
ghost use Rattle.jl_versions.specs.Triple.{triple_of};
ghost use Rattle.compat_spec.specs.Meaning.{specifier_holds};
ghost use Rattle.compat_spec.specs.SpecMachine.{Stands};
ghost use Rattle.compat_spec.specs.Specifiers.{specifier_of, IsSpecifier};
ghost use Rattle.compat_spec.specs.Refusals.{Refuses};
ghost use Rattle.compat_spec.specs.Meant.{specifier_meant, RefusesAt};

use crate::fault::SpecFault;
use crate::part::{Part, Stage};
use jl_versions::Version;
use std::alloc::{AllocError, Global};
use std::marker::Model;

/// A compatibility specifier: one or more parts, seen as their list. It holds what one of them holds
/// (Pkg, Compatibility).
#[derive(Drop)]
pub struct Spec {
    parts: Vec<Part>,
}

impl Model for Spec {
    ghost use Rattle.std.specs.Prelude.{List};
    ghost use Rattle.compat_spec.specs.declared.part.Part.{Part};

    ghost Value = { List Part };

    ghost view = { λ spec. spec.parts.items };
}

/// Reading one byte further: the stage after it, or None where no specifier goes on so.
#[tactic(auto, unfolding(crate::specs::SpecMachine::specifier_step))]
fn advance(parts: &mut Vec<Part>, stage: Stage, byte: u8) -> Result<Option<Stage>, AllocError>
    ensures { IfOk result (Stands parts.old.items stage byte parts.new.items) }
{
    if byte == b',' {
        let Some(part) = stage.finish() else {
            return Ok(None);
        };
        parts.push(part)?;
        return Ok(Some(Stage::Before));
    }
    Ok(stage.step(byte))
}

impl Spec {
    /// The specifier that a text is: parts joined by commas, each an operator and numbers, numbers, two
    /// ends with a hyphen, or a star (Pkg, Compatibility; where spaces may stand is an own rule). BadSpec
    /// comes exactly where the text is none, with the length in bytes of its longest prefix that begins
    /// some specifier. Memory comes where memory ran out.
    pub fn read(alloc: Global, text: &str) -> Result<Spec, SpecFault>
        ensures ok { IfOk result (λ spec. specifier_of text.now ≡ Some spec) }
        ensures bad { IfErr result (Refuses IsSpecifier text.now) }
        // The same as a function of the text.
        ensures meant { MatchResult result (λ spec. specifier_meant text.now ≡ Ok spec) (RefusesAt (specifier_meant text.now)) }
    {
        let mut parts = Vec::new(alloc);
        let mut stage = Stage::Before;
        for (place, byte) in text.as_bytes().iter().enumerate() {
            match advance(&mut parts, stage, *byte)? {
                Some(after) => stage = after,
                None => return Err(SpecFault::BadSpec(place as u64)),
            }
        }
        match stage.finish() {
            Some(part) => {
                parts.push(part)?;
                Ok(Spec { parts })
            }
            None => Err(SpecFault::BadSpec(text.len() as u64)),
        }
    }

    /// Whether one of the parts holds the version, by its three numbers. Takes no memory.
    pub fn holds(&self, v: &Version) -> bool
        ensures { result ≡ specifier_holds self.now (triple_of v.now) }
    {
        self.parts.iter().any(|part| part.holds(v))
    }

    /// An equal specifier. Want of memory is the one error.
    pub fn copy(&self, alloc: Global) -> Result<Spec, AllocError>
        ensures { IfOk result (λ spec. spec ≡ self.now) }
    {
        let parts = Vec::from_slice(alloc, self.parts.as_slice())?;
        Ok(Spec { parts })
    }
}
