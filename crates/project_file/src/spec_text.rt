//! A compatibility text with its specifier.
ghost use Rattle.std.specs.Prelude.{◌≡◌, Ok, MatchResult, IfOk, IfErr};
ghost use Rattle.compat_spec.specs.Meant.{specifier_meant, RefusesAt};
ghost use Rattle.project_file.specs.Spelled.{spelled, spec_of};
ghost use Rattle.toml_view.specs.Answers.{Refuses};

use compat_spec::{Spec, SpecFault};
use pkg_world::{Duplicate, Text};
use std::alloc::{AllocError, Global};
use std::marker::Model;
use toml_view::{Flaw, Reader, Refusal, Stop, Value, other_shape};

/// A compatibility text as it stands in a file, with the specifier that it means (Pkg, Compatibility).
#[derive(Drop)]
pub struct SpecText {
    text: Text,
    spec: Spec,
}

impl Model for SpecText {
    ghost use Rattle.std.specs.Prelude.{◌≡◌, Ok};
    ghost use Rattle.compat_spec.specs.Meant.{specifier_meant};
    ghost use Rattle.project_file.specs.Spelled.{Spelled};

    ghost Value = { Spelled };

    ghost view = { λ a. record { text = a.text; parts = a.spec } };

    ghost invariant = { λ a. specifier_meant a.text ≡ Ok a.spec };
}

impl SpecText {
    /// The text with the specifier that it means. BadSpec comes exactly where it is none, with its first bad place.
    /// Memory comes where memory ran out.
    pub fn read(alloc: Global, text: &str) -> Result<SpecText, SpecFault>
        ensures { MatchResult result (λ it. spelled text.now ≡ Ok it) (RefusesAt (specifier_meant text.now)) }
    {
        let spec = Spec::read(alloc, text)?;
        let text = Text::of(alloc, text)?;
        Ok(SpecText { text, spec })
    }

    /// The text, unchanged. Takes no memory.
    pub fn text(&self) -> &str
        ensures text { result.now ≡ self.now.text }
        ensures meant { specifier_meant self.now.text ≡ Ok self.now.parts }
    {
        self.text.as_str()
    }

    /// The specifier. Takes no memory.
    pub fn spec(&self) -> &Spec
        ensures { result.now ≡ self.now.parts }
    {
        &self.spec
    }
}

impl Duplicate for SpecText {
    fn copy(&self, alloc: Global) -> Result<SpecText, AllocError> {
        let spec = self.spec.copy(alloc)?;
        let text = self.text.copy(alloc)?;
        Ok(SpecText { text, spec })
    }
}

/// Reads a text as a specifier.
#[derive(Clone, Copy, Debug, Drop)]
pub(crate) struct SpecReader;

impl Reader for SpecReader {
    type Out = SpecText;

    ghost gives = { λ _ value. spec_of value };

    fn read(&self, alloc: Global, value: &Value) -> Result<SpecText, Stop> {
        match value.as_str() {
            Some(text) => spelled_text(alloc, text),
            None => Err(other_shape()),
        }
    }
}

/// The text with its specifier, or the text's first bad place.
fn spelled_text(alloc: Global, text: &str) -> Result<SpecText, Stop>
    ensures ok { IfOk result (λ it. spelled text.now ≡ Ok it) }
    ensures err { IfErr result (λ stop. Refuses stop (spelled text.now)) }
{
    match SpecText::read(alloc, text) {
        Ok(found) => Ok(found),
        Err(SpecFault::BadSpec(place)) => Err(Stop::Refused(Refusal {
            path: None,
            flaw: Flaw::Spec(place),
        })),
        Err(SpecFault::Memory) => Err(Stop::Memory),
    }
}
