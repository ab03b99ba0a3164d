//! The reader of versions.
ghost use Rattle.std.specs.Prelude.{◌≡◌, IfOk, IfErr, Ok};
ghost use Rattle.toml_view.specs.Reading.{version_at, or_version};
ghost use Rattle.toml_view.specs.Answers.{Refuses};
ghost use Rattle.jl_versions.specs.Meant.{version_meant};

use crate::reader::{Reader, other_shape};
use crate::refusal::{Flaw, Refusal, Stop};
use jl_versions::{Version, VersionFault};
use std::alloc::Global;
use toml::Value;

/// Reads the text of a version (Julia manual, Version Number Literals).
#[derive(Clone, Copy, Debug, Drop)]
pub struct VersionReader;

impl Reader for VersionReader {
    type Out = Version;

    ghost gives = { λ _ value. version_at value };

    fn read(&self, alloc: Global, value: &Value) -> Result<Version, Stop> {
        match value.as_str() {
            Some(text) => version_of(alloc, text),
            None => Err(other_shape()),
        }
    }
}

/// The version that a text means. The refusal has the text's first bad place.
fn version_of(alloc: Global, text: &str) -> Result<Version, Stop>
    ensures ok { IfOk result (λ v. or_version (version_meant text.now) ≡ Ok v) }
    ensures err { IfErr result (λ stop. Refuses stop (or_version (version_meant text.now))) }
{
    match Version::read(alloc, text) {
        Ok(version) => Ok(version),
        Err(VersionFault::BadVersion(place)) => Err(Stop::Refused(Refusal {
            path: None,
            flaw: Flaw::Version(place),
        })),
        Err(VersionFault::Memory) => Err(Stop::Memory),
    }
}
