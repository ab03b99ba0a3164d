//! Comparing a version with numbers that may leave some of its numbers open.

ghost use Rattle.std.specs.Prelude.{◌≡◌};
ghost use Rattle.jl_versions.specs.Triple.{triple_of};
ghost use Rattle.compat_spec.specs.Meaning.{given, raised, last_raised, tilde_raised, padded, cut_below, cut_above, is_within};

use crate::numbers::Numbers;
use jl_versions::Version;

impl Numbers {
    /// Whether the version, cut to as many numbers as these, is below them.
    pub(crate) fn is_above(self, v: &Version) -> bool
        ensures { result ≡ cut_below (triple_of v.now) (given self) }
    {
        match self {
            Numbers::Major(major) => v.major < major,
            Numbers::Minor(major, minor) => {
                v.major < major || v.major == major && v.minor < minor
            }
            Numbers::Patch(major, minor, patch) => {
                v.major < major
                    || v.major == major && (v.minor < minor || v.minor == minor && v.patch < patch)
            }
        }
    }

    /// Whether the version, cut to as many numbers as these, is above them.
    pub(crate) fn is_below(self, v: &Version) -> bool
        ensures { result ≡ cut_above (triple_of v.now) (given self) }
    {
        match self {
            Numbers::Major(major) => major < v.major,
            Numbers::Minor(major, minor) => {
                major < v.major || major == v.major && minor < v.minor
            }
            Numbers::Patch(major, minor, patch) => {
                major < v.major
                    || major == v.major && (minor < v.minor || minor == v.minor && patch < v.patch)
            }
        }
    }

    /// The numbers up to the first that isn't 0, or all: the last of them is raised by a caret.
    pub(crate) fn caret_top(self) -> Numbers
        ensures { last_raised (given result) ≡ raised (given self) }
    {
        match self {
            Numbers::Minor(major, _) if major != 0 => Numbers::Major(major),
            Numbers::Patch(major, _, _) if major != 0 => Numbers::Major(major),
            Numbers::Patch(major, minor, _) if minor != 0 => Numbers::Minor(major, minor),
            _ => self,
        }
    }

    /// The numbers whose last is raised by a tilde.
    pub(crate) fn tilde_top(self) -> Numbers
        ensures { last_raised (given result) ≡ tilde_raised self }
    {
        match self {
            Numbers::Patch(major, minor, _) if major != 0 || minor != 0 => {
                Numbers::Minor(major, minor)
            }
            _ => self,
        }
    }

    /// All three numbers, those that are missing being 0.
    pub(crate) fn whole(self) -> Numbers
        ensures { given result ≡ padded (given self) }
    {
        match self {
            Numbers::Major(major) => Numbers::Patch(major, 0, 0),
            Numbers::Minor(major, minor) => Numbers::Patch(major, minor, 0),
            Numbers::Patch(major, minor, patch) => Numbers::Patch(major, minor, patch),
        }
    }

    /// Whether the version isn't below these numbers, and, cut to as many numbers as the top, isn't
    /// above the top.
    pub(crate) fn up_to(self, top: Numbers, v: &Version) -> bool
        ensures { result ≡ is_within (triple_of v.now) (given self) (given top) }
    {
        !self.is_above(v) && !top.is_below(v)
    }
}
