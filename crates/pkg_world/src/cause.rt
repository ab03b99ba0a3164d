//! Why a file is refused, and which limit is passed.
use crate::text::{Name, Text};
use uuid::Uuid;

/// What is counted against a limit: the parts of an instance of the resolver, and those of a tree.
#[derive(Clone, Copy, Debug, PartialEq, Eq)]
pub enum LimitKind {
    /// Packages in a book.
    Packages,
    /// States of an instance, absent ones included.
    States,
    /// The sum over neighbouring pairs of packages of the product of their states.
    Bits,
    /// The sum over neighbouring pairs of packages of the sum of their states.
    Cells,
    /// Folders on a path below a folder that is hashed.
    TreeDepth,
    /// Files of a tree.
    TreeFiles,
}

/// Why the bytes of a file are refused.
#[derive(Debug, Drop)]
pub enum Cause {
    /// The bytes are no TOML text.
    BadToml,
    /// The nesting of the tables and lists passes 64.
    Deep,
    /// A date of the file is none that can be written again.
    BadDate,
    /// The value at this key path has another kind, or a needed key is absent.
    BadShape(Text),
    /// The text at this key path, or the last key of it, is no version; the place is the length of its longest front
    /// that begins one.
    BadVersion(Text, u64),
    /// The text at this key path, or the last key of it, is no specifier or no range, with its first bad place.
    BadSpec(Text, u64),
    /// Two sections of a registry's file give one version different values for this name: the version as it is printed,
    /// and the two values.
    Clash(Name, Text, Text, Text),
    /// This identifier is that of two stanzas.
    SameUuid(Uuid),
    /// The first name's stanza lists the second name, which no stanza has.
    Dangling(Name, Name),
    /// The first name's stanza lists the second name, which several stanzas have.
    Unclear(Name, Name),
    /// The first line, counted from 1, that is outside the text of a log.
    BadLog(u64),
}
