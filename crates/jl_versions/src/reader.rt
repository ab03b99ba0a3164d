//! Reading a version text byte by byte.

ghost use Rattle.std.specs.Prelude.{◌≡◌, ◌*◌, ◌+◌, ◌-◌, IfOk, Some, None, unwrap_or};
ghost use Rattle.std.specs.Prelude.{IfErr};
ghost use Rattle.jl_versions.specs.Machine.{run};
ghost use Rattle.jl_versions.specs.Stages.{step, finish, number_step, label_step, triple_after, after_number, next_number, after_ident, labelled, version_of};
ghost use Rattle.std.specs.Prelude.{MatchResult, Ok};
ghost use Rattle.jl_versions.specs.Meant.{version_meant, RefusesAt};
ghost use Rattle.jl_versions.specs.Grammar.{Reads};
ghost use Rattle.jl_versions.specs.Refusals.{Refuses};
ghost use Rattle.jl_versions.specs.declared.fault.VersionFault.TheVariants.{Memory};
ghost use Rattle.jl_versions.specs.declared.version.Version.{Version};
ghost use Rattle.jl_versions.specs.Stops.{StopsAt, Tells};
ghost use Rattle.jl_versions.specs.declared.reader.Stage.TheVariants.{Fresh};

use crate::fault::VersionFault;
use crate::ident::{Idents, Piece, is_label_byte};
use crate::version::Version;
use std::alloc::{AllocError, Global};

/// The first number that is too great for a version.
const NUMBER_LIMIT: u64 = 4_294_967_296;

/// The numbers before the one that is being read.
#[derive(Clone, Copy)]
pub(crate) enum Earlier {
    Nothing,
    Major(u32),
    MajorMinor(u32, u32),
}

/// Where the reader stands in a version text.
#[derive(Drop)]
pub(crate) enum Stage {
    /// Before the first byte.
    Fresh,
    /// In a number: those before it, and its value so far, if it has a digit.
    Figures(Earlier, Option<u32>),
    /// In an identifier: the three numbers, the pre-release once it is done, the identifiers before
    /// this one in its list, and its bytes so far.
    Label([u32; 3], Option<Idents>, Idents, Piece),
}

/// The three numbers, where `last` is the last that is given.
fn triple_with(earlier: Earlier, last: u32) -> [u32; 3]
    ensures { result ≡ triple_after earlier last }
{
    match earlier {
        Earlier::Nothing => [last, 0, 0],
        Earlier::Major(major) => [major, last, 0],
        Earlier::MajorMinor(major, minor) => [major, minor, last],
    }
}

/// The stage after a dot behind a number.
fn next_stage(earlier: Earlier, last: u32) -> Option<Stage>
    ensures { result ≡ next_number earlier last }
{
    match earlier {
        Earlier::Nothing => Some(Stage::Figures(Earlier::Major(last), None)),
        Earlier::Major(major) => Some(Stage::Figures(Earlier::MajorMinor(major, last), None)),
        Earlier::MajorMinor(_, _) => None,
    }
}

/// The stage after a byte that is no digit, behind a number.
fn leave_number(alloc: Global, earlier: Earlier, last: u32, byte: u8) -> Option<Stage>
    ensures { result ≡ after_number earlier last byte }
{
    let triple = triple_with(earlier, last);
    match byte {
        b'.' => next_stage(earlier, last),
        b'-' => Some(Stage::Label(triple, None, Idents::make(alloc), Piece::make(alloc))),
        b'+' => Some(Stage::Label(
            triple,
            Some(Idents::make(alloc)),
            Idents::make(alloc),
            Piece::make(alloc),
        )),
        _ => None,
    }
}

/// The stage after a byte in a number. Takes no memory.
fn number_byte(alloc: Global, earlier: Earlier, now: Option<u32>, byte: u8) -> Option<Stage>
    ensures { result ≡ number_step earlier now byte }
{
    if byte >= b'0' && byte <= b'9' {
        let number = 10 * u64::from(now.unwrap_or(0)) + u64::from(byte - b'0');
        return if number < NUMBER_LIMIT {
            Some(Stage::Figures(earlier, Some(number as u32)))
        } else {
            None
        };
    }
    match now {
        Some(last) => leave_number(alloc, earlier, last, byte),
        None => None,
    }
}

/// The stage after a byte that belongs to no identifier, behind the identifiers `done`.
fn leave_ident(
    alloc: Global,
    triple: [u32; 3],
    pre: Option<Idents>,
    done: Idents,
    byte: u8,
) -> Option<Stage>
    ensures { result ≡ after_ident triple pre done byte }
{
    match byte {
        b'.' => Some(Stage::Label(triple, pre, done, Piece::make(alloc))),
        b'+' => match pre {
            None => Some(Stage::Label(triple, Some(done), Idents::make(alloc), Piece::make(alloc))),
            Some(_) => None,
        },
        _ => None,
    }
}

/// The stage after a byte in a pre-release or a build.
fn label_byte(
    alloc: Global,
    triple: [u32; 3],
    pre: Option<Idents>,
    mut done: Idents,
    mut piece: Piece,
    byte: u8,
) -> Result<Option<Stage>, AllocError>
    ensures { IfOk result (λ next. next ≡ label_step triple pre done piece byte) }
{
    if is_label_byte(byte) {
        piece.push(byte)?;
        return Ok(Some(Stage::Label(triple, pre, done, piece)));
    }
    match piece.ident() {
        None => Ok(None),
        Some(ident) => {
            done.push(ident)?;
            Ok(leave_ident(alloc, triple, pre, done, byte))
        }
    }
}

impl Stage {
    /// The stage after one more byte; none where no version text begins so.
    #[tactic(auto, unfolding(crate::specs::Stages::step))]
    fn after(self, alloc: Global, byte: u8) -> Result<Option<Stage>, AllocError>
        ensures { IfOk result (λ next. next ≡ step self byte) }
    {
        match self {
            Stage::Fresh => {
                if byte == b'v' {
                    Ok(Some(Stage::Figures(Earlier::Nothing, None)))
                } else {
                    Ok(number_byte(alloc, Earlier::Nothing, None, byte))
                }
            }
            Stage::Figures(earlier, now) => Ok(number_byte(alloc, earlier, now, byte)),
            Stage::Label(triple, pre, done, piece) => label_byte(
                alloc, triple, pre, done, piece, byte,
            ),
        }
    }
}

/// The version with these parts.
fn version_with(triple: [u32; 3], pre: Idents, build: Idents) -> Version
    ensures { result ≡ version_of triple pre build }
{
    let [major, minor, patch] = triple;
    Version {
        major,
        minor,
        patch,
        pre,
        build,
    }
}

/// The version whose last identifiers are `done`.
fn labelled_version(alloc: Global, triple: [u32; 3], pre: Option<Idents>, done: Idents) -> Version
    ensures { result ≡ labelled triple pre done }
{
    match pre {
        None => version_with(triple, done, Idents::make(alloc)),
        Some(pre) => version_with(triple, pre, done),
    }
}

impl Stage {
    /// The version that the bytes so far mean; none where they are no version text.
    #[tactic(auto, unfolding(crate::specs::Stages::finish))]
    fn version(self, alloc: Global) -> Result<Option<Version>, AllocError>
        ensures { IfOk result (λ found. found ≡ finish self) }
    {
        match self {
            Stage::Fresh => Ok(None),
            Stage::Figures(_, None) => Ok(None),
            Stage::Figures(earlier, Some(last)) => {
                let triple = triple_with(earlier, last);
                Ok(Some(version_with(triple, Idents::make(alloc), Idents::make(alloc))))
            }
            Stage::Label(triple, pre, mut done, piece) => match piece.ident() {
                None => Ok(None),
                Some(ident) => {
                    done.push(ident)?;
                    Ok(Some(labelled_version(alloc, triple, pre, done)))
                }
            },
        }
    }
}

/// Where the reader stands after all bytes.
fn stage_after(alloc: Global, bytes: &[u8]) -> Result<Stage, VersionFault>
    ensures ok { IfOk result (λ stage. run step Fresh bytes.now ≡ Some stage) }
    ensures stops { IfErr result (StopsAt bytes.now) }
{
    let mut stage = Stage::Fresh;
    for (place, byte) in bytes.iter().enumerate() {
        match stage.after(alloc, *byte)? {
            Some(next) => stage = next,
            None => return Err(VersionFault::BadVersion(place as u64)),
        }
    }
    Ok(stage)
}

/// The version that the bytes mean, or where they stop to begin one.
fn read_bytes(alloc: Global, bytes: &[u8]) -> Result<Version, VersionFault>
    ensures { Tells bytes.now result }
{
    let stage = stage_after(alloc, bytes)?;
    match stage.version(alloc)? {
        Some(version) => Ok(version),
        None => Err(VersionFault::BadVersion(bytes.len() as u64)),
    }
}

impl Version {
    /// The version that a text means: an optional `v`, one to three numbers below 2^32 joined by dots,
    /// then optionally `-` and the identifiers of a pre-release, then optionally `+` and those of a
    /// build (Julia manual, Version Number Literals). Identifiers are letters, digits and hyphens,
    /// joined by dots; digits alone are a number below 2^64. Zeros may lead, and a missing number is 0.
    ///
    /// Any other text is refused by BadVersion, with the length in bytes of its longest front that
    /// begins a version text. Want of memory comes apart from that.
    pub fn read(alloc: Global, text: &str) -> Result<Version, VersionFault>
        // What is read is what the text means.
        ensures ok { IfOk result (Reads text.now) }
        // What the text means is read, unless memory runs out.
        ensures only { (v : Version) → Reads text.now v → MatchResult result (λ found. found ≡ v) (λ fault. fault ≡ Memory) }
        // A refused text is no version text, and the place is where its longest good front ends.
        ensures bad { IfErr result (Refuses text.now) }
        // The same as a function of the text.
        ensures meant { MatchResult result (λ v. version_meant text.now ≡ Ok v) (RefusesAt (version_meant text.now)) }
    {
        read_bytes(alloc, text.as_bytes())
    }
}
