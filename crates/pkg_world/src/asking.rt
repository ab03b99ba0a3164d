//! What callers ask of a store, with one answer for a call that failed.
ghost use Rattle.std.specs.Prelude.{◌≡◌, ◌≤◌, IfSome, IfOk, IfErr, option_map};
ghost use Rattle.pkg_world.specs.Tree.{at, holds, is_file, is_folder, file_bytes, names_at};
ghost use Rattle.pkg_world.specs.Outside.{UnreadRose, AreInOrder};

use crate::list::{Bytes, Names};
use crate::path::NormPath;
use crate::store::{KindAnswer, ListAnswer, ReadAnswer, Store};
use crate::text::Duplicate;
use std::alloc::{AllocError, Global};

/// Why a store tells nothing of a path.
#[derive(Debug, Drop)]
pub enum Unread {
    /// The outside failed at this path, and the count of failed reads rose.
    Failed(NormPath),
    Memory,
}

impl From<AllocError> for Unread {
    ghost use Rattle.pkg_world.specs.declared.asking.Unread.TheVariants.{Memory};

    ghost from_gives = { λ _ unread. unread ≡ Memory };

    fn from(_none: AllocError) -> Unread {
        Unread::Memory
    }
}

/// The bytes of a file. None exactly where no file is there: a folder in its place counts as missing.
pub fn file_at<S: Store>(
    alloc: Global,
    store: &mut S,
    path: &NormPath,
) -> Result<Option<Bytes>, Unread>
    ensures found { IfSome (S.files store.old) (λ all. IfOk result (λ found. option_map (λ b. b.items) found ≡ file_bytes (holds path.now all))) }
    ensures fault { IfErr result (UnreadRose path.now (S.read_faults store.old) (S.read_faults store.new)) }
    ensures files { S.files store.new ≡ S.files store.old }
    ensures later { S.read_faults store.old ≤ S.read_faults store.new }
    ensures other { S.write_faults store.new ≡ S.write_faults store.old }
{
    match store.read(alloc, path) {
        ReadAnswer::Bytes(bytes) => Ok(Some(bytes)),
        ReadAnswer::Missing => Ok(None),
        ReadAnswer::Folder => Ok(None),
        ReadAnswer::Failed => Err(Unread::Failed(path.copy(alloc)?)),
        ReadAnswer::Memory => Err(Unread::Memory),
    }
}

/// Whether a path is a file.
pub fn is_file<S: Store>(alloc: Global, store: &mut S, path: &NormPath) -> Result<bool, Unread>
    ensures found { IfSome (S.files store.old) (λ all. IfOk result (λ found. found ≡ is_file (holds path.now all))) }
    ensures fault { IfErr result (UnreadRose path.now (S.read_faults store.old) (S.read_faults store.new)) }
    ensures files { S.files store.new ≡ S.files store.old }
    ensures later { S.read_faults store.old ≤ S.read_faults store.new }
    ensures other { S.write_faults store.new ≡ S.write_faults store.old }
{
    match store.kind(alloc, path) {
        KindAnswer::File => Ok(true),
        KindAnswer::Folder => Ok(false),
        KindAnswer::Missing => Ok(false),
        KindAnswer::Failed => Err(Unread::Failed(path.copy(alloc)?)),
        KindAnswer::Memory => Err(Unread::Memory),
    }
}

/// Whether a path is a folder.
pub fn is_folder<S: Store>(alloc: Global, store: &mut S, path: &NormPath) -> Result<bool, Unread>
    ensures found { IfSome (S.files store.old) (λ all. IfOk result (λ found. found ≡ is_folder (holds path.now all))) }
    ensures fault { IfErr result (UnreadRose path.now (S.read_faults store.old) (S.read_faults store.new)) }
    ensures files { S.files store.new ≡ S.files store.old }
    ensures later { S.read_faults store.old ≤ S.read_faults store.new }
    ensures other { S.write_faults store.new ≡ S.write_faults store.old }
{
    match store.kind(alloc, path) {
        KindAnswer::Folder => Ok(true),
        KindAnswer::File => Ok(false),
        KindAnswer::Missing => Ok(false),
        KindAnswer::Failed => Err(Unread::Failed(path.copy(alloc)?)),
        KindAnswer::Memory => Err(Unread::Memory),
    }
}

/// The names in a folder, in the order of their bytes. None exactly where no folder is there.
pub fn names_in<S: Store>(
    alloc: Global,
    store: &mut S,
    path: &NormPath,
) -> Result<Option<Names>, Unread>
    ensures found { IfSome (S.files store.old) (λ all. IfOk result (λ found. option_map (λ n. n.items) found ≡ names_at (at path.now all))) }
    ensures order { IfSome (S.files store.old) (λ all. IfOk result AreInOrder) }
    ensures fault { IfErr result (UnreadRose path.now (S.read_faults store.old) (S.read_faults store.new)) }
    ensures files { S.files store.new ≡ S.files store.old }
    ensures later { S.read_faults store.old ≤ S.read_faults store.new }
    ensures other { S.write_faults store.new ≡ S.write_faults store.old }
{
    match store.list(alloc, path) {
        ListAnswer::Names(names) => Ok(Some(names)),
        ListAnswer::Missing => Ok(None),
        ListAnswer::File => Ok(None),
        ListAnswer::Failed => Err(Unread::Failed(path.copy(alloc)?)),
        ListAnswer::Memory => Err(Unread::Memory),
    }
}
