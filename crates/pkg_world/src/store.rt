//! The store: the files that a command reads and replaces, real or in memory.
ghost use Rattle.std.specs.Prelude.{◌≡◌, ℕ, ◌≤◌, Option, IfSome};
ghost use Rattle.pkg_world.specs.Tree.{Files, at, holds};
ghost use Rattle.pkg_world.specs.Outside.{ReadGives, ReadFaultRose, KindGives, KindFaultRose, ListGives, ListFaultRose, ReplaceGives, WriteFaultRose};

use crate::list::{Bytes, Names};
use crate::path::NormPath;
use std::alloc::Global;

/// What reading a path gives.
#[derive(Debug, Drop)]
pub enum ReadAnswer {
    /// A file, with all its bytes.
    Bytes(Bytes),
    /// Nothing is there.
    Missing,
    /// A folder is there.
    Folder,
    /// The outside failed, and the count of failed reads rose.
    Failed,
    Memory,
}

/// What stands at a path.
#[derive(Debug, Drop)]
pub enum KindAnswer {
    File,
    Folder,
    Missing,
    /// The outside failed, and the count of failed reads rose.
    Failed,
    Memory,
}

/// What listing a path gives.
#[derive(Debug, Drop)]
pub enum ListAnswer {
    /// A folder, with the names in it in the order of their bytes.
    Names(Names),
    Missing,
    File,
    /// The outside failed, and the count of failed reads rose.
    Failed,
    Memory,
}

/// How a replacement ended.
#[derive(Debug, Drop)]
pub enum WriteAnswer {
    /// The path holds the bytes.
    Done,
    /// The path is a folder, or lies below a file; a store that does not tell its files never says so.
    Blocked,
    /// The outside failed, and the count of failed writes rose.
    Failed,
    Memory,
}

/// Files behind paths. Contracts see three meanings: the files, where the store tells them, and the counts of
/// failed reads and writes, which never fall.
pub trait Store {
    ghost files: { Self → Option Files };

    ghost read_faults: { Self → ℕ };

    ghost write_faults: { Self → ℕ };

    /// The bytes of a file.
    fn read(&mut self, alloc: Global, path: &NormPath) -> ReadAnswer
        ensures answer { IfSome (files self.old) (λ all. ReadGives (holds path.now all) result) }
        ensures files { files self.new ≡ files self.old }
        ensures later { read_faults self.old ≤ read_faults self.new }
        ensures failed { ReadFaultRose result (read_faults self.old) (read_faults self.new) }
        ensures other { write_faults self.new ≡ write_faults self.old };

    /// What stands at a path.
    fn kind(&mut self, alloc: Global, path: &NormPath) -> KindAnswer
        ensures answer { IfSome (files self.old) (λ all. KindGives (holds path.now all) result) }
        ensures files { files self.new ≡ files self.old }
        ensures later { read_faults self.old ≤ read_faults self.new }
        ensures failed { KindFaultRose result (read_faults self.old) (read_faults self.new) }
        ensures other { write_faults self.new ≡ write_faults self.old };

    /// The names in a folder, in the order of their bytes.
    fn list(&mut self, alloc: Global, path: &NormPath) -> ListAnswer
        ensures answer { IfSome (files self.old) (λ all. ListGives (at path.now all) result) }
        ensures files { files self.new ≡ files self.old }
        ensures later { read_faults self.old ≤ read_faults self.new }
        ensures failed { ListFaultRose result (read_faults self.old) (read_faults self.new) }
        ensures other { write_faults self.new ≡ write_faults self.old };

    /// Sets a path to the bytes and adds missing parent folders; all else stays.
    fn replace(&mut self, alloc: Global, path: &NormPath, bytes: &[u8]) -> WriteAnswer
        ensures answer { ReplaceGives path.now bytes.now (files self.old) (files self.new) result }
        ensures later { write_faults self.old ≤ write_faults self.new }
        ensures failed { WriteFaultRose result (write_faults self.old) (write_faults self.new) }
        ensures other { read_faults self.new ≡ read_faults self.old };
}
