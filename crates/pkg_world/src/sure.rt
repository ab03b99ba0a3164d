//! A store and a sink in memory that never fail: their counts of faults are always 0.
ghost use Rattle.std.specs.Prelude.{◌≡◌, [], Some, IsSome, IfOk, OnOk, OnErr};
ghost use Rattle.pkg_world.specs.Tree.{a_file, some_folder, no_files, with_leaf};
ghost use Rattle.pkg_world.specs.Held.{sure_files, sure_text};

use crate::path::NormPath;
use crate::sink::{PutAnswer, Sink};
use crate::store::{KindAnswer, ListAnswer, ReadAnswer, Store, WriteAnswer};
use crate::tree::{Entries, kind_of, list_folder, put_file, put_folder, read_file, write_file};
use std::alloc::{AllocError, Global};
use std::collections::BTreeMap;

/// Files in memory. A look-up goes down the parts of its path. It tells its files, and never answers Failed.
#[derive(Drop)]
pub struct SureStore {
    root: Entries,
}

impl SureStore {
    /// A store with the root folder alone. The one error is want of memory.
    pub fn make(alloc: Global) -> Result<Self, AllocError>
        ensures { IfOk result (λ store. sure_files store ≡ no_files) }
    {
        Ok(Self {
            root: BTreeMap::new(alloc),
        })
    }

    /// Sets a path to the bytes, adds missing parent folders and leaves all else. No parent may be a file, nor the
    /// path a folder. The one error is want of memory, and then all is as before.
    pub fn put_file(
        &mut self,
        alloc: Global,
        path: &NormPath,
        bytes: &[u8],
    ) -> Result<(), AllocError>
        requires { IsSome (with_leaf (a_file bytes.now) path.now (sure_files self.old)) }
        ensures ok { OnOk result (with_leaf (a_file bytes.now) path.now (sure_files self.old) ≡ Some (sure_files self.new)) }
        ensures err { OnErr result (sure_files self.new ≡ sure_files self.old) }
    {
        put_file(alloc, &mut self.root, path, bytes)
    }

    /// Makes a path a folder, which it may be, adds missing parent folders and leaves all else. No parent may be a
    /// file, nor the path. The one error is want of memory, and then all is as before.
    pub fn put_folder(&mut self, alloc: Global, path: &NormPath) -> Result<(), AllocError>
        requires { IsSome (with_leaf some_folder path.now (sure_files self.old)) }
        ensures ok { OnOk result (with_leaf some_folder path.now (sure_files self.old) ≡ Some (sure_files self.new)) }
        ensures err { OnErr result (sure_files self.new ≡ sure_files self.old) }
    {
        put_folder(alloc, &mut self.root, path)
    }
}

impl Store for SureStore {
    ghost use Rattle.std.specs.Prelude.{Some};
    ghost use Rattle.pkg_world.specs.Held.{sure_files};

    ghost files = { λ store. Some (sure_files store) };

    ghost read_faults = { λ _. 0 };

    ghost write_faults = { λ _. 0 };

    fn read(&mut self, alloc: Global, path: &NormPath) -> ReadAnswer {
        read_file(alloc, &self.root, path)
    }

    fn kind(&mut self, _alloc: Global, path: &NormPath) -> KindAnswer {
        kind_of(&self.root, path)
    }

    fn list(&mut self, alloc: Global, path: &NormPath) -> ListAnswer {
        list_folder(alloc, &self.root, path)
    }

    fn replace(&mut self, alloc: Global, path: &NormPath, bytes: &[u8]) -> WriteAnswer {
        write_file(alloc, &mut self.root, path, bytes)
    }
}

/// Text in memory. It tells its text, and never answers Failed.
#[derive(Drop)]
pub struct SureSink {
    written: Vec<u8>,
}

impl SureSink {
    /// A sink with no text. The one error is want of memory.
    pub fn make(alloc: Global) -> Result<Self, AllocError>
        ensures { IfOk result (λ sink. sure_text sink ≡ []) }
    {
        Ok(Self {
            written: Vec::new(alloc),
        })
    }

    /// The text so far. It takes no memory.
    pub fn text(&self) -> &[u8]
        ensures { result.now ≡ sure_text self.now }
    {
        self.written.as_slice()
    }
}

impl Sink for SureSink {
    ghost use Rattle.std.specs.Prelude.{Some};
    ghost use Rattle.pkg_world.specs.Held.{sure_text};

    ghost text = { λ sink. Some (sure_text sink) };

    ghost faults = { λ _. 0 };

    fn put(&mut self, _alloc: Global, piece: &[u8]) -> PutAnswer {
        match self.written.extend_from_slice(piece) {
            Ok(()) => PutAnswer::Done,
            Err(_) => PutAnswer::Memory,
        }
    }
}
