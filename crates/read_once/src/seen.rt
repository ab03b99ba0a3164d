//! What a store has answered, by the texts of the paths that were read.
ghost use Rattle.std.specs.Prelude.{◌≡◌, ℕ, true, None, MatchOption, IfOk, OnOk, OnErr};
ghost use Rattle.pkg_world.specs.Path.{Path, are_plain};
ghost use Rattle.pkg_world.specs.Outside.{ReadGives, ReadFaultRose};
ghost use Rattle.read_once.specs.Seen.{content_of, seen_at, Keeps, IsRepeated};

use pkg_world::{Bytes, NormPath, ReadAnswer};
use std::alloc::{AllocError, Global};
use std::collections::BTreeMap;

/// What reading a path gave, where the outside answered.
#[derive(Drop)]
pub(crate) enum Found {
    Bytes(Bytes),
    Missing,
    Folder,
}

impl Found {
    /// The same answer again; Memory where there is none for the copy.
    pub(crate) fn answer(&self, alloc: Global) -> ReadAnswer
        ensures answer { ReadGives (content_of self.now) result }
        ensures sure { (before now : ℕ) → ReadFaultRose result before now }
    {
        match self {
            Found::Bytes(bytes) => match copy_of(alloc, bytes.items()) {
                Ok(copy) => ReadAnswer::Bytes(copy),
                Err(_) => ReadAnswer::Memory,
            },
            Found::Missing => ReadAnswer::Missing,
            Found::Folder => ReadAnswer::Folder,
        }
    }
}

/// The answers so far.
#[derive(Drop)]
pub(crate) struct Seen {
    found: BTreeMap<String, Found>,
}

impl Seen {
    /// Nothing is remembered.
    pub(crate) fn make(alloc: Global) -> Seen
        ensures { (path : Path) → seen_at result path ≡ None }
    {
        Seen {
            found: BTreeMap::new(alloc),
        }
    }

    /// The answer that is remembered of a path; Memory where there is none for its copy.
    pub(crate) fn answer(&self, alloc: Global, path: &NormPath) -> Option<ReadAnswer>
        ensures plain { are_plain path.now ≡ true }
        ensures found { MatchOption result (seen_at self.now path.now ≡ None) (λ answer. IsRepeated (seen_at self.now path.now) answer) }
    {
        match self.found.get(path.as_str()) {
            Some(found) => Some(found.answer(alloc)),
            None => None,
        }
    }

    /// Remembers what was found at a path. The one error is want of memory, and then all is as before.
    pub(crate) fn keep(
        &mut self,
        alloc: Global,
        path: &NormPath,
        found: Found,
    ) -> Result<(), AllocError>
        ensures ok { OnOk result (Keeps path.now (content_of found) self.old self.new) }
        ensures plain { are_plain path.now ≡ true }
        ensures err { OnErr result ((other : Path) → seen_at self.new other ≡ seen_at self.old other) }
    {
        let text = String::from_str(alloc, path.as_str())?;
        match self.found.insert(text, found) {
            Ok(_) => Ok(()),
            Err(_) => Err(AllocError),
        }
    }

    /// Remembers nothing any more.
    pub(crate) fn forget(&mut self)
        ensures { (path : Path) → seen_at self.new path ≡ None }
    {
        self.found.clear();
    }
}

fn copy_of(alloc: Global, bytes: &[u8]) -> Result<Bytes, AllocError>
    ensures { IfOk result (λ copy. copy.items ≡ bytes.now) }
{
    let mut made = Vec::new(alloc);
    made.extend_from_slice(bytes)?;
    Ok(Bytes::of_vec(made))
}
