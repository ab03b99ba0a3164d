//! The store that asks once.
ghost use Rattle.std.specs.Prelude.{◌≡◌, ℕ, ◌≤◌, None, codes, true, IfSome, IsSome};
ghost use Rattle.pkg_world.specs.Path.{Path, last_ends_in};
ghost use Rattle.pkg_world.specs.Tree.{at, holds};
ghost use Rattle.pkg_world.specs.Outside.{ReadGives, ReadFaultRose, KindGives, KindFaultRose, ListGives, ListFaultRose, ReplaceGives, WriteFaultRose};
ghost use Rattle.read_once.specs.Seen.{IsTrueOf, IsTrueOf-prop};

use crate::seen::{Found, Seen};
use pkg_world::{KindAnswer, ListAnswer, NormPath, ReadAnswer, Store, WriteAnswer};
use std::alloc::Global;

/// A store that asks another one once for each path whose last part ends in `.toml`: what it answered, bytes, nothing or
/// a folder, is remembered and told again. Several places may consult such a file; all others are asked for as often as
/// they are wanted. A call that failed, or had no memory, is made again. Its memory takes as much as the files of TOML
/// that were read.
#[derive(Drop)]
pub struct ReadOnce<S: Store> {
    inside: S,
    seen: Seen,
    ghost true_so_far: { IsTrueOf (S.files inside) seen } by { IsTrueOf-prop (S.files inside) seen },
}

impl<S: Store> ReadOnce<S> {
    ghost use Rattle.read_once.specs.Seen.{content_of, Remembers};
    ghost use Rattle.read_once.specs.Once.{asked, remembered, KeepsSaid};

    /// A store over that one, which remembers nothing yet.
    pub fn over(alloc: Global, store: S) -> ReadOnce<S>
        ensures same { asked result ≡ store }
        ensures nothing { (path : Path) → remembered result path ≡ None }
    {
        ReadOnce {
            inside: store,
            seen: Seen::make(alloc),
        }
    }

    /// Asks for a path, and remembers the answer.
    fn ask(&mut self, alloc: Global, path: &NormPath) -> ReadAnswer
        requires new { remembered self.old path.now ≡ None }
        ensures answer { IfSome (S.files (asked self.old)) (λ all. ReadGives (holds path.now all) result) }
        ensures files { S.files (asked self.new) ≡ S.files (asked self.old) }
        ensures later { S.read_faults (asked self.old) ≤ S.read_faults (asked self.new) }
        ensures failed { ReadFaultRose result (S.read_faults (asked self.old)) (S.read_faults (asked self.new)) }
        ensures other { S.write_faults (asked self.new) ≡ S.write_faults (asked self.old) }
        ensures remembers { Remembers result (remembered self.new path.now) }
        ensures stays { KeepsSaid self.old self.new }
    {
        match self.inside.read(alloc, path) {
            ReadAnswer::Bytes(bytes) => self.keep(alloc, path, Found::Bytes(bytes)),
            ReadAnswer::Missing => self.keep(alloc, path, Found::Missing),
            ReadAnswer::Folder => self.keep(alloc, path, Found::Folder),
            ReadAnswer::Failed => ReadAnswer::Failed,
            ReadAnswer::Memory => ReadAnswer::Memory,
        }
    }

    /// Remembers what was found at a path, and answers it; Memory where there is none for that.
    fn keep(&mut self, alloc: Global, path: &NormPath, found: Found) -> ReadAnswer
        requires held { IfSome (S.files (asked self.old)) (λ all. holds path.now all ≡ content_of found) }
        requires new { remembered self.old path.now ≡ None }
        ensures answer { IfSome (S.files (asked self.old)) (λ all. ReadGives (holds path.now all) result) }
        ensures sure { (before now : ℕ) → ReadFaultRose result before now }
        ensures same { asked self.new ≡ asked self.old }
        ensures remembers { Remembers result (remembered self.new path.now) }
        ensures stays { KeepsSaid self.old self.new }
    {
        let answer = found.answer(alloc);
        match self.seen.keep(alloc, path, found) {
            Ok(()) => answer,
            Err(_) => ReadAnswer::Memory,
        }
    }
}

/// The files and the counts are those of the store that is asked.
impl<S: Store> Store for ReadOnce<S> {
    ghost use Rattle.read_once.specs.Seen.{Remembers};
    ghost use Rattle.read_once.specs.Once.{asked, remembered, KeepsSaid};

    ghost files = { λ once. S.files (asked once) };

    ghost read_faults = { λ once. S.read_faults (asked once) };

    ghost write_faults = { λ once. S.write_faults (asked once) };

    /// What is remembered is told again, and the store isn't asked. Memory too where there is none to remember.
    fn read(&mut self, alloc: Global, path: &NormPath) -> ReadAnswer
        ensures answer { IfSome (S.files (asked self.old)) (λ all. ReadGives (holds path.now all) result) }
        ensures files { S.files (asked self.new) ≡ S.files (asked self.old) }
        ensures later { S.read_faults (asked self.old) ≤ S.read_faults (asked self.new) }
        ensures failed { ReadFaultRose result (S.read_faults (asked self.old)) (S.read_faults (asked self.new)) }
        ensures other { S.write_faults (asked self.new) ≡ S.write_faults (asked self.old) }
        ensures again { IfSome (remembered self.old path.now) (λ there. ReadGives there result) }
        ensures once { IsSome (remembered self.old path.now) → asked self.new ≡ asked self.old }
        ensures remembers { last_ends_in path.now (codes ".toml") ≡ true → Remembers result (remembered self.new path.now) }
        ensures stays { KeepsSaid self.old self.new }
    {
        if let Some(answer) = self.seen.answer(alloc, path) {
            return answer;
        }
        if path.last_ends_in(".toml") {
            self.ask(alloc, path)
        } else {
            self.inside.read(alloc, path)
        }
    }

    fn kind(&mut self, alloc: Global, path: &NormPath) -> KindAnswer
        ensures answer { IfSome (S.files (asked self.old)) (λ all. KindGives (holds path.now all) result) }
        ensures files { S.files (asked self.new) ≡ S.files (asked self.old) }
        ensures later { S.read_faults (asked self.old) ≤ S.read_faults (asked self.new) }
        ensures failed { KindFaultRose result (S.read_faults (asked self.old)) (S.read_faults (asked self.new)) }
        ensures other { S.write_faults (asked self.new) ≡ S.write_faults (asked self.old) }
        ensures stays { KeepsSaid self.old self.new }
    {
        self.inside.kind(alloc, path)
    }

    fn list(&mut self, alloc: Global, path: &NormPath) -> ListAnswer
        ensures answer { IfSome (S.files (asked self.old)) (λ all. ListGives (at path.now all) result) }
        ensures files { S.files (asked self.new) ≡ S.files (asked self.old) }
        ensures later { S.read_faults (asked self.old) ≤ S.read_faults (asked self.new) }
        ensures failed { ListFaultRose result (S.read_faults (asked self.old)) (S.read_faults (asked self.new)) }
        ensures other { S.write_faults (asked self.new) ≡ S.write_faults (asked self.old) }
        ensures stays { KeepsSaid self.old self.new }
    {
        self.inside.list(alloc, path)
    }

    /// Forgets all paths, since the parents of this one may become folders.
    fn replace(&mut self, alloc: Global, path: &NormPath, bytes: &[u8]) -> WriteAnswer
        ensures answer { ReplaceGives path.now bytes.now (S.files (asked self.old)) (S.files (asked self.new)) result }
        ensures later { S.write_faults (asked self.old) ≤ S.write_faults (asked self.new) }
        ensures failed { WriteFaultRose result (S.write_faults (asked self.old)) (S.write_faults (asked self.new)) }
        ensures other { S.read_faults (asked self.new) ≡ S.read_faults (asked self.old) }
        ensures forgets { (other : Path) → remembered self.new other ≡ None }
    {
        self.seen.forget();
        self.inside.replace(alloc, path, bytes)
    }
}
