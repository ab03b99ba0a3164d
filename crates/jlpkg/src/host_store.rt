//! The files of the machine as a store. This is the trusted edge: no proof sees what a disk holds.
//!
//! What is proved: each call ends, the two counts never fall, the count of failed reads rises at each Failed of
//! `read`, `kind` and `list`, that of failed writes at each Failed of `replace`, and neither call moves the
//! other's count. What is trusted: that the operating system answers with the bytes, kinds and names that it
//! holds, and that a rename takes the place of the target as a whole. Other programs may change files between
//! two calls, so the store tells no files, and no clause of this file speaks of what they hold.
//!
//! Links are followed. What is neither a file nor a folder is a failed read, and a name in a folder that is not
//! UTF-8 is passed over.
ghost use Rattle.std.specs.Prelude.{◌≡◌, ◌<◌, ◌≤◌, IfOk, IfSome, OnOk, length, vec_len};
ghost use Rattle.std.specs.Io.KnownBytes.{IsAtEnd};
ghost use Rattle.jlpkg.specs.Reading.{Follows};

use pkg_world::{
    Bytes, KindAnswer, ListAnswer, Name, Names, NormPath, ReadAnswer, Store, WriteAnswer,
};
use std::alloc::{AllocError, Global};
use std::fs::{OpenFile, OpenOptions};
use std::io::{ErrorKind, Read, Write};
use std::rt::Files;
use std::{fs, io};

/// How many times a file is asked for bytes at most; each time gives one byte at least.
const MOST_TURNS: u32 = 1 << 20;

/// How many bytes a file holds at most: 64 MiB.
const MOST_BYTES: usize = 64 << 20;

/// How many bytes are asked for at a time. Most files are small, and the room for these is made anew for each; the longest
/// file takes 16,384 turns.
const TURN_BYTES: usize = 1 << 12;

/// The files behind a handle of the runtime, with the counts of failed reads and writes. The counts stop at
/// 2^64 - 1.
#[derive(Drop)]
pub struct HostStore<R: Files> {
    host: R,
    /// How many calls of `read`, `kind` and `list` failed.
    pub read_faults: u64,
    /// How many calls of `replace` failed.
    pub write_faults: u64,
}

impl<R: Files> HostStore<R> {
    /// The store over that handle, without a fault so far.
    pub fn new(host: R) -> Self
        ensures reads { result.read_faults ≡ 0 }
        ensures writes { result.write_faults ≡ 0 }
    {
        HostStore {
            host,
            read_faults: 0,
            write_faults: 0,
        }
    }
}

impl<R: Files + AllocGlobal + Clone + Drop> Store for HostStore<R> {
    ghost use Rattle.std.specs.Prelude.{None};

    ghost files = { λ _. None };

    ghost read_faults = { λ s. s.read_faults };

    ghost write_faults = { λ s. s.write_faults };

    /// The bytes of a file, at most 64 MiB in at most 2^20 turns: a longer file is Failed, so is what is neither
    /// a file nor a folder, and so is every error of the machine but those that say that nothing is there, a
    /// folder is there, or memory is wanting.
    fn read(&mut self, alloc: Global, path: &NormPath) -> ReadAnswer {
        let answer = read_at(&self.host, alloc, path.as_str());
        if let ReadAnswer::Failed = answer {
            self.read_faults = self.read_faults.saturating_add(1);
        }
        answer
    }

    /// What stands at a path. A path below a file is Missing; a pipe, a device or a socket is Failed.
    fn kind(&mut self, _alloc: Global, path: &NormPath) -> KindAnswer {
        let answer = kind_at(&self.host, path.as_str());
        if let KindAnswer::Failed = answer {
            self.read_faults = self.read_faults.saturating_add(1);
        }
        answer
    }

    /// The names in a folder, in the order of their bytes.
    fn list(&mut self, alloc: Global, path: &NormPath) -> ListAnswer {
        let answer = list_at(&self.host, alloc, path.as_str());
        if let ListAnswer::Failed = answer {
            self.read_faults = self.read_faults.saturating_add(1);
        }
        answer
    }

    /// Makes missing parent folders, writes a file beside the target, forces it to the disk and renames it to
    /// the target, so that the target holds its old bytes or the new ones whole. A target that is a folder, and
    /// one below a file, is Failed: Blocked is for stores that tell their files. Where it fails, the file beside
    /// is taken away, and so are the folders that it made.
    fn replace(&mut self, alloc: Global, path: &NormPath, bytes: &[u8]) -> WriteAnswer {
        match put_in_place(&self.host, alloc, path.as_str(), bytes) {
            Ok(()) => WriteAnswer::Done,
            Err(error) => {
                if error.kind() == ErrorKind::OutOfMemory {
                    return WriteAnswer::Memory;
                }
                self.write_faults = self.write_faults.saturating_add(1);
                WriteAnswer::Failed
            }
        }
    }
}

/// What an error says of a path that was to be read.
#[derive(Clone, Copy)]
enum Refusal {
    Missing,
    Folder,
    Memory,
    Failed,
}

fn refusal_of(error: &io::Error) -> Refusal {
    match error.kind() {
        ErrorKind::NotFound | ErrorKind::NotADirectory => Refusal::Missing,
        ErrorKind::IsADirectory => Refusal::Folder,
        ErrorKind::OutOfMemory => Refusal::Memory,
        _ => Refusal::Failed,
    }
}

/// The kind is asked first: opening a pipe would wait for its other end, and a device may never end.
fn read_at<R: Files>(host: &R, alloc: Global, path: &str) -> ReadAnswer {
    match kind_at(host, path) {
        KindAnswer::File => read_file(host, alloc, path),
        KindAnswer::Folder => ReadAnswer::Folder,
        KindAnswer::Missing => ReadAnswer::Missing,
        KindAnswer::Failed => ReadAnswer::Failed,
        KindAnswer::Memory => ReadAnswer::Memory,
    }
}

fn read_file<R: Files>(host: &R, alloc: Global, path: &str) -> ReadAnswer {
    match contents(host, alloc, path) {
        Ok(bytes) => ReadAnswer::Bytes(Bytes::of_vec(bytes)),
        Err(error) => match refusal_of(&error) {
            Refusal::Missing => ReadAnswer::Missing,
            Refusal::Folder => ReadAnswer::Folder,
            Refusal::Memory => ReadAnswer::Memory,
            Refusal::Failed => ReadAnswer::Failed,
        },
    }
}

fn contents<R: Files>(host: &R, alloc: Global, path: &str) -> io::Result<Vec<u8>> {
    let mut file = fs::open(host, path)?;
    whole(alloc, &mut file)
}

/// All bytes that a reader still has, or FileTooLarge past the limits.
fn whole<F: Read>(alloc: Global, reader: &mut F) -> io::Result<Vec<u8>>
    ensures limit { IfOk result (λ bytes. vec_len bytes ≤ MOST_BYTES) }
    ensures all { IfOk result (λ bytes. IfSome (F.remaining reader.old) (λ all. bytes.items ≡ all)) }
{
    let mut buffer = make_buffer(alloc)?;
    let mut bytes = Vec::new(alloc);
    for _ in 0..MOST_TURNS {
        if take_turn(reader, buffer.as_mut_slice(), &mut bytes)? == 0 {
            return Ok(bytes);
        }
    }
    Err(io::Error::from(ErrorKind::FileTooLarge))
}

/// Room for the bytes of one turn.
fn make_buffer(alloc: Global) -> Result<Vec<u8>, AllocError>
    ensures { IfOk result (λ buffer. 0 < vec_len buffer) }
{
    vec![in alloc; 0u8; TURN_BYTES]
}

/// Appends what one read gives, and says how many bytes that were: none at the end alone.
fn take_turn<F: Read>(reader: &mut F, buffer: &mut [u8], bytes: &mut Vec<u8>) -> io::Result<usize>
    requires room { 0 < length buffer.old }
    requires within { vec_len bytes.old ≤ MOST_BYTES }
    ensures limit { vec_len bytes.new ≤ MOST_BYTES }
    ensures follows { OnOk result (Follows (F.remaining reader.old) bytes.old.items (F.remaining reader.new) bytes.new.items) }
    ensures end { IfOk result (λ taken. taken ≡ 0 → IsAtEnd (F.remaining reader.new)) }
{
    let taken = reader.read(buffer)?;
    if taken > MOST_BYTES.saturating_sub(bytes.len()) {
        return Err(io::Error::from(ErrorKind::FileTooLarge));
    }
    bytes.extend_from_slice(&buffer[..taken])?;
    Ok(taken)
}

fn kind_at<R: Files>(host: &R, path: &str) -> KindAnswer {
    match fs::metadata(host, path) {
        Ok(found) => {
            if found.is_dir() {
                KindAnswer::Folder
            } else if found.is_file() {
                KindAnswer::File
            } else {
                KindAnswer::Failed
            }
        }
        Err(error) => match refusal_of(&error) {
            Refusal::Missing => KindAnswer::Missing,
            Refusal::Folder => KindAnswer::Folder,
            Refusal::Memory => KindAnswer::Memory,
            Refusal::Failed => KindAnswer::Failed,
        },
    }
}

/// The kind is asked first: a listing is refused alike for a file and for a path below a file.
fn list_at<R: Files + AllocGlobal + Clone + Drop>(
    host: &R,
    alloc: Global,
    path: &str,
) -> ListAnswer {
    match kind_at(host, path) {
        KindAnswer::Folder => match names_in(host, alloc, path) {
            Ok(names) => ListAnswer::Names(names),
            Err(error) => match refusal_of(&error) {
                Refusal::Memory => ListAnswer::Memory,
                _ => ListAnswer::Failed,
            },
        },
        KindAnswer::File => ListAnswer::File,
        KindAnswer::Missing => ListAnswer::Missing,
        KindAnswer::Failed => ListAnswer::Failed,
        KindAnswer::Memory => ListAnswer::Memory,
    }
}

fn names_in<R: Files + AllocGlobal + Clone + Drop>(
    host: &R,
    alloc: Global,
    path: &str,
) -> io::Result<Names> {
    let mut texts = Vec::new(alloc);
    for entry in fs::read_dir(host, path)? {
        match entry {
            Ok(entry) => texts.push(String::from_str(alloc, entry.file_name())?)?,
            Err(error) => {
                // So a name comes that is not UTF-8.
                if error.kind() != ErrorKind::InvalidFilename {
                    return Err(error);
                }
            }
        }
    }
    texts.sort_unstable();
    let mut names = Names::make(alloc);
    for text in texts.iter() {
        names.push(Name::of(alloc, text.as_str())?)?;
    }
    Ok(names)
}

fn put_in_place<R: Files>(host: &R, alloc: Global, path: &str, bytes: &[u8]) -> io::Result<()> {
    let (folder, name) = last_part(path);
    let beside = format!(in alloc; "{folder}/.{name}.jlpkg-new")?;
    let missing = missing_folders(host, alloc, folder)?;
    let done = rename_new(host, folder, beside.as_str(), path, bytes);
    if done.is_err() {
        let _ = fs::remove_file(host, beside.as_str());
        for made in missing.iter() {
            let _ = fs::remove_dir(host, *made);
        }
    }
    done
}

/// What stands before the last slash, and after it.
fn last_part(path: &str) -> (&str, &str) {
    match path.rsplit_once('/') {
        Some(parts) => parts,
        None => ("", path),
    }
}

/// The folders above a file that are not there, the deepest first.
fn missing_folders<'a, R: Files>(
    host: &R,
    alloc: Global,
    folder: &'a str,
) -> io::Result<Vec<&'a str>> {
    let mut missing = Vec::new(alloc);
    let mut rest = folder;
    for _ in 0..folder.len() {
        if rest.is_empty() || fs::exists(host, rest)? {
            break;
        }
        missing.push(rest)?;
        rest = last_part(rest).0;
    }
    Ok(missing)
}

fn rename_new<R: Files>(
    host: &R,
    folder: &str,
    beside: &str,
    path: &str,
    bytes: &[u8],
) -> io::Result<()> {
    fs::create_dir_all(host, folder)?;
    write_new(host, beside, bytes)?;
    fs::rename(host, beside, path)?;
    force_folder(host, folder);
    Ok(())
}

/// Forces a folder's names to the disk. The new file is in its place by then, so an error here changes no answer.
fn force_folder<R: Files>(host: &R, folder: &str) {
    let path = if folder.is_empty() { "/" } else { folder };
    if let Ok(opened) = fs::open(host, path) {
        let _ = opened.sync_all();
    }
}

/// Writes a file that was not there, and forces it to the disk. One that a run left there which was cut off is
/// taken away before.
fn write_new<R: Files>(host: &R, path: &str, bytes: &[u8]) -> io::Result<()> {
    let _ = fs::remove_file(host, path);
    let mut file = OpenOptions::new()
        .write(true)
        .create_new(true)
        .open(host, path)?;
    file.write_all(bytes)?;
    file.sync_all()
}
