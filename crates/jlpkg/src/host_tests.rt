//! Both adapters over a folder of the machine, which the test makes and takes away.
use crate::host_sink::HostSink;
use crate::host_store::HostStore;
use pkg_world::{
    Bytes, KindAnswer, ListAnswer, Names, NormPath, PathFault, PutAnswer, ReadAnswer, Sink, Store,
    WriteAnswer,
};
use std::alloc::{AllocError, Global};
use std::test::Fail;
use std::{env, fs, io, process, str};

#[derive(Clone, Copy)]
enum Call {
    Read,
    Kind,
    List,
    Replace,
}

/// A store over the machine, and the folder of the test.
#[derive(Drop)]
struct Ground {
    alloc: Global,
    store: HostStore<HostRuntime>,
    folder: NormPath,
}

impl Ground {
    /// A new folder for this process, with a file of 64 MiB and one that is a byte longer.
    fn make(host: HostRuntime) -> Result<Ground, Fail> {
        let alloc = host.alloc();
        let above = env::temp_dir(&host)?;
        let above = above.as_str();
        let number = process::id(host.process());
        let text = format!(in alloc; "{above}/jlpkg-host-{number}")?;
        let _ = fs::remove_dir_all(&host, text.as_str());
        fs::create_dir(&host, text.as_str())?;
        make_sparse(&host, alloc, text.as_str(), "longest", 67_108_864)?;
        make_sparse(&host, alloc, text.as_str(), "longer", 67_108_865)?;
        Ok(Ground {
            alloc,
            store: HostStore::new(host),
            folder: NormPath::join(alloc, &NormPath::root(alloc), text.as_str())?,
        })
    }

    /// What a call on a path in the folder says; a replacement's bytes are its path's.
    fn ask(&mut self, call: &Call, text: &str) -> Result<String, PathFault> {
        let path = NormPath::join(self.alloc, &self.folder, text)?;
        let said = match call {
            Call::Read => said_by_read(self.alloc, &self.store.read(self.alloc, &path)),
            Call::Kind => said_by_kind(self.alloc, &self.store.kind(self.alloc, &path)),
            Call::List => said_by_list(self.alloc, &self.store.list(self.alloc, &path)),
            Call::Replace => {
                let answer = self.store.replace(self.alloc, &path, text.as_bytes());
                said_by_replace(self.alloc, &answer)
            }
        };
        Ok(said?)
    }
}

fn said_by_read(alloc: Global, answer: &ReadAnswer) -> Result<String, AllocError> {
    match answer {
        ReadAnswer::Bytes(bytes) => text_of(alloc, bytes),
        other => format!(in alloc; "{other:?}"),
    }
}

/// A short file's text, and of a long one how many bytes it has.
fn text_of(alloc: Global, bytes: &Bytes) -> Result<String, AllocError> {
    let count = bytes.items().len();
    if count > 100 {
        return format!(in alloc; "{count} bytes");
    }
    match str::from_utf8(bytes.items()) {
        Ok(text) => String::from_str(alloc, text),
        Err(_) => String::from_str(alloc, "no text"),
    }
}

fn said_by_kind(alloc: Global, answer: &KindAnswer) -> Result<String, AllocError> {
    format!(in alloc; "{answer:?}")
}

fn said_by_list(alloc: Global, answer: &ListAnswer) -> Result<String, AllocError> {
    match answer {
        ListAnswer::Names(names) => joined(alloc, names),
        other => format!(in alloc; "{other:?}"),
    }
}

fn joined(alloc: Global, names: &Names) -> Result<String, AllocError> {
    let mut all = String::new(alloc);
    for name in names.items().iter() {
        all.push_str(name.as_str())?;
        all.push(';')?;
    }
    Ok(all)
}

fn said_by_replace(alloc: Global, answer: &WriteAnswer) -> Result<String, AllocError> {
    format!(in alloc; "{answer:?}")
}

fn said_by_put(answer: &PutAnswer) -> &'static str {
    match answer {
        PutAnswer::Done => "Done",
        PutAnswer::Failed => "Failed",
        PutAnswer::Memory => "Memory",
    }
}

/// A path in a folder with a part that is longer than any name of the machine.
fn too_long(alloc: Global, folder: &str) -> Result<String, AllocError> {
    let mut text = String::from_str(alloc, folder)?;
    for _ in 0..300 {
        text.push('x')?;
    }
    Ok(text)
}

/// Makes a file that long of zeros, which take no room on the disk.
fn make_sparse(
    host: &HostRuntime,
    alloc: Global,
    folder: &str,
    name: &str,
    bytes: u64,
) -> io::Result<()> {
    let path = format!(in alloc; "{folder}/{name}")?;
    fs::create(host, path.as_str())?.set_len(bytes)
}

#[test]
fn the_store_answers_by_the_folder_and_counts_what_failed(rt: HostRuntime) -> Result<(), Fail> {
    let mut ground = Ground::make(rt)?;
    let long = too_long(rt.alloc(), "new/")?;
    let long = long.as_str();
    let lost = too_long(rt.alloc(), "gone/")?;
    let lost = lost.as_str();
    let rows = [
        (Call::Replace, "new/deep/text", "Done", 0, 0),
        (Call::Read, "new/deep/text", "new/deep/text", 0, 0),
        (Call::Read, "none", "Missing", 0, 0),
        (Call::Read, "new/deep/text/below", "Missing", 0, 0),
        (Call::Read, "new/deep", "Folder", 0, 0),
        (Call::Kind, "new/deep/text", "File", 0, 0),
        (Call::Kind, "new", "Folder", 0, 0),
        (Call::Kind, "none", "Missing", 0, 0),
        (Call::Kind, "new/deep/text/below", "Missing", 0, 0),
        (Call::List, "none", "Missing", 0, 0),
        (Call::List, "new/deep/text", "File", 0, 0),
        (Call::List, "new/deep/text/below", "Missing", 0, 0),
        (Call::Replace, "new/b", "Done", 0, 0),
        (Call::Replace, "new/B", "Done", 0, 0),
        (Call::Replace, "new/é", "Done", 0, 0),
        (Call::Replace, "new/a-b", "Done", 0, 0),
        (Call::Replace, "./new/b", "Done", 0, 0),
        (Call::Read, "new/b", "./new/b", 0, 0),
        (Call::Read, "longest", "67108864 bytes", 0, 0),
        (Call::Read, "longer", "Failed", 1, 0),
        (Call::Read, long, "Failed", 2, 0),
        (Call::Kind, long, "Failed", 3, 0),
        (Call::List, long, "Failed", 4, 0),
        (Call::Replace, lost, "Failed", 4, 1),
        (Call::Kind, "gone", "Missing", 4, 1),
        (Call::Replace, "new/deep", "Failed", 4, 2),
        (Call::Replace, "new/b/below", "Failed", 4, 3),
        (Call::List, "new", "B;a-b;b;deep;é;", 4, 3),
        (Call::Read, "/dev/zero", "Failed", 5, 3),
        (Call::Kind, "/dev/null", "Failed", 6, 3),
        (Call::List, "/dev/null", "Failed", 7, 3),
    ];
    for (call, path, said, reads, writes) in rows.iter() {
        let found = ground.ask(call, path)?;
        assert_eq!(rt; found.as_str(), *said, "{path}");
        assert_eq!(rt; ground.store.read_faults, *reads, "{path}");
        assert_eq!(rt; ground.store.write_faults, *writes, "{path}");
    }
    fs::remove_dir_all(&rt, ground.folder.as_str())?;
    Ok(())
}

#[test]
fn the_sink_writes_each_piece_and_counts_what_failed(rt: HostRuntime) -> Result<(), Fail> {
    let mut ground = Ground::make(rt)?;
    let folder = ground.folder.as_str();
    let path = format!(in rt.alloc(); "{folder}/printed")?;
    let mut sink = HostSink::new(fs::create(&rt, path.as_str())?);
    assert_eq!(rt; said_by_put(&sink.put(rt.alloc(), b"one\n")), "Done");
    assert_eq!(rt; said_by_put(&sink.put(rt.alloc(), b"two")), "Done");
    assert_eq!(rt; sink.faults, 0);
    let mut shut = HostSink::new(fs::open(&rt, path.as_str())?);
    assert_eq!(rt; said_by_put(&shut.put(rt.alloc(), b"three")), "Failed");
    assert_eq!(rt; shut.faults, 1);
    let found = ground.ask(&Call::Read, "printed")?;
    assert_eq!(rt; found.as_str(), "one\ntwo");
    fs::remove_dir_all(&rt, ground.folder.as_str())?;
    Ok(())
}
