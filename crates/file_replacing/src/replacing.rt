//! Replacing files one after another.
ghost use Rattle.std.specs.Prelude.{◌≡◌, ◌≤◌, [], None, map, IfErr};
ghost use Rattle.command_answers.specs.Answers.{WriteFaultRose};
ghost use Rattle.command_answers.specs.Endings.{said_write};
ghost use Rattle.file_replacing.specs.Replacing.{Replaces, ReplacesOne};

use command_answers::{Status, Write};
use pkg_world::{Duplicate, Store, WriteAnswer};
use std::alloc::Global;

/// Replaces the files in their order, up to the first that cannot be: that one and those after it are as before.
///
/// Errors: Blocked with the path of a file in whose place a folder stands, or that lies below a file, over a store that tells
/// its files; WriteFault with the path that the store couldn't write; want of memory.
pub fn replace_all<S: Store>(alloc: Global, writes: &[Write], store: &mut S) -> Result<(), Status>
    ensures replaces { Replaces (map said_write writes.now) (S.files store.old) (S.files store.new) result }
    ensures untold { S.files store.old ≡ None → S.files store.new ≡ None }
    ensures still { writes.now ≡ [] → S.write_faults store.new ≡ S.write_faults store.old }
    ensures write_fault { IfErr result (WriteFaultRose (S.write_faults store.old) (S.write_faults store.new)) }
    ensures later { S.write_faults store.old ≤ S.write_faults store.new }
    ensures other { S.read_faults store.new ≡ S.read_faults store.old }
{
    replace_each(alloc, writes, store)
}

fn replace_each<S: Store>(alloc: Global, writes: &[Write], store: &mut S) -> Result<(), Status>
    ensures replaces { Replaces (map said_write writes.now) (S.files store.old) (S.files store.new) result }
    ensures still { writes.now ≡ [] → S.write_faults store.new ≡ S.write_faults store.old }
    ensures write_fault { IfErr result (WriteFaultRose (S.write_faults store.old) (S.write_faults store.new)) }
    ensures later { S.write_faults store.old ≤ S.write_faults store.new }
    ensures other { S.read_faults store.new ≡ S.read_faults store.old }
{
    for write in writes {
        replace_one(alloc, write, store)?;
    }
    Ok(())
}

/// Replaces a file. The path is copied first, so that want of memory hides no failed write.
fn replace_one<S: Store>(alloc: Global, write: &Write, store: &mut S) -> Result<(), Status>
    ensures replaces { ReplacesOne (said_write write.now) (S.files store.old) (S.files store.new) result }
    ensures write_fault { IfErr result (WriteFaultRose (S.write_faults store.old) (S.write_faults store.new)) }
    ensures later { S.write_faults store.old ≤ S.write_faults store.new }
    ensures other { S.read_faults store.new ≡ S.read_faults store.old }
{
    let path = write.path.copy(alloc)?;
    match store.replace(alloc, &write.path, write.bytes.items()) {
        WriteAnswer::Done => Ok(()),
        WriteAnswer::Blocked => Err(Status::Blocked(path)),
        WriteAnswer::Failed => Err(Status::WriteFault(path)),
        WriteAnswer::Memory => Err(Status::Memory),
    }
}
