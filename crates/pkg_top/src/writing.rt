//! Carrying out how a command ends: its files are replaced, and then its line is printed, or its refusal told.
ghost use Rattle.std.specs.Prelude.{◌≡◌, ◌≤◌, [], None};
ghost use Rattle.command_answers.specs.Answers.{IsLate, PrintsOnlyAtOk, ReadFaultRose, WriteFaultRose, SinkFaultRose, Tells};
ghost use Rattle.command_answers.specs.Endings.{said_ending, TellsLate};
ghost use Rattle.pkg_top.specs.Left.{Finishes};

use crate::telling::{print, refuse};
use command_answers::{Ended, Ending};
use file_replacing::replace_all;
use pkg_world::{Sink, Store};
use std::alloc::Global;

/// Replaces the files of an ending in their order, and then prints its line or tells its refusal.
pub(crate) fn finish<S: Store, O: Sink, E: Sink>(
    alloc: Global,
    ending: Ending,
    store: &mut S,
    out: &mut O,
    err: &mut E,
) -> Ended
    requires late { TellsLate ending }
    ensures finishes { Finishes (said_ending ending) (S.files store.old) (S.files store.new) (O.text out.old) (O.text out.new) result.status }
    ensures untold { S.files store.old ≡ None → S.files store.new ≡ None }
    ensures still { ending.writes.items ≡ [] → (S.files store.new ≡ S.files store.old) × (S.write_faults store.new ≡ S.write_faults store.old) }
    ensures quiet { PrintsOnlyAtOk (O.text out.old) (O.text out.new) result.status }
    ensures told { Tells (E.text err.old) (E.text err.new) (E.faults err.old) (E.faults err.new) result.status result.told }
    ensures late { IsLate result.status }
    ensures read_fault { ReadFaultRose (S.read_faults store.old) (S.read_faults store.new) result.status }
    ensures write_fault { WriteFaultRose (S.write_faults store.old) (S.write_faults store.new) result.status }
    ensures sink_fault { SinkFaultRose (O.faults out.old) (O.faults out.new) result.status }
    ensures later { S.write_faults store.old ≤ S.write_faults store.new }
    ensures other { S.read_faults store.new ≡ S.read_faults store.old }
    ensures out_later { O.faults out.old ≤ O.faults out.new }
    ensures err_later { E.faults err.old ≤ E.faults err.new }
{
    let Ending { writes, told } = ending;
    match replace_all(alloc, writes.items(), store) {
        Ok(()) => match told {
            Ok(line) => print(alloc, &line, out, err),
            Err(refusal) => refuse(alloc, refusal, err),
        },
        Err(status) => refuse(alloc, status, err),
    }
}
