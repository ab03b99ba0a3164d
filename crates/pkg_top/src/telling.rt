//! How a command is told: the line of its answer, or that of its refusal.
ghost use Rattle.std.specs.Prelude.{◌≡◌, ◌≤◌, string_bytes};
ghost use Rattle.command_answers.specs.Lines.{status_line as line_of};
ghost use Rattle.command_answers.specs.Answers.{SinkFaultRose, IsPrinted, IsRefusal, Tells, TellsLine};

use command_answers::{Ended, Status, Told, status_line};
use pkg_world::{PutAnswer, Sink};
use std::alloc::Global;

/// Prints the line of Ok.
pub(crate) fn print<O: Sink, E: Sink>(
    alloc: Global,
    line: &String,
    out: &mut O,
    err: &mut E,
) -> Ended
    ensures printed { IsPrinted (string_bytes line.now) (O.text out.old) (O.text out.new) result.status }
    ensures told { Tells (E.text err.old) (E.text err.new) (E.faults err.old) (E.faults err.new) result.status result.told }
    ensures sink_fault { SinkFaultRose (O.faults out.old) (O.faults out.new) result.status }
    ensures out_later { O.faults out.old ≤ O.faults out.new }
    ensures err_later { E.faults err.old ≤ E.faults err.new }
{
    match out.put(alloc, line.as_bytes()) {
        PutAnswer::Done => Ended {
            status: Status::Ok,
            told: Told::Whole,
        },
        PutAnswer::Failed => refuse(alloc, Status::SinkFault, err),
        PutAnswer::Memory => refuse(alloc, Status::Memory, err),
    }
}

/// Ends with a refusal, whose line goes to the sink of errors.
pub(crate) fn refuse<E: Sink>(alloc: Global, status: Status, err: &mut E) -> Ended
    requires { IsRefusal status }
    ensures status { result.status ≡ status }
    ensures told { Tells (E.text err.old) (E.text err.new) (E.faults err.old) (E.faults err.new) result.status result.told }
    ensures err_later { E.faults err.old ≤ E.faults err.new }
{
    let told = tell(alloc, &status, err);
    Ended { status, told }
}

fn tell<E: Sink>(alloc: Global, status: &Status, err: &mut E) -> Told
    ensures told { TellsLine (line_of status.now) (E.text err.old) (E.text err.new) (E.faults err.old) (E.faults err.new) result }
    ensures err_later { E.faults err.old ≤ E.faults err.new }
{
    match status_line(alloc, status) {
        Ok(line) => match err.put(alloc, line.as_bytes()) {
            PutAnswer::Done => Told::Whole,
            PutAnswer::Failed => Told::Failed,
            PutAnswer::Memory => Told::Memory,
        },
        Err(_) => Told::Memory,
    }
}
