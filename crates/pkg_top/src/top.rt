//! The top call.
ghost use Rattle.std.specs.Prelude.{◌≡◌, ◌≤◌, [], None, IfSome, IfOk, IfErr};
ghost use Rattle.command_answers.specs.Answers.{IsLate, IsTimely, ReadFaultRose, WriteFaultRose, SinkFaultRose, PrintsOnlyAtOk, IsUnprinted, Tells};
ghost use Rattle.command_answers.specs.Endings.{EndsBy, TellsLate};
ghost use Rattle.log_check.specs.Answered.{AnswersBy};
ghost use Rattle.command_words.specs.Seen.{asked_of, texts};
ghost use Rattle.command_words.specs.Words.{asked as meant};
ghost use Rattle.pkg_top.specs.Due.{IsReading, IsAnswerOf, IsPlain, IsEndingOf, IsDue, IsEndingWith, EndsTimely, IsStill, early_of, early_due};
ghost use Rattle.pkg_top.specs.Left.{Ends};

use crate::early::asked_for;
use crate::telling::refuse;
use crate::which::which;
use crate::writing::finish;
use check_command::check;
use command_answers::{Ended, Ending, Status, Writes};
use command_words::Asked;
use edit_commands::{Order, write_project};
use home_commands::{status_lines, verify};
use offers_command::offers;
use pkg_world::{Place, Sink, Store};
use std::alloc::Global;

/// Runs one command: the words after the program's name, at a place, over a store. At Ok the files that the command
/// replaces are replaced, in their order, and then the answer goes to `out` in one piece; at every other status one line goes
/// to `err`, and `out` gets nothing (a prefix at SinkFault).
///
/// Where the store tells its files, status, text and files are those that the definitions give for them, by the command: `which`
/// answers the import of a name from a context over the environments of the load path (Julia manual, Code Loading), `status` tells
/// the stanzas of its dependencies, `offers` the versions that registries list under a name, `verify` whether an
/// installed tree is the manifest's (Git's object format), and `check` whether what the manifest says is valid for the offers of
/// the files and the project's demand, and what could be raised. These replace no file. `resolve`, `pin` and `free` replace the
/// manifest by such a selection, in which nothing can be raised, and `add`, `rm` and `develop` the project file before it (Pkg,
/// Compatibility).
///
/// A refusal leaves all files as they were, but for these: at WriteFault and Blocked, which carry a path that was to be
/// replaced, the files before it are replaced; at SinkFault all are; and at Memory the first few may be. At Unsatisfiable of
/// `resolve --proof` the file that is named has the certificate.
/// ReadFault, WriteFault and SinkFault come only where the store's and the sink's counts of faults rose, and want of memory is free.
pub fn run<S: Store, O: Sink, E: Sink>(
    alloc: Global,
    words: &[String],
    place: &Place,
    store: &mut S,
    out: &mut O,
    err: &mut E,
) -> Ended
    ensures due { IfSome (S.files store.old) (λ all. Ends (IsDue all place.now (texts words.now)) (S.files store.old) (S.files store.new) (O.text out.old) (O.text out.new) result.status) }
    ensures timely { IsTimely (early_due place.now.cwd (texts words.now)) result.status }
    ensures quiet { PrintsOnlyAtOk (O.text out.old) (O.text out.new) result.status }
    ensures told { Tells (E.text err.old) (E.text err.new) (E.faults err.old) (E.faults err.new) result.status result.told }
    ensures read_fault { ReadFaultRose (S.read_faults store.old) (S.read_faults store.new) result.status }
    ensures write_fault { WriteFaultRose (S.write_faults store.old) (S.write_faults store.new) result.status }
    ensures sink_fault { SinkFaultRose (O.faults out.old) (O.faults out.new) result.status }
    ensures reads { IsReading (meant place.now.cwd (texts words.now)) → (S.files store.new ≡ S.files store.old) × (S.write_faults store.new ≡ S.write_faults store.old) }
    ensures untold { S.files store.old ≡ None → S.files store.new ≡ None }
    ensures later { S.read_faults store.old ≤ S.read_faults store.new }
    ensures write_later { S.write_faults store.old ≤ S.write_faults store.new }
    ensures out_later { O.faults out.old ≤ O.faults out.new }
    ensures err_later { E.faults err.old ≤ E.faults err.new }
{
    match answer(alloc, words, place, store) {
        Ok(ending) => finish(alloc, ending, store, out, err),
        Err(status) => refuse(alloc, status, err),
    }
}

/// How a command ends well, or its refusal; nothing is replaced yet.
fn answer<S: Store>(
    alloc: Global,
    words: &[String],
    place: &Place,
    store: &mut S,
) -> Result<Ending, Status>
    ensures answer { IfSome (S.files store.old) (λ all. EndsBy (IsDue all place.now (texts words.now)) result) }
    ensures timely { EndsTimely (early_due place.now.cwd (texts words.now)) result }
    ensures still { IsStill (meant place.now.cwd (texts words.now)) result }
    ensures told { IfOk result TellsLate }
    ensures fault { IfErr result (ReadFaultRose (S.read_faults store.old) (S.read_faults store.new)) }
    ensures unprinted { IfErr result IsUnprinted }
    ensures files { S.files store.new ≡ S.files store.old }
    ensures later { S.read_faults store.old ≤ S.read_faults store.new }
    ensures other { S.write_faults store.new ≡ S.write_faults store.old }
{
    match asked_for(alloc, &place.cwd, words) {
        Ok(asked) => answer_to(alloc, asked, place, store),
        Err(status) => Err(status),
    }
}

/// The same of what is asked, which the words alone don't refuse.
fn answer_to<S: Store>(
    alloc: Global,
    asked: Asked,
    place: &Place,
    store: &mut S,
) -> Result<Ending, Status>
    requires { early_of (asked_of asked) ≡ None }
    ensures answer { IfSome (S.files store.old) (λ all. EndsBy (IsEndingOf all place.now (asked_of asked)) result) }
    ensures still { IsStill (asked_of asked) result }
    ensures told { IfOk result TellsLate }
    ensures late { IfErr result IsLate }
    ensures fault { IfErr result (ReadFaultRose (S.read_faults store.old) (S.read_faults store.new)) }
    ensures unprinted { IfErr result IsUnprinted }
    ensures files { S.files store.new ≡ S.files store.old }
    ensures later { S.read_faults store.old ≤ S.read_faults store.new }
    ensures other { S.write_faults store.new ≡ S.write_faults store.old }
{
    match asked {
        Asked::Resolve {
            budget,
            classes,
            proof,
        } => write_project(
            alloc,
            place,
            Order::Resolve { classes, proof },
            budget,
            store,
        ),
        Asked::Add { words, budget } => {
            write_project(alloc, place, Order::Add(words), budget, store)
        }
        Asked::Remove { names, budget } => {
            write_project(alloc, place, Order::Remove(names), budget, store)
        }
        Asked::Pin {
            name,
            version,
            budget,
        } => write_project(alloc, place, Order::Pin(name, version), budget, store),
        Asked::Free { name, budget } => {
            write_project(alloc, place, Order::Free(name), budget, store)
        }
        Asked::Develop { path, budget } => {
            write_project(alloc, place, Order::Develop(path), budget, store)
        }
        Asked::Which(name, context) => plain(alloc, Asked::Which(name, context), place, store),
        Asked::Offers(name) => plain(alloc, Asked::Offers(name), place, store),
        Asked::Status { all, extensions } => {
            plain(alloc, Asked::Status { all, extensions }, place, store)
        }
        Asked::Verify(name, list) => plain(alloc, Asked::Verify(name, list), place, store),
        Asked::Check { proof } => plain(alloc, Asked::Check { proof }, place, store),
        Asked::Make { .. } => unreachable!(),
        Asked::BadWords(_) => unreachable!(),
    }
}

/// The ending of a command that replaces no file: its line alone.
fn plain<S: Store>(
    alloc: Global,
    asked: Asked,
    place: &Place,
    store: &mut S,
) -> Result<Ending, Status>
    requires early { early_of (asked_of asked) ≡ None }
    requires reads { IsReading (asked_of asked) }
    ensures answer { IfSome (S.files store.old) (λ all. EndsBy (IsPlain (IsAnswerOf all place.now (asked_of asked))) result) }
    ensures still { IfOk result (λ it. it.writes.items ≡ []) }
    ensures told { IfOk result TellsLate }
    ensures late { IfErr result IsLate }
    ensures fault { IfErr result (ReadFaultRose (S.read_faults store.old) (S.read_faults store.new)) }
    ensures unprinted { IfErr result IsUnprinted }
    ensures files { S.files store.new ≡ S.files store.old }
    ensures later { S.read_faults store.old ≤ S.read_faults store.new }
    ensures other { S.write_faults store.new ≡ S.write_faults store.old }
{
    ending_with(alloc, reading(alloc, asked, place, store))
}

/// The ending of a line, which replaces no file.
fn ending_with(alloc: Global, answer: Result<String, Status>) -> Result<Ending, Status>
    ensures { IsEndingWith answer result }
{
    match answer {
        Ok(line) => Ok(Ending {
            writes: Writes::make(alloc),
            told: Ok(line),
        }),
        Err(status) => Err(status),
    }
}

/// The line of a command that replaces no file, or its refusal.
fn reading<S: Store>(
    alloc: Global,
    asked: Asked,
    place: &Place,
    store: &mut S,
) -> Result<String, Status>
    requires early { early_of (asked_of asked) ≡ None }
    requires reads { IsReading (asked_of asked) }
    ensures answer { IfSome (S.files store.old) (λ all. AnswersBy (IsAnswerOf all place.now (asked_of asked)) result) }
    ensures late { IfErr result IsLate }
    ensures fault { IfErr result (ReadFaultRose (S.read_faults store.old) (S.read_faults store.new)) }
    ensures unprinted { IfErr result IsUnprinted }
    ensures files { S.files store.new ≡ S.files store.old }
    ensures later { S.read_faults store.old ≤ S.read_faults store.new }
    ensures other { S.write_faults store.new ≡ S.write_faults store.old }
{
    match asked {
        Asked::Which(name, context) => which(alloc, &name, &context, place, store),
        Asked::Offers(name) => offers(alloc, &name, place, store),
        Asked::Status { all, extensions } => status_lines(alloc, all, extensions, place, store),
        Asked::Verify(name, list) => verify(alloc, &name, &list, place, store),
        Asked::Check { proof } => check(alloc, place, &proof, store),
        Asked::Resolve { .. } => unreachable!(),
        Asked::Add { .. } => unreachable!(),
        Asked::Remove { .. } => unreachable!(),
        Asked::Pin { .. } => unreachable!(),
        Asked::Free { .. } => unreachable!(),
        Asked::Develop { .. } => unreachable!(),
        Asked::Make { .. } => unreachable!(),
        Asked::BadWords(_) => unreachable!(),
    }
}
