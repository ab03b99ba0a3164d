//! Runs the steps of a case.
use crate::case::{Case, Faults, Files, Step, Texts, World};
use crate::differing::{Answer, differences};
use crate::families::family_lines;
use crate::keys::{Stop, malformed, under};
use crate::world::{files_in, mem_store, sure_store};
use pkg_top::{PlaceFault, Told, place_from, run};
use pkg_world::{MemSink, Place, Sink, Store, SureSink};
use std::alloc::{AllocError, Global};

/// Runs the steps, each over a world of its own, and gives the lines of what differs.
pub fn run_case(alloc: Global, case: &Case) -> Result<Vec<String>, Stop> {
    let mut lines = Vec::new(alloc);
    for (place, step) in case.steps.iter().enumerate() {
        let number = place.saturating_add(1);
        let name = format!(in alloc; "steps.{number}")?;
        let found = under(alloc, name.as_str(), run_step(alloc, step))?;
        let label = format!(in alloc; "step {number}")?;
        push_labelled(alloc, label.as_str(), &found, &mut lines)?;
    }
    Ok(lines)
}

/// Pushes the lines, each behind a label.
pub fn push_labelled(
    alloc: Global,
    label: &str,
    found: &Vec<String>,
    lines: &mut Vec<String>,
) -> Result<(), AllocError> {
    for line in found.iter() {
        lines.push(format!(in alloc; "{label}{line}")?)?;
    }
    Ok(())
}

/// What differs in a step and in the members of its families.
fn run_step(alloc: Global, step: &Step) -> Result<Vec<String>, Stop> {
    let place = place_of(alloc, &step.texts)?;
    let mut lines = Vec::new(alloc);
    let answer = mem_answer(alloc, step, &place, &step.world, &step.faults)?;
    push_differences(alloc, ": ", step, &answer, &mut lines)?;
    if step.faults.is_empty() && lines.is_empty() {
        let answer = sure_answer(alloc, step, &place)?;
        push_differences(
            alloc,
            ", over what never fails: ",
            step,
            &answer,
            &mut lines,
        )?;
    }
    push_labelled(alloc, "", &family_lines(alloc, step, &place)?, &mut lines)?;
    Ok(lines)
}

fn push_differences(
    alloc: Global,
    label: &str,
    step: &Step,
    answer: &Answer,
    lines: &mut Vec<String>,
) -> Result<(), AllocError> {
    let found = differences(alloc, &step.world.files, &step.wanted, answer)?;
    push_labelled(alloc, label, &found, lines)
}

fn place_of(alloc: Global, texts: &Texts) -> Result<Place, Stop> {
    match place_from(
        alloc,
        texts.cwd.as_str(),
        text_of(&texts.home),
        text_of(&texts.depots),
        text_of(&texts.load_path),
        text_of(&texts.project),
        text_of(&texts.stdlib),
        text_of(&texts.julia),
    ) {
        Ok(place) => Ok(place),
        Err(PlaceFault::BadPath(_)) => Err(malformed(alloc, "place", "has a path above the root")),
        Err(PlaceFault::BadJulia(_)) => Err(malformed(alloc, "place.julia", "is no version")),
        Err(PlaceFault::Memory) => Err(Stop::Memory),
    }
}

fn text_of(text: &Option<String>) -> Option<&str> {
    match text {
        Some(text) => Some(text.as_str()),
        None => None,
    }
}

/// The answer over a store and sinks that fail where they are told to.
pub fn mem_answer(
    alloc: Global,
    step: &Step,
    place: &Place,
    world: &World,
    faults: &Faults,
) -> Result<Answer, Stop> {
    let mut store = mem_store(alloc, world, faults)?;
    let mut out = MemSink::make(alloc, faults.out)?;
    let mut err = MemSink::make(alloc, faults.err)?;
    let ending = end_of(alloc, step, place, &mut store, &mut out, &mut err);
    let files = files_in(alloc, &mut store)?;
    Ok(answer_of(alloc, ending, out.text(), err.text(), files)?)
}

/// The answer over a store and sinks that never fail.
fn sure_answer(alloc: Global, step: &Step, place: &Place) -> Result<Answer, Stop> {
    let mut store = sure_store(alloc, &step.world)?;
    let mut out = SureSink::make(alloc)?;
    let mut err = SureSink::make(alloc)?;
    let ending = end_of(alloc, step, place, &mut store, &mut out, &mut err);
    let files = files_in(alloc, &mut store)?;
    Ok(answer_of(alloc, ending, out.text(), err.text(), files)?)
}

/// Runs the words of a step, and says with which exit code and how the error line fared.
fn end_of<S: Store, O: Sink, E: Sink>(
    alloc: Global,
    step: &Step,
    place: &Place,
    store: &mut S,
    out: &mut O,
    err: &mut E,
) -> (u8, &'static str) {
    let ended = run(alloc, step.words.as_slice(), place, store, out, err);
    (ended.status.code(), told_word(&ended.told))
}

fn answer_of(
    alloc: Global,
    ending: (u8, &'static str),
    out: &[u8],
    err: &[u8],
    files: Files,
) -> Result<Answer, AllocError> {
    let (status, told) = ending;
    Ok(Answer {
        status,
        told,
        out: Vec::from_slice(alloc, out)?,
        err: Vec::from_slice(alloc, err)?,
        files,
    })
}

fn told_word(told: &Told) -> &'static str {
    match told {
        Told::Whole => "Whole",
        Told::Failed => "Failed",
        Told::Memory => "Memory",
    }
}
