//! Runs the families of a step: each call that fails in turn, and a file that is cut at every byte.
use crate::case::{Family, Faults, Files, Step, Wanted};
use crate::differing::{Answer, Findings, differences};
use crate::keys::Stop;
use crate::running::{mem_answer, push_labelled};
use pkg_world::{Place, StoreCall};
use std::alloc::{AllocError, Global};
use std::collections::BTreeMap;

/// The lines of what differs in a step's families, of each the first member that differs.
pub fn family_lines(alloc: Global, step: &Step, place: &Place) -> Result<Vec<String>, Stop> {
    let mut lines = Vec::new(alloc);
    for family in step.families.iter() {
        match family {
            Family::EachFails(call, paths) => {
                run_each_fails(alloc, step, place, *call, paths, &mut lines)?;
            }
            Family::Cut(path, codes) => run_cut(alloc, step, place, path, codes, &mut lines)?,
        }
    }
    Ok(lines)
}

/// Fails each call of a method in turn. One number more fails no call, so the answer is that of the step.
fn run_each_fails(
    alloc: Global,
    step: &Step,
    place: &Place,
    call: StoreCall,
    paths: &[String],
    lines: &mut Vec<String>,
) -> Result<(), Stop> {
    for before in 0..paths.len() {
        let wanted = fault_wanted(alloc, step, call, paths, before)?;
        if !is_member_right(alloc, step, place, call, before, &wanted, lines)? {
            return Ok(());
        }
    }
    is_member_right(alloc, step, place, call, paths.len(), &step.wanted, lines)?;
    Ok(())
}

/// Runs a step whose call after so many of the method fails, and pushes the lines of what differs, if any.
fn is_member_right(
    alloc: Global,
    step: &Step,
    place: &Place,
    call: StoreCall,
    before: usize,
    wanted: &Wanted,
    lines: &mut Vec<String>,
) -> Result<bool, Stop> {
    let nth = before.saturating_add(1);
    let faults = one_fault(alloc, call, nth)?;
    let answer = mem_answer(alloc, step, place, &step.world, &faults)?;
    let found = differences(alloc, &step.world.files, wanted, &answer)?;
    let method = method_word(call);
    let label = format!(in alloc; ", {method} {nth} fails: ")?;
    push_labelled(alloc, label.as_str(), &found, lines)?;
    Ok(found.is_empty())
}

fn one_fault(alloc: Global, call: StoreCall, nth: usize) -> Result<Faults, AllocError> {
    let mut faults = Faults::none(alloc);
    faults.calls.push((call, nth as u64))?;
    Ok(faults)
}

fn method_word(call: StoreCall) -> &'static str {
    match call {
        StoreCall::Read => "read",
        StoreCall::Kind => "kind",
        StoreCall::List => "list",
        StoreCall::Replace => "replace",
    }
}

/// What a step gives whose call on the path in that place fails.
fn fault_wanted(
    alloc: Global,
    step: &Step,
    call: StoreCall,
    paths: &[String],
    before: usize,
) -> Result<Wanted, AllocError> {
    let path = match paths.get(before) {
        Some(path) => path.as_str(),
        None => "",
    };
    let (status, err) = match call {
        StoreCall::Replace => (9, format!(in alloc; "error 9 WriteFault {path}\n")?),
        _ => (8, format!(in alloc; "error 8 ReadFault {path}\n")?),
    };
    Ok(Wanted {
        status,
        out: String::new(alloc),
        err,
        changed: changed_before(alloc, step, call, paths, before)?,
        told: String::from_str(alloc, "Whole")?,
    })
}

/// The files that a step writes before the replacement that fails; none where another call fails.
fn changed_before(
    alloc: Global,
    step: &Step,
    call: StoreCall,
    paths: &[String],
    before: usize,
) -> Result<Files, AllocError> {
    let mut changed = BTreeMap::new(alloc);
    if call != StoreCall::Replace {
        return Ok(changed);
    }
    for path in paths.iter().take(before) {
        if let Some(bytes) = step.wanted.changed.get(path.as_str()) {
            let bytes = Vec::from_slice(alloc, bytes.as_slice())?;
            changed.insert(path.clone()?, bytes)?;
        }
    }
    Ok(changed)
}

/// Cuts a file at every byte.
fn run_cut(
    alloc: Global,
    step: &Step,
    place: &Place,
    path: &String,
    codes: &[u8],
    lines: &mut Vec<String>,
) -> Result<(), Stop> {
    let mut world = step.world.copy(alloc)?;
    let none = Faults::none(alloc);
    let whole = match step.world.files.get(path.as_str()) {
        Some(bytes) => bytes.as_slice(),
        None => b"",
    };
    for end in 0..whole.len() {
        let front = Vec::from_slice(alloc, &whole[..end])?;
        world.files.insert(path.clone()?, front)?;
        let answer = mem_answer(alloc, step, place, &world, &none)?;
        let found = cut_differences(alloc, &world.files, codes, &answer)?;
        if !found.is_empty() {
            let label = format!(in alloc; ", cut at {end}: ")?;
            push_labelled(alloc, label.as_str(), &found, lines)?;
            return Ok(());
        }
    }
    Ok(())
}

/// What is wrong where a file is cut: another exit code, an error line beside exit code 0 or none beside another, output
/// beside an error, or a file that changed.
fn cut_differences(
    alloc: Global,
    before: &Files,
    codes: &[u8],
    answer: &Answer,
) -> Result<Vec<String>, AllocError> {
    let mut found = Findings::none(alloc);
    let status = answer.status;
    if !codes.contains(&status) {
        found.add(format!(in alloc; "status: want one of {codes:?}, got {status}")?)?;
    }
    if (status == 0) == answer.err.starts_with(b"error") {
        found.add(format!(in alloc; "err: an error line and status {status}")?)?;
    }
    if status != 0 && !answer.out.is_empty() {
        found.add(format!(in alloc; "out: output and status {status}")?)?;
    }
    found.files(before, &BTreeMap::new(alloc), &answer.files)?;
    Ok(found.into_lines())
}
