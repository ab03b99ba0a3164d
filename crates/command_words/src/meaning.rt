//! What the matches of `clap` ask for, command by command.
ghost use Rattle.std.specs.Prelude.{◌≡◌, codes, IfOk, option_map};
ghost use Rattle.std.specs.Option.{option_and_then, option_copied};
ghost use Rattle.pkg_world.specs.Path.{joined};
ghost use Rattle.command_words.specs.Found as found_spec;
ghost use Rattle.command_words.specs.Numbers.{number_of as number_meant};
ghost use Rattle.command_words.specs.Parts as parts;
ghost use Rattle.command_words.specs.Words as spec;
ghost use Rattle.command_words.specs.Seen.{asked_of, rows};

use crate::asked::Asked;
use crate::found::{has_flag, text_in, texts_in};
use crate::numbers::{USUAL_BUDGET, budget_of, number_of};
use crate::parts::{context_of, file_of, name_of, names_of, packages_of, path_of, pinned_of};
use clap::ArgMatches;
use pkg_world::{Name, NormPath, Text};
use std::alloc::{AllocError, Global};

/// What the matches of a command's words ask for; None where a rule on a word is broken.
pub(crate) fn meaning(
    alloc: Global,
    cwd: &NormPath,
    command: &str,
    found: &ArgMatches<'_>,
) -> Result<Option<Asked>, AllocError>
    ensures { IfOk result (λ asked. option_map asked_of asked ≡ spec.meaning cwd.now command.now (rows found.now)) }
{
    if command == "which" {
        return which_in(alloc, found);
    }
    if command == "offers" {
        return offers_in(alloc, found);
    }
    if command == "resolve" {
        return resolve_in(alloc, cwd, found);
    }
    if command == "check" {
        return check_in(alloc, cwd, found);
    }
    if command == "status" {
        return Ok(Some(status_in(found)));
    }
    if command == "verify" {
        return verify_in(alloc, found);
    }
    match budget_in(found) {
        Some(budget) => edit_in(alloc, cwd, command, found, budget),
        None => Ok(None),
    }
}

/// The same of a command that has an edited project or a made world resolved, within a budget.
fn edit_in(
    alloc: Global,
    cwd: &NormPath,
    command: &str,
    found: &ArgMatches<'_>,
    budget: u32,
) -> Result<Option<Asked>, AllocError>
    ensures { IfOk result (λ asked. option_map asked_of asked ≡ spec.edit_in cwd.now command.now (rows found.now) budget) }
{
    if command == "add" {
        return add_in(alloc, found, budget);
    }
    if command == "rm" {
        return remove_in(alloc, found, budget);
    }
    if command == "pin" {
        return pin_in(alloc, found, budget);
    }
    if command == "free" {
        return free_in(alloc, found, budget);
    }
    if command == "develop" {
        return develop_in(alloc, cwd, found, budget);
    }
    if command == "make" {
        return Ok(make_in(found, budget));
    }
    Ok(None)
}

fn which_in(alloc: Global, found: &ArgMatches<'_>) -> Result<Option<Asked>, AllocError>
    ensures { IfOk result (λ asked. option_map asked_of asked ≡ spec.which_in (rows found.now)) }
{
    let Some(name) = name_in(alloc, found)? else {
        return Ok(None);
    };
    match context_of(alloc, text_in(found, "from"), text_in(found, "ext"))? {
        Some(context) => Ok(Some(Asked::Which(name, context))),
        None => Ok(None),
    }
}

fn offers_in(alloc: Global, found: &ArgMatches<'_>) -> Result<Option<Asked>, AllocError>
    ensures { IfOk result (λ asked. option_map asked_of asked ≡ option_map spec.offers (spec.name_in (rows found.now))) }
{
    match name_in(alloc, found)? {
        Some(name) => Ok(Some(Asked::Offers(name))),
        None => Ok(None),
    }
}

fn resolve_in(
    alloc: Global,
    cwd: &NormPath,
    found: &ArgMatches<'_>,
) -> Result<Option<Asked>, AllocError>
    ensures { IfOk result (λ asked. option_map asked_of asked ≡ spec.resolve_in cwd.now (rows found.now)) }
{
    let Some(budget) = budget_in(found) else {
        return Ok(None);
    };
    let classes = has_flag(found, "classes");
    match file_in(alloc, cwd, found)? {
        Some(proof) => Ok(Some(Asked::Resolve {
            budget,
            classes,
            proof,
        })),
        None => Ok(None),
    }
}

fn check_in(
    alloc: Global,
    cwd: &NormPath,
    found: &ArgMatches<'_>,
) -> Result<Option<Asked>, AllocError>
    ensures { IfOk result (λ asked. option_map asked_of asked ≡ option_map spec.check (spec.file_in cwd.now (rows found.now))) }
{
    match file_in(alloc, cwd, found)? {
        Some(proof) => Ok(Some(Asked::Check { proof })),
        None => Ok(None),
    }
}

fn status_in(found: &ArgMatches<'_>) -> Asked
    ensures { asked_of result ≡ spec.status (found_spec.has_flag (codes "all") (rows found.now)) (found_spec.has_flag (codes "extensions") (rows found.now)) }
{
    Asked::Status {
        all: has_flag(found, "all"),
        extensions: has_flag(found, "extensions"),
    }
}

fn verify_in(alloc: Global, found: &ArgMatches<'_>) -> Result<Option<Asked>, AllocError>
    ensures { IfOk result (λ asked. option_map asked_of asked ≡ spec.verify_in (rows found.now)) }
{
    let Some(name) = name_in(alloc, found)? else {
        return Ok(None);
    };
    let list = own_text(alloc, text_in(found, "exec"))?;
    Ok(Some(Asked::Verify(name, list)))
}

fn own_text(alloc: Global, text: Option<&str>) -> Result<Option<Text>, AllocError>
    ensures { IfOk result (λ own. own ≡ option_copied text.entry) }
{
    match text {
        Some(text) => Ok(Some(Text::of(alloc, text)?)),
        None => Ok(None),
    }
}

fn add_in(alloc: Global, found: &ArgMatches<'_>, budget: u32) -> Result<Option<Asked>, AllocError>
    ensures { IfOk result (λ asked. option_map asked_of asked
        ≡ option_map (λ words. spec.add words budget) (option_and_then (parts.each parts.package_of) (found_spec.texts_in (codes "WORD") (rows found.now)))) }
{
    let Some(words) = texts_in(found, "WORD") else {
        return Ok(None);
    };
    match packages_of(alloc, words)? {
        Some(words) => Ok(Some(Asked::Add { words, budget })),
        None => Ok(None),
    }
}

fn remove_in(
    alloc: Global,
    found: &ArgMatches<'_>,
    budget: u32,
) -> Result<Option<Asked>, AllocError>
    ensures { IfOk result (λ asked. option_map asked_of asked
        ≡ option_map (λ names. spec.remove names budget) (option_and_then (parts.each parts.name_of) (found_spec.texts_in (codes "NAME") (rows found.now)))) }
{
    let Some(words) = texts_in(found, "NAME") else {
        return Ok(None);
    };
    match names_of(alloc, words)? {
        Some(names) => Ok(Some(Asked::Remove { names, budget })),
        None => Ok(None),
    }
}

fn pin_in(alloc: Global, found: &ArgMatches<'_>, budget: u32) -> Result<Option<Asked>, AllocError>
    ensures { IfOk result (λ asked. option_map asked_of asked
        ≡ option_map (λ pinned. spec.pin pinned.0 pinned.1 budget) (option_and_then parts.pinned_of (found_spec.text_in (codes "WORD") (rows found.now)))) }
{
    let Some(word) = text_in(found, "WORD") else {
        return Ok(None);
    };
    match pinned_of(alloc, word)? {
        Some((name, version)) => Ok(Some(Asked::Pin {
            name,
            version,
            budget,
        })),
        None => Ok(None),
    }
}

fn free_in(alloc: Global, found: &ArgMatches<'_>, budget: u32) -> Result<Option<Asked>, AllocError>
    ensures { IfOk result (λ asked. option_map asked_of asked
        ≡ option_map (λ name. spec.free name budget) (option_and_then parts.name_of (found_spec.text_in (codes "WORD") (rows found.now)))) }
{
    match name_at(alloc, found, "WORD")? {
        Some(name) => Ok(Some(Asked::Free { name, budget })),
        None => Ok(None),
    }
}

fn develop_in(
    alloc: Global,
    cwd: &NormPath,
    found: &ArgMatches<'_>,
    budget: u32,
) -> Result<Option<Asked>, AllocError>
    ensures { IfOk result (λ asked. option_map asked_of asked
        ≡ option_map (λ path. spec.develop path budget) (option_and_then (joined cwd.now) (found_spec.text_in (codes "PATH") (rows found.now)))) }
{
    let Some(text) = text_in(found, "PATH") else {
        return Ok(None);
    };
    match path_of(alloc, cwd, text)? {
        Some(path) => Ok(Some(Asked::Develop { path, budget })),
        None => Ok(None),
    }
}

fn make_in(found: &ArgMatches<'_>, budget: u32) -> Option<Asked>
    ensures { option_map asked_of result
        ≡ option_map (λ number. spec.make number budget) (option_and_then number_meant (found_spec.text_in (codes "NUMBER") (rows found.now))) }
{
    let Some(text) = text_in(found, "NUMBER") else {
        return None;
    };
    match number_of(text) {
        Some(number) => Some(Asked::Make { number, budget }),
        None => None,
    }
}

fn name_in(alloc: Global, found: &ArgMatches<'_>) -> Result<Option<Name>, AllocError>
    ensures { IfOk result (λ name. name ≡ spec.name_in (rows found.now)) }
{
    name_at(alloc, found, "NAME")
}

fn name_at(alloc: Global, found: &ArgMatches<'_>, place: &str) -> Result<Option<Name>, AllocError>
    ensures { IfOk result (λ name. name ≡ option_and_then parts.name_of (found_spec.text_in place.now (rows found.now))) }
{
    match text_in(found, place) {
        Some(word) => name_of(alloc, word),
        None => Ok(None),
    }
}

/// The budget that is given, else the usual one.
fn budget_in(found: &ArgMatches<'_>) -> Option<u32>
    ensures { result ≡ spec.budget_in (rows found.now) }
{
    match text_in(found, "budget") {
        Some(text) => budget_of(text),
        None => Some(USUAL_BUDGET),
    }
}

fn file_in(
    alloc: Global,
    cwd: &NormPath,
    found: &ArgMatches<'_>,
) -> Result<Option<Option<NormPath>>, AllocError>
    ensures { IfOk result (λ file. file ≡ spec.file_in cwd.now (rows found.now)) }
{
    file_of(alloc, cwd, text_in(found, "proof"))
}
