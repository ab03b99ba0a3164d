//! What the words of a command ask for.
ghost use Rattle.std.specs.Prelude.{◌≡◌, ◌∷◌, true, map, IfOk, IfSome, option_map};
ghost use Rattle.clap.specs.Words.{is_simple_and_free};
ghost use Rattle.command_words.specs.Table.{definition};
ghost use Rattle.command_words.specs.Words as spec;
ghost use Rattle.command_words.specs.Seen.{asked_of, entry_of, rows, texts};

use crate::asked::Asked;
use crate::meaning::meaning;
use crate::table::{Entry, matched};
use pkg_world::{NormPath, Text};
use std::alloc::{AllocError, Global};

/// What words ask for at a folder: the command word, and behind it what the crate `clap` reads by the command's table.
/// (own rule)
///
/// | Command | Words |
/// |---|---|
/// | `which` | `NAME`, `--from CTX`, `--ext E` |
/// | `offers` | `NAME` |
/// | `resolve` | `--budget N`, `--classes`, `--proof FILE` |
/// | `check` | `--proof FILE` |
/// | `status` | `--all`, `--extensions` |
/// | `add` | `NAME` or `NAME=UUID`, one or more; `--budget N` |
/// | `rm` | `NAME`, one or more; `--budget N` |
/// | `pin` | `NAME` or `NAME@VERSION`; `--budget N` |
/// | `free` | `NAME`; `--budget N` |
/// | `develop` | `PATH`; `--budget N` |
/// | `verify` | `NAME`, `--exec LIST` |
/// | `make` | `NUMBER`, `--budget N` |
///
/// A name isn't empty and has no `/`, `=`, `@` or space. CTX is `NAME` or `NAME=UUID`, and `--ext` needs the second. N is
/// digits alone, from 1 to 16,777,216, and 131,072 where it isn't given; NUMBER is digits alone, below 2^64. FILE and PATH are
/// relative to the folder. E and LIST are any texts.
///
/// BadWords comes exactly where there is no command word, it is unknown, `clap` refuses the rest by the table, a rule above is
/// broken or a path rises above the root. The one error is want of memory.
pub fn read_words(alloc: Global, cwd: &NormPath, words: &[String]) -> Result<Asked, AllocError>
    ensures { IfOk result (λ asked. asked_of asked ≡ spec.asked cwd.now (texts words.now)) }
{
    match words.split_first() {
        None => Ok(Asked::BadWords(Text::of(alloc, "-")?)),
        Some((command, rest)) => command_words(alloc, cwd, command.as_str(), rest),
    }
}

fn command_words(
    alloc: Global,
    cwd: &NormPath,
    command: &str,
    rest: &[String],
) -> Result<Asked, AllocError>
    ensures { IfOk result (λ asked. asked_of asked ≡ spec.asked cwd.now (command.now ∷ texts rest.now)) }
{
    match words_meant(alloc, cwd, command, rest)? {
        Some(asked) => Ok(asked),
        None => Ok(Asked::BadWords(Text::of(alloc, command)?)),
    }
}

/// What the words behind a command word ask for; None where the command is unknown, `clap` refuses them or a rule is broken.
#[tactic(auto, unfolding(crate::specs::Words::words_meant))]
fn words_meant(
    alloc: Global,
    cwd: &NormPath,
    command: &str,
    rest: &[String],
) -> Result<Option<Asked>, AllocError>
    ensures { IfOk result (λ asked. option_map asked_of asked ≡ spec.words_meant cwd.now command.now (texts rest.now)) }
{
    let Some(entries) = table(command) else {
        return Ok(None);
    };
    match matched(alloc, command, entries, rest)? {
        Some(found) => meaning(alloc, cwd, command, &found),
        None => Ok(None),
    }
}

/// The words that a command takes behind its own; None for an unknown command.
fn table(command: &str) -> Option<&'static [Entry]>
    ensures entries { option_map (λ entries. map entry_of entries.now) result ≡ spec.table command.now }
    ensures simple { IfSome result (λ entries. is_simple_and_free (definition command.now (map entry_of entries.now)) ≡ true) }
{
    if command == "which" {
        return Some(&[
            Entry::One("NAME"),
            Entry::Valued("from"),
            Entry::Valued("ext"),
        ]);
    }
    if command == "offers" {
        return Some(&[Entry::One("NAME")]);
    }
    if command == "resolve" {
        return Some(&[
            Entry::Valued("budget"),
            Entry::Flag("classes"),
            Entry::Valued("proof"),
        ]);
    }
    if command == "check" {
        return Some(&[Entry::Valued("proof")]);
    }
    if command == "status" {
        return Some(&[Entry::Flag("all"), Entry::Flag("extensions")]);
    }
    if command == "add" {
        return Some(&[Entry::Several("WORD"), Entry::Valued("budget")]);
    }
    if command == "rm" {
        return Some(&[Entry::Several("NAME"), Entry::Valued("budget")]);
    }
    if command == "pin" {
        return Some(&[Entry::One("WORD"), Entry::Valued("budget")]);
    }
    if command == "free" {
        return Some(&[Entry::One("WORD"), Entry::Valued("budget")]);
    }
    if command == "develop" {
        return Some(&[Entry::One("PATH"), Entry::Valued("budget")]);
    }
    if command == "verify" {
        return Some(&[Entry::One("NAME"), Entry::Valued("exec")]);
    }
    if command == "make" {
        return Some(&[Entry::One("NUMBER"), Entry::Valued("budget")]);
    }
    None
}
