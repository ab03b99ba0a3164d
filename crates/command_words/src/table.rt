//! What a command takes behind its word, and what the crate `clap` finds in words by it.
ghost use Rattle.std.specs.Prelude.{◌≡◌, ◌++◌, ◌∷◌, [], true, IfOk, map, option_map, false, None};
ghost use Rattle.clap.specs.Words.{app_of, found_of, is_simple_and_free, kind_of, rows_of, rule_of, with_rule};
ghost use Rattle.clap.specs.declared.error.kind.ErrorKind.TheVariants.{OutOfMemory};
ghost use Rattle.command_words.specs.Table as spec;
ghost use Rattle.command_words.specs.Seen.{entry_of, rows, texts};

use clap::error::ErrorKind;
use clap::{Arg, ArgAction, ArgMatches, Command, Error};
use std::alloc::{AllocError, Global};

/// One entry of a command's table.
#[derive(Clone, Copy, Debug)]
pub(crate) enum Entry {
    /// A positional word, which has to be there.
    One(&'static str),
    /// Such words, one or more.
    Several(&'static str),
    /// `--NAME VALUE` or `--NAME=VALUE`, at most once.
    Valued(&'static str),
    /// `--NAME`, at most once.
    Flag(&'static str),
}

/// What `clap` finds in the words behind a command word; None where the definition that the table makes refuses them.
/// The one error is want of memory.
pub(crate) fn matched<'a>(
    alloc: Global,
    command: &'a str,
    table: &[Entry],
    words: &'a [String],
) -> Result<Option<ArgMatches<'a>>, AllocError>
    requires { is_simple_and_free (spec.definition command.now (map entry_of table.now)) ≡ true }
    ensures { IfOk result (λ found. option_map rows found ≡ spec.matched command.now (map entry_of table.now) (texts words.now)) }
{
    let definition = defined(alloc, command, table)?;
    match definition.try_get_matches_from(words) {
        Ok(found) => Ok(Some(found)),
        Err(error) => refused(&error),
    }
}

/// The answer where `clap` fails: want of memory, or a refusal of the words.
fn refused<'a>(error: &Error) -> Result<Option<ArgMatches<'a>>, AllocError>
    ensures { IfOk result (λ found. (found ≡ None) × (kind_of error.now ≡ OutOfMemory → ⊥)) }
{
    if error.kind() == ErrorKind::OutOfMemory {
        return Err(AllocError);
    }
    Ok(None)
}

/// The command that the table makes: its arguments and nothing else, no program's name and no help flag.
#[tactic(auto, using(crate::proofs::Rules::rules_at))]
fn defined<'a>(alloc: Global, command: &'a str, table: &[Entry]) -> Result<Command<'a>, AllocError>
    ensures { IfOk result (λ made. app_of made ≡ spec.definition command.now (map entry_of table.now)) }
{
    let mut made = bare(alloc, command);
    for entry in table {
        made = with_entry(alloc, made, *entry)?;
    }
    Ok(made)
}

fn bare<'a>(alloc: Global, command: &'a str) -> Command<'a>
    ensures { app_of result ≡ spec.definition command.now [] }
{
    Command::new(alloc, command)
        .no_binary_name(true)
        .disable_help_flag(true)
}

fn with_entry<'a>(alloc: Global, made: Command<'a>, entry: Entry) -> Result<Command<'a>, AllocError>
    ensures { IfOk result (λ next. app_of next ≡ with_rule (app_of made.entry) (spec.rule (entry_of entry))) }
{
    made.arg(argument(alloc, entry))
}

/// The argument for an entry.
fn argument(alloc: Global, entry: Entry) -> Arg<'static>
    ensures rule { rule_of result ≡ spec.rule (entry_of entry) }
    ensures own { result.global ≡ false }
{
    match entry {
        Entry::One(name) => Arg::new(alloc, name).required(true),
        Entry::Several(name) => Arg::new(alloc, name).required(true).num_args(1..),
        Entry::Valued(name) => Arg::new(alloc, name).long(name).action(ArgAction::Set),
        Entry::Flag(name) => Arg::new(alloc, name).long(name).action(ArgAction::SetTrue),
    }
}
