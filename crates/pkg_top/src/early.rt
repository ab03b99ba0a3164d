//! What is refused by the words alone.
ghost use Rattle.std.specs.Prelude.{◌≡◌, Some, IfErr};
ghost use Rattle.command_words.specs.Seen.{texts};
ghost use Rattle.pkg_top.specs.Due.{AsksFor};
ghost use Rattle.command_answers.specs.Answers.{RefusesEarly, IsUnprinted};

use command_answers::Status;
use command_words::{Asked, read_words};
use pkg_world::{NormPath, Text};
use std::alloc::Global;

/// What the words ask for at a folder, or why they are refused.
pub(crate) fn asked_for(alloc: Global, cwd: &NormPath, words: &[String]) -> Result<Asked, Status>
    ensures asked { AsksFor cwd.now (texts words.now) result }
    ensures unprinted { IfErr result IsUnprinted }
{
    match read_words(alloc, cwd, words) {
        Ok(Asked::BadWords(word)) => Err(Status::BadWords(word)),
        Ok(Asked::Make { .. }) => Err(not_built(alloc, "make")),
        Ok(asked) => Ok(asked),
        Err(_) => Err(Status::Memory),
    }
}

/// The refusal of a command that this version does not have yet.
fn not_built(alloc: Global, command: &str) -> Status
    ensures refusal { RefusesEarly (Some (Status.NotBuilt command.now)) result }
    ensures unprinted { IsUnprinted result }
{
    match Text::of(alloc, command) {
        Ok(word) => Status::NotBuilt(word),
        Err(_) => Status::Memory,
    }
}
