//! What stands in the matches of `clap`.
ghost use Rattle.std.specs.Prelude.{◌≡◌, map, option_map};
ghost use Rattle.std.specs.Option.{option_copied};
ghost use Rattle.command_words.specs.Found as spec;
ghost use Rattle.command_words.specs.Seen.{rows};

use clap::ArgMatches;

/// The first value under a name.
#[tactic(auto, using(crate::proofs::Rows::text_by_rows))]
pub(crate) fn text_in<'a>(found: &ArgMatches<'a>, name: &str) -> Option<&'a str>
    ensures { option_copied result ≡ spec.text_in name.now (rows found.now) }
{
    found.get_str(name)
}

/// Whether a flag is given.
pub(crate) fn has_flag(found: &ArgMatches<'_>, name: &str) -> bool
    ensures { result ≡ spec.has_flag name.now (rows found.now) }
{
    match text_in(found, name) {
        Some(text) => text == "true",
        None => false,
    }
}

/// The values under a name.
#[tactic(auto, using(crate::proofs::Rows::texts_by_rows))]
pub(crate) fn texts_in<'m, 'a>(found: &'m ArgMatches<'a>, name: &str) -> Option<&'m [&'a str]>
    ensures { option_map (λ texts. map (λ text. text.now) texts.now) result ≡ spec.texts_in name.now (rows found.now) }
{
    found.get_strs(name)
}
