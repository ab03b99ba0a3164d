//! Laws of words, which come from what `clap` takes.
ghost use Rattle.std.specs.Prelude.{◌≡◌, ◌∷◌, ◌++◌, [], true, None, codes, option_map};
ghost use Rattle.std.specs.Option.{option_and_then};
ghost use Rattle.pkg_world.specs.Path.{Path, joined};
ghost use Rattle.command_words.specs.Parts.{name_of};
ghost use Rattle.command_words.specs.Numbers.{budget_of, usual_budget};
ghost use Rattle.command_words.specs.Table.{Word};
ghost use Rattle.command_words.specs.Words.{words_meant, offers, resolve, develop};

/// Behind `--` a word is positional, whatever it looks like.
pub fn behind_dashes_a_word_is_positional()
    ensures name { (cwd : Path) (word : Word) → words_meant cwd (codes "offers") (codes "--" ∷ word ∷ []) ≡ option_map offers (name_of word) }
    ensures path { (cwd : Path) (word : Word) → words_meant cwd (codes "develop") (codes "--" ∷ word ∷ []) ≡ option_map (λ path. develop path usual_budget) (joined cwd word) }
{}

/// An option may stand before or behind a flag, and a value behind `=` may look like anything.
pub fn options_may_change_places()
    ensures behind { (cwd : Path) (value : Word) → words_meant cwd (codes "resolve") (codes "--classes" ∷ (codes "--budget=" ++ value) ∷ []) ≡ option_map (λ budget. resolve budget true None) (budget_of value) }
    ensures before { (cwd : Path) (value : Word) → words_meant cwd (codes "resolve") ((codes "--budget=" ++ value) ∷ codes "--classes" ∷ []) ≡ option_map (λ budget. resolve budget true None) (budget_of value) }
{}

/// A flag with a value, and a flag or an option that is given twice, are refused.
pub fn repeated_words_are_refused()
    ensures flag { (cwd : Path) → words_meant cwd (codes "status") (codes "--all" ∷ codes "--all" ∷ []) ≡ None }
    ensures option { (cwd : Path) (first second : Word) → words_meant cwd (codes "resolve") ((codes "--budget=" ++ first) ∷ (codes "--budget=" ++ second) ∷ []) ≡ None }
    ensures valued_flag { (cwd : Path) (value : Word) → words_meant cwd (codes "status") ((codes "--all=" ++ value) ∷ []) ≡ None }
{}
