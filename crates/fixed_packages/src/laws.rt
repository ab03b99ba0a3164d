//! Laws of what is fixed, each a call that does nothing and says the law.
ghost use Rattle.fixed_packages.specs.Consulted.{FixedRestOnFiles};
ghost use Rattle.fixed_packages.specs.Laws.{DepsBeforeWeakBeforeExtras, FirstCandidateCounts};

/// A name has the identifier of the first table that has it, and of an identifier the first candidate counts.
pub fn first_counts()
    ensures names { DepsBeforeWeakBeforeExtras }
    ensures candidates { FirstCandidateCounts }
{}

/// Where files hold the same at the project files of the packages that are fixed, these say the same.
pub fn fixed_rest_on_files()
    ensures { FixedRestOnFiles }
{}
