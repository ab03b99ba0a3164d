//! Laws of versions, each a function with an empty body whose contract is the law.

ghost use Rattle.std.specs.Prelude.{◌≡◌, ◌↔◌, ◌⊎◌, ℕ, List, Ok, Err, true};
ghost use Rattle.std.specs.declared.cmp.Ordering.TheVariants.{Less, Equal};
ghost use Rattle.jl_versions.specs.declared.version.Version.{Version};
ghost use Rattle.jl_versions.specs.Grammar.{Reads, IsVersionText};
ghost use Rattle.jl_versions.specs.Machine.{IsFirstBadOf};
ghost use Rattle.jl_versions.specs.Meant.{version_meant};
ghost use Rattle.jl_versions.specs.Order.{IsBelow};
ghost use Rattle.jl_versions.specs.Printing.{IsVersion, printed};

use crate::version::Version;

/// Comparing versions is Julia's order by lists: the numbers first, then the pre-release, where one
/// is below none, then the build. Equality is equality of values.
pub fn order_is_by_lists()
    ensures below { (v w : Version) → (⟦<Version as Ord>⟧.cmp v w ≡ Less) ↔ IsBelow v w }
    ensures equal { (v w : Version) → (⟦<Version as Ord>⟧.cmp v w ≡ Equal) ↔ (v ≡ w) }
    ensures same { (v w : Version) → (⟦<Version as PartialEq>⟧.eq v w ≡ true) ↔ (v ≡ w) }
{}

/// Of two versions one is below the other, or they are the same; none is below itself, and what is
/// below a version is below those above it.
pub fn order_is_total()
    ensures one_way { (v w : Version) → IsBelow v w ⊎ ((v ≡ w) ⊎ IsBelow w v) }
    ensures strict { (v : Version) → IsBelow v v → ⊥ }
    ensures through { (u v w : Version) → IsBelow u v → IsBelow v w → IsBelow u w }
{}

/// A text means at most one version, and the reading as a function gives it.
pub fn text_means_one_version()
    ensures one { (text : List ℕ) (v w : Version) → Reads text v → Reads text w → v ≡ w }
    ensures meant { (text : List ℕ) (v : Version) → Reads text v → version_meant text ≡ Ok v }
{}

/// What a text means as a function is what the grammar of version texts says of it: the version that
/// it reads as, exactly where it reads as one, and else the length of its longest front that begins a
/// version text.
pub fn meaning_is_the_grammars()
    ensures version { (text : List ℕ) (v : Version) → (version_meant text ≡ Ok v) ↔ Reads text v }
    ensures place { (text : List ℕ) (place : ℕ) → (version_meant text ≡ Err place) ↔ IsFirstBadOf IsVersionText text place }
{}

/// The printed text of a version means that version. So what is printed reads again as it was.
pub fn printed_text_reads_back()
    ensures { (v : Version) → IsVersion v → Reads (printed v) v }
{}
