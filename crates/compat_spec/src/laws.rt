//! Laws of specifiers and ranges, each a function with an empty body whose contract is the law.

ghost use Rattle.std.specs.Prelude.{◌≡◌, ◌↔◌, ℕ, List, map, Some, Ok, Err};
ghost use Rattle.jl_versions.specs.Machine.{IsFirstBadOf};
ghost use Rattle.compat_spec.specs.Meant.{specifier_meant, range_meant};
ghost use Rattle.compat_spec.specs.Ranges.{Bounds, range_of, IsRange};
ghost use Rattle.compat_spec.specs.Specifiers.{specifier_of, IsSpecifier};
ghost use Rattle.compat_spec.specs.declared.part.Part.{Part};
ghost use Rattle.compat_spec.specs.Table.{meaning, carets, tildes, others};

/// Each text of the table of specifiers means the intervals that stand there.
pub fn table_of_specifiers()
    ensures carets { map (λ row. meaning row.text) carets ≡ map (λ row. Some row.intervals) carets }
    ensures tildes { map (λ row. meaning row.text) tildes ≡ map (λ row. Some row.intervals) tildes }
    ensures others { map (λ row. meaning row.text) others ≡ map (λ row. Some row.intervals) others }
{}

/// A refused text has one first bad place.
pub fn one_first_bad_place()
    ensures specifier { (text : List ℕ) (a b : ℕ) → IsFirstBadOf IsSpecifier text a → IsFirstBadOf IsSpecifier text b → a ≡ b }
    ensures range { (text : List ℕ) (a b : ℕ) → IsFirstBadOf IsRange text a → IsFirstBadOf IsRange text b → a ≡ b }
{}

/// What a text means as a specifier is what the grammar of specifiers says of it: the parts that it has
/// there, exactly where it is one, and else the length of its longest front that begins one.
pub fn specifier_meaning_is_the_grammars()
    ensures parts { (text : List ℕ) (parts : List Part) → (specifier_meant text ≡ Ok parts) ↔ (specifier_of text ≡ Some parts) }
    ensures place { (text : List ℕ) (place : ℕ) → (specifier_meant text ≡ Err place) ↔ IsFirstBadOf IsSpecifier text place }
{}

/// What a text means as a range is what the grammar of ranges says of it: the bounds that it has there,
/// exactly where it is one, and else the length of its longest front that begins one.
pub fn range_meaning_is_the_grammars()
    ensures bounds { (text : List ℕ) (bounds : Bounds) → (range_meant text ≡ Ok bounds) ↔ (range_of text ≡ Some bounds) }
    ensures place { (text : List ℕ) (place : ℕ) → (range_meant text ≡ Err place) ↔ IsFirstBadOf IsRange text place }
{}
