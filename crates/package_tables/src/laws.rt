//! Laws of a package's tables, each a call that does nothing and says the law.
ghost use Rattle.package_tables.specs.Clash.{same_id, same_ranges};
ghost use Rattle.package_tables.specs.ClashLaws.{NoClash, ClashIsFirst, RangesAreRead, ClearIdsAreOne, ClearRangesAreOne};
ghost use Rattle.package_tables.specs.RowLaws.{DepsAreGiven, WeakAreGiven, CompatIsGiven};

/// Where no name has two values, a name stands in a version's row with a value exactly where a section that holds the
/// version gives it. Of a dependency no weak one may have the name, neither kind may be Julia, and compat counts on `julia`
/// and on the names of dependencies alone.
pub fn rows_are_given()
    ensures deps { DepsAreGiven }
    ensures weak { WeakAreGiven }
    ensures compat { CompatIsGiven }
{}

/// Tables have no clash exactly where no listed version has two values of one name.
pub fn no_clash_is_one_value()
    ensures ids { NoClash same_id }
    ensures ranges { NoClash same_ranges }
{}

/// A clash is that of the first listed version which has one, there of the least name, with the first entry of that name and
/// the first that differs from it.
pub fn clash_is_first()
    ensures ids { ClashIsFirst same_id }
    ensures ranges { ClashIsFirst same_ranges }
{}

/// Tables without a clash give a version one value of each name: identifiers, and ranges whose bounds are what their texts
/// mean, as those are that were read.
pub fn clear_tables_have_one_value()
    ensures ids { ClearIdsAreOne }
    ensures ranges { ClearRangesAreOne }
    ensures read { RangesAreRead }
{}
