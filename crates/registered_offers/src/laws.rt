//! Laws of what registries list, each a call that does nothing and says the law.
ghost use Rattle.registered_offers.specs.Consulted.{RegistriesRestOnFiles, TablesRestOnFiles};
ghost use Rattle.registered_offers.specs.MergedLaws.{FirstRowCounts, VersionsRise, RowsAreOfTheirVersions};

/// A version is offered exactly where some tables list it, with its row in the first tables that do.
pub fn first_row_counts()
    ensures { FirstRowCounts }
{}

/// The versions stand in rising order, each once and with a row of its own.
pub fn versions_rise()
    ensures rise { VersionsRise }
    ensures own { RowsAreOfTheirVersions }
{}

/// Where files hold the same at the paths that a reading consults, the reading gives the same.
pub fn readings_rest_on_files()
    ensures registries { RegistriesRestOnFiles }
    ensures tables { TablesRestOnFiles }
{}
