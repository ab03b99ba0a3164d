//! Laws of catalogs, each a call that does nothing and says the law.
ghost use Rattle.offer_catalog.specs.Consulted.{CatalogRestsOnFiles};
ghost use Rattle.offer_catalog.specs.Laws.{IdsAreThoseNamed, IdsRise, LastStanzaIsSelected, SelectedRise, TreesAreOfLastStanzas};

/// The identifiers under a name are those of that name's packages, libraries and fixed packages, in rising order.
pub fn ids_are_those_named()
    ensures those { IdsAreThoseNamed }
    ensures rising { IdsRise }
{}

/// The selection has of each package that counts what its last stanza says, and of no other, in rising order.
pub fn last_stanza_is_selected()
    ensures last { LastStanzaIsSelected }
    ensures rising { SelectedRise }
{}

/// The tree of a package is that of its last stanza that has one.
pub fn trees_are_of_last_stanzas()
    ensures { TreesAreOfLastStanzas }
{}

/// Where files have the same registries and libraries, and hold the same at the files that make a catalog, the catalog is
/// the same.
pub fn catalog_rests_on_files()
    ensures { CatalogRestsOnFiles }
{}
