//! Laws of what registries offer, each a call that does nothing and says the law.
ghost use Rattle.package_offers.specs.RegistryOffers.{OffersRise};

/// The offers of a package rise by their versions.
pub fn offers_rise()
    ensures { OffersRise }
{}
