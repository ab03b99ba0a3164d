//! What a written manifest says, in the subject's words.
ghost use Rattle.manifest_writing.specs.Laws as law;

/// The stanzas of a written manifest stand in the order of their names and identifiers, each package once.
pub fn stanzas_rise()
    ensures { law.StanzasRise }
{}

/// Of a selection whose versions are offered, a written manifest says of each package the selected version, and nothing of others.
pub fn selection_is_said()
    ensures { law.SelectionIsSaid }
{}

/// What is said of a package is what is offered at its selected version.
pub fn stanzas_say_offers()
    ensures { law.StanzasSayOffers }
{}
