//! A written selection is read back.
ghost use Rattle.written_selection.specs.Laws as law;

use manifest_writing::{selection_is_said, stanzas_say_offers};
use offer_book::laws::feasible_alike;
use offer_catalog::laws::last_stanza_is_selected;

/// What the manifest of a selection selects is that selection, by whatever catalog it is read: for each selection whose versions
/// the book offers and that has neither Julia nor the project's own package, and so for each one that is feasible over a
/// gathered book.
pub fn written_is_selected()
    ensures each { law.WrittenIsSelected }
    ensures feasible { law.FeasibleIsSelected }
{
    selection_is_said();
    stanzas_say_offers();
    last_stanza_is_selected();
    feasible_alike();
}
