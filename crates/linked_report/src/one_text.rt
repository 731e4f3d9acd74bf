//! Laws of the report, the contracts of functions that do nothing.
ghost use Rattle.linked_report.specs.OneText.{OneLinkedText};
ghost use Rattle.linked_report.specs.Places.{PlacesAreNamed};

/// The bytes of a report are determined by the march: a verdict is one or the other, and the least escape of a link is one
/// array in one choice of directions.
pub fn linked_report_is_one()
    ensures { OneLinkedText }
{}

/// An escape's line names the cell of the first primitive's aggressor, that of the second's, and the victim's.
pub fn places_are_named()
    ensures { PlacesAreNamed }
{}
