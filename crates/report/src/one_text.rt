//! A law of the report, the contract of a function that does nothing.
ghost use Rattle.report.specs.OneText.{OneText};

/// The bytes of a report are determined by the march, the memory and the items: a verdict is one or the other, and the least
/// escape of an item is one array in one choice of directions.
pub fn report_is_one()
    ensures { OneText }
{}
