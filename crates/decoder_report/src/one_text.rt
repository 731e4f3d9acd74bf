//! A law of the report, the contract of a function that does nothing.
ghost use Rattle.decoder_report.specs.OneText.{OneText};

/// The bytes of a report are determined by the march: a verdict is one or the other, and the least escape of a fault is
/// one array in one choice of directions.
pub fn decoder_report_is_one()
    ensures { OneText }
{}
