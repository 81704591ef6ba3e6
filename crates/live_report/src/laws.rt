//! The law of what is printed. The function is empty: its contract is the law.
ghost use Rattle.live_report.specs.PartLaws.{PrintedPartsAreKnown};

/// From a known site with rising queue numbers, bytes that begin with what is printed of a live part tell which turns it had, as
/// lines and as JSON, where origins have names and numbers fit 64 bits. What stands before and behind these bytes isn't said.
pub fn printed_parts_are_known()
    ensures { PrintedPartsAreKnown }
{}
