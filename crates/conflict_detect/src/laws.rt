//! Laws over the definitions of calls and of what is found of a row.
ghost use Rattle.conflict_detect.specs.Laws.{CallsOfChangesFit, PartsLeadToTheRowAfter, RowsBeforeMatch, RowsDifferInSomeGroup, FoundGroupsTell};

/// The call of a changed row fits the schema.
pub fn calls_of_changes_fit()
    ensures { CallsOfChangesFit }
{}

/// Where nothing is to be settled, an update made of a changed row leads from the row before to the row after.
pub fn parts_lead_to_the_row_after()
    ensures { PartsLeadToTheRowAfter }
{}

/// The row before a change matches the call of the change.
pub fn rows_before_match()
    ensures { RowsBeforeMatch }
{}

/// Of two rows with one key that are not the same, some group differs.
pub fn rows_differ_in_some_group()
    ensures { RowsDifferInSomeGroup }
{}

/// The groups found for an update are those of the parts whose old values the row hasn't.
pub fn found_groups_tell()
    ensures { FoundGroupsTell }
{}
