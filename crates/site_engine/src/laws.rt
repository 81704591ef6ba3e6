//! How long the outcome of a work holds. The function is empty: its contract is the law.
ghost use Rattle.site_engine.specs.Working.{OutcomesHoldWhereRowsAreAsTheyWere};

/// As the work of a position ended, so the position ends at the site as it is later, where its transaction arrived as it was and
/// the rows that it names are as they were when the work began.
pub fn outcomes_hold_where_rows_are_as_they_were()
    ensures { OutcomesHoldWhereRowsAreAsTheyWere }
{}
