//! Laws over the settling of uniqueness. The functions are empty: their contracts are the laws.
ghost use Rattle.unique_resolve.specs.Laws.{SettledRowsCanBePut, FreeRowsStayThemselves, CountersStayCounters, SettledTextsGrow, CountersNeverFall, OtherCountersStandStill, CountersStandStillWithoutSequences};

/// A row that comes out of a settlement fits its table, keeps its key and is unique.
pub fn settled_rows_can_be_put()
    ensures { SettledRowsCanBePut }
{}

/// A row that violates nothing is settled as itself, and no counter moves.
pub fn free_rows_stay_themselves()
    ensures { FreeRowsStayThemselves }
{}

/// After a settlement there is still a counter for each constraint.
pub fn counters_stay_counters()
    ensures { CountersStayCounters }
{}

/// Settling changes no value but texts in constraints, outside the key, and puts bytes behind each of these.
pub fn settled_texts_grow()
    ensures { SettledTextsGrow }
{}

/// No settlement lets a counter fall.
pub fn counters_never_fall()
    ensures { CountersNeverFall }
{}

/// The counters of other tables stand still.
pub fn other_counters_stand_still()
    ensures { OtherCountersStandStill }
{}

/// Where no constraint of the schema has append-sequence, all counters stand still.
pub fn counters_stand_still_without_sequences()
    ensures { CountersStandStillWithoutSequences }
{}
