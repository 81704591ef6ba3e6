//! What sorting a journal changes of a site. The function is empty: its contract is the law.
ghost use Rattle.journal_sort.specs.Sorting.{SortingChangesNoMore};

/// Where the entries from a place on finish positions of one master, and those that share a token stand in order, sorting
/// them changes nothing of the site but the order of these entries.
pub fn sorting_changes_no_more()
    ensures { SortingChangesNoMore }
{}
