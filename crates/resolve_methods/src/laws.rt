//! Laws over the definitions of what the methods decide.
ghost use Rattle.resolve_methods.specs.Laws.{GreaterNumberStays, LesserNumberStays, EitherSideEndsTheSame, AmountsAddInAnyOrder, MeanIsTheSameFromEitherSide, OrderIsIgnored};

/// Latest and maximum leave the greater of the new and the current number.
pub fn greater_number_stays()
    ensures { GreaterNumberStays }
{}

/// Earliest and minimum leave the lesser of the new and the current number.
pub fn lesser_number_stays()
    ensures { LesserNumberStays }
{}

/// By latest, maximum, earliest and minimum two rows that each get the other's number end with the same one.
pub fn either_side_ends_the_same()
    ensures { EitherSideEndsTheSame }
{}

/// By additive, amounts in every order lead to the same number, where each sum lies in range.
pub fn amounts_add_in_any_order()
    ensures { AmountsAddInAnyOrder }
{}

/// By average the number that is taken doesn't depend on which of the two is the new one.
pub fn mean_is_the_same_from_either_side()
    ensures { MeanIsTheSameFromEitherSide }
{}

/// Overwrite takes the new values and discard keeps the current ones, however they compare.
pub fn order_is_ignored()
    ensures { OrderIsIgnored }
{}
