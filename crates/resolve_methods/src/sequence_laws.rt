//! Laws over the definitions of what the method sequences of convergent groups decide.
ghost use Rattle.resolve_methods.specs.SequenceLaws.{MoveIsAdded, MovesAreTaken, MovesAddUp, MovesAddInAnyOrder, GreatestStays, LeastStays, GreaterRankStays, NewRankIsThePartsOwn};

/// Additive adds what a part moves to the row's number, where the sum stays in range; else it decides Range.
pub fn move_is_added()
    ensures { MoveIsAdded }
{}

/// Additive takes each of several parts, one after the other, where each sum stays in range.
pub fn moves_are_taken()
    ensures { MovesAreTaken }
{}

/// Parts that additive takes one after the other leave the row's number and all that they move.
pub fn moves_add_up()
    ensures { MovesAddUp }
{}

/// They leave the same number in every order.
pub fn moves_add_in_any_order()
    ensures { MovesAddInAnyOrder }
{}

/// By maximum and discard the greater number stays, and no part is refused or left open.
pub fn greatest_stays()
    ensures { GreatestStays }
{}

/// By minimum and discard the lesser number stays, and no part is refused or left open.
pub fn least_stays()
    ensures { LeastStays }
{}

/// By latest and site-priority the values stay that have the greater stamp, and of the same stamp the higher level.
pub fn greater_rank_stays()
    ensures { GreaterRankStays }
{}

/// A part of a group that has the stamp and the site is ranked by its own new values, whatever the row has.
pub fn new_rank_is_the_parts_own()
    ensures { NewRankIsThePartsOwn }
{}
