//! Laws over the definitions of the columns that a line names, of what a declaration leaves of the tables, and of levels.
ghost use Rattle.rep_declare.specs.Laws.{PlacesAreThoseOfNamedColumns, LinesPassThatNameFreeColumns, DeclaredTablesAreTables, OneValueGetsTheLevel};

/// The places of named columns rise, and are those at which a column with one of the names stands.
pub fn places_are_those_of_named_columns()
    ensures { PlacesAreThoseOfNamedColumns }
{}

/// A line isn't refused for its columns exactly where each is there and not taken, and none is named twice.
pub fn lines_pass_that_name_free_columns()
    ensures { LinesPassThatNameFreeColumns }
{}

/// The tables are tables of the schema with a declaration too, where the table that it shapes has no rows.
pub fn declared_tables_are_tables()
    ensures { DeclaredTablesAreTables }
{}

/// A declared level is its value's in the priority group of its name, and no other value's level changes.
pub fn one_value_gets_the_level()
    ensures { OneValueGetsTheLevel }
{}
