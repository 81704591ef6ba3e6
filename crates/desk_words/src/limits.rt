//! The limits in words.

use rep_values::Limit;

/// How many there may be, as in `8 masters, late ones too`.
pub fn limit_text(limit: Limit) -> &'static str {
    match limit {
        Limit::Masters => "8 masters, late ones too",
        Limit::Snapshots => "8 snapshot sites",
        Limit::Tables => "32 tables of both kinds",
        Limit::Columns => "32 columns of a table, or 30 of a table of procedures",
        Limit::Keys => "4 key columns of a table",
        Limit::Methods => "16 methods of a group or a constraint",
        Limit::Constraints => "8 constraints of a table",
        Limit::Levels => "1000 levels of a priority group",
        Limit::Statements => "1000 statements or calls of a block",
        Limit::Checks => "8 checks of a table",
        Limit::Sessions => "8 sessions of a live part",
    }
}
