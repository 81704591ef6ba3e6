//! What a declaration does to a table that may have rows.
ghost use Rattle.std.specs.Prelude.{◌≡◌};
ghost use Rattle.rep_declare.specs.Shaping.{table_shaped};

use crate::Declare;
use rep_values::TableName;

/// The table whose shape a declaration changes. None for a declaration of the table itself, which has no rows yet.
pub fn table_shaped(declaration: &Declare) -> Option<TableName>
    ensures { result ≡ table_shaped declaration.now }
{
    match declaration {
        Declare::Group { table, .. }
        | Declare::Method { table, .. }
        | Declare::Unique { table, .. }
        | Declare::UniqueMethod { table, .. }
        | Declare::Check { table, .. }
        | Declare::Convergent { table } => Some(*table),
        Declare::Site { .. }
        | Declare::LateSite { .. }
        | Declare::SnapSite { .. }
        | Declare::Table { .. }
        | Declare::Priority { .. }
        | Declare::SiteLevel { .. } => None,
    }
}
