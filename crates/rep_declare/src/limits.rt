//! How many of each thing a schema may have.

/// Master sites.
pub(crate) const MOST_MASTERS: usize = 8;

/// Snapshot sites.
pub(crate) const MOST_SNAPSHOTS: usize = 8;

/// Tables.
pub(crate) const MOST_TABLES: usize = 32;

/// Columns of a table.
pub(crate) const MOST_COLUMNS: usize = 32;

/// Key columns of a table.
pub(crate) const MOST_KEYS: usize = 4;

/// Methods of a group or of a constraint, the key's among them.
pub(crate) const MOST_METHODS: usize = 16;

/// Secondary constraints of a table.
pub(crate) const MOST_CONSTRAINTS: usize = 8;

/// Levels of a priority group.
pub(crate) const MOST_LEVELS: usize = 1_000;

/// Checks of a table.
pub(crate) const MOST_CHECKS: usize = 8;
