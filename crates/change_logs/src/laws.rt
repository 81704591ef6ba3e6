//! What holds of the snapshots of a site.
ghost use Rattle.change_logs.specs.Noted.{LentReturn, PendingKeysRise, TouchedKeysRise};

/// Once its query is back, a snapshot that was lent is as it was. Where its touched keys rise, so do its pending ones, and
/// they go on to rise while changed rows are noted.
pub fn snapshot_laws()
    ensures lent { LentReturn }
    ensures pending { PendingKeysRise }
    ensures touched { TouchedKeysRise }
{}
