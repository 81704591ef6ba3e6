//! What a log holds.
ghost use Rattle.change_logs.specs.LogLaws.{HoldsLastMoments, NotesOneKey, PurgesUpToMarks};

/// A log holds each noted key with its last moment, without those that a later purge reached.
pub fn log_laws()
    ensures last { HoldsLastMoments }
    ensures other { NotesOneKey }
    ensures purged { PurgesUpToMarks }
{}
