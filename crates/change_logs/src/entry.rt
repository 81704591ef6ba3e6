//! A key of a log.
ghost use Rattle.std.specs.Prelude.{◌≡◌};

use ordered_keys::Noted;
use rep_values::Key;
use std::marker::Model;

/// The key of a row that was changed, and the last moment at which it was.
#[derive(Drop)]
pub struct LogEntry {
    key: Key,
    moment: u64,
}

impl Model for LogEntry {
    ghost use Rattle.change_logs.specs.LogState.{LoggedKey};

    ghost Value = { LoggedKey };

    ghost view = { λ e. record { key = e.key; moment = e.moment } };
}

impl LogEntry {
    pub(crate) fn of(key: Key, moment: u64) -> LogEntry
        ensures { result ≡ record { key = key; moment = moment } }
    {
        LogEntry { key, moment }
    }

    /// The key of the row.
    pub fn key(&self) -> &Key
        ensures { result.now ≡ self.now.key }
    {
        &self.key
    }

    /// The master's moment of the last change.
    pub fn moment(&self) -> u64
        ensures { result ≡ self.now.moment }
    {
        self.moment
    }
}

impl Noted for LogEntry {
    ghost key = { λ e. e.key };

    ghost moment = { λ e. e.moment };

    fn blank() -> LogEntry {
        LogEntry {
            key: Key::blank(),
            moment: 0,
        }
    }

    fn key(&self) -> &Key {
        &self.key
    }

    fn moment(&self) -> u64 {
        self.moment
    }
}
