//! Packets on their way between two sites, and what became of them.

use rep_values::SiteName;

/// What is sent: transactions of rows, by `push`, or of calls, by `push-calls`.
#[derive(Clone, Copy, Debug, PartialEq, Eq)]
pub enum Traffic {
    Rows,
    Calls,
}

/// What a packet carries.
#[derive(Clone, Copy, Debug, PartialEq, Eq)]
pub enum Cargo {
    /// The transaction at a position of the stream from its site to the other one.
    Transaction(u64),
    /// The low-water mark of the site that it goes to.
    Mark(u64),
}

/// Whether what came had come before. A mark never had.
#[derive(Clone, Copy, Debug, PartialEq, Eq)]
pub enum Coming {
    New,
    Again,
}

/// What became of a packet.
#[derive(Clone, Copy, Debug, PartialEq, Eq)]
pub enum Fared {
    /// It came.
    Came(Coming),
    /// It came twice, the first time so.
    Twice(Coming),
    /// It was lost on the way.
    Lost,
    /// It is held on the way.
    Held,
    /// It had been held, and came.
    Released(Coming),
    /// It is a mark, and the way back was down.
    CutOff,
}

/// A packet on its way between two sites.
#[derive(Clone, Copy, Debug, PartialEq, Eq)]
pub struct Packet {
    pub traffic: Traffic,
    pub from: SiteName,
    pub to: SiteName,
    pub cargo: Cargo,
    pub fared: Fared,
}
