//! The ways between sites, as the lines of a script leave them.

use crate::packet::Cargo;
use net_plan::Fate;
use rep_lists::NoMemory;
use rep_values::SiteName;
use script_parse::Link;
use std::alloc::Global;
use std::collections::VecDeque;

/// The way from one site to another: the fates of the packets to come, and what is held.
#[derive(Drop)]
pub struct Way {
    from: SiteName,
    to: SiteName,
    fates: VecDeque<Fate>,
    held: VecDeque<Cargo>,
}

impl Way {
    /// A way without fates on which nothing is held. It takes no memory.
    pub fn new(alloc: Global, from: SiteName, to: SiteName) -> Way {
        Way {
            from,
            to,
            fates: VecDeque::new(alloc),
            held: VecDeque::new(alloc),
        }
    }

    /// Whether it goes from one of these sites to the other.
    fn is_between(&self, from: &SiteName, to: &SiteName) -> bool {
        self.from.is_same(from) && self.to.is_same(to)
    }

    /// Adds fates behind those that are left.
    pub fn add_fates(&mut self, fates: &[Fate]) -> Result<(), NoMemory> {
        for fate in fates {
            self.fates.push_back(*fate)?;
        }
        Ok(())
    }

    /// Lets go of the fates that are left.
    pub fn clear_fates(&mut self) {
        self.fates.clear();
    }

    /// The next packet takes its fate.
    pub fn take_fate(&mut self) -> Fate {
        self.fates.pop_front().unwrap_or(Fate::Pass)
    }

    /// Holds what a packet carries.
    pub fn hold(&mut self, cargo: Cargo) -> Result<(), NoMemory> {
        self.held.push_back(cargo)?;
        Ok(())
    }

    /// What is held, the first in front.
    pub fn held(&self) -> &VecDeque<Cargo> {
        &self.held
    }

    /// Lets go of what is held, the first in front.
    pub fn release(&mut self, alloc: Global) -> VecDeque<Cargo> {
        std::mem::replace(&mut self.held, VecDeque::new(alloc))
    }
}

/// The ways of one kind of traffic.
#[derive(Drop)]
pub struct Ways {
    ways: Vec<Way>,
}

impl Ways {
    /// No way was used yet. It takes no memory.
    pub fn new(alloc: Global) -> Ways {
        Ways {
            ways: Vec::new(alloc),
        }
    }

    /// The way from one site to another, if it was used.
    pub fn find(&self, from: &SiteName, to: &SiteName) -> Option<&Way> {
        self.ways.iter().find(|way| way.is_between(from, to))
    }

    /// Takes the way from one site to another out, to be put back.
    pub fn take(&mut self, alloc: Global, from: &SiteName, to: &SiteName) -> Way {
        match self.ways.iter().position(|way| way.is_between(from, to)) {
            Some(place) => self.ways.remove(place),
            None => Way::new(alloc, *from, *to),
        }
    }

    /// Puts a way back.
    pub fn put(&mut self, way: Way) -> Result<(), NoMemory> {
        self.ways.push(way)?;
        Ok(())
    }
}

/// A direction from one site to another.
#[derive(Clone, Copy)]
struct Direction {
    from: SiteName,
    to: SiteName,
}

impl Direction {
    fn is_between(&self, from: &SiteName, to: &SiteName) -> bool {
        self.from.is_same(from) && self.to.is_same(to)
    }
}

/// Which directions are down. All others are up.
#[derive(Drop)]
pub struct Links {
    down: Vec<Direction>,
}

impl Links {
    /// All are up. It takes no memory.
    pub fn new(alloc: Global) -> Links {
        Links {
            down: Vec::new(alloc),
        }
    }

    /// Whether the direction from one site to another is up.
    pub fn is_up(&self, from: &SiteName, to: &SiteName) -> bool {
        !self.down.iter().any(|down| down.is_between(from, to))
    }

    /// Sets a direction up or down.
    pub fn set(&mut self, from: &SiteName, to: &SiteName, link: Link) -> Result<(), NoMemory> {
        match link {
            Link::Up => self.down.retain(|down| !down.is_between(from, to)),
            Link::Down => self.down.push(Direction {
                from: *from,
                to: *to,
            })?,
        }
        Ok(())
    }
}
