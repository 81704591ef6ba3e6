//! The directions between sites, as far as a script's lines set them: whether one is up, and the fates of its next packets.

use net_plan::Fate;
use rep_lists::NoMemory;
use rep_values::SiteName;
use script_parse::{Command, Link};
use std::alloc::Global;
use std::collections::VecDeque;

/// A direction from a site to another one.
#[derive(Drop)]
struct Way {
    from: SiteName,
    to: SiteName,
    is_up: bool,
    fates: VecDeque<Fate>,
}

impl Way {
    /// Whether it goes from one of these sites to the other.
    fn is_between(&self, from: &SiteName, to: &SiteName) -> bool {
        self.from.is_same(from) && self.to.is_same(to)
    }
}

/// Appends fates to those of a direction.
fn push_fates(left: &mut VecDeque<Fate>, fates: &[Fate]) -> Result<(), NoMemory> {
    for fate in fates {
        left.push_back(*fate)?;
    }
    Ok(())
}

/// The directions of which a line has told something.
#[derive(Drop)]
pub struct Ways {
    ways: Vec<Way>,
}

impl Ways {
    /// All directions are up, and all packets pass.
    pub fn new(alloc: Global) -> Ways {
        Ways {
            ways: Vec::new(alloc),
        }
    }

    fn place_of(&self, from: &SiteName, to: &SiteName) -> Option<usize> {
        self.ways.iter().position(|way| way.is_between(from, to))
    }

    /// Adds a direction that is up, and answers its place.
    fn add(&mut self, alloc: Global, from: &SiteName, to: &SiteName) -> Result<usize, NoMemory> {
        let place = self.ways.len();
        self.ways.push(Way {
            from: *from,
            to: *to,
            is_up: true,
            fates: VecDeque::new(alloc),
        })?;
        Ok(place)
    }

    /// The place of a direction, which is added where no line has told of it.
    fn place_for(
        &mut self,
        alloc: Global,
        from: &SiteName,
        to: &SiteName,
    ) -> Result<usize, NoMemory> {
        match self.place_of(from, to) {
            Some(place) => Ok(place),
            None => self.add(alloc, from, to),
        }
    }

    /// Whether the direction is up.
    pub fn is_up(&self, from: &SiteName, to: &SiteName) -> bool {
        match self.ways.iter().find(|way| way.is_between(from, to)) {
            Some(way) => way.is_up,
            None => true,
        }
    }

    /// Takes the fate of the next packet of the direction at a place.
    fn take_at(&mut self, place: usize) -> Fate {
        match self.ways.get_mut(place) {
            Some(way) => way.fates.pop_front().unwrap_or(Fate::Pass),
            None => Fate::Pass,
        }
    }

    /// Takes the fate of the direction's next packet.
    pub fn take_fate(&mut self, from: &SiteName, to: &SiteName) -> Fate {
        match self.place_of(from, to) {
            Some(place) => self.take_at(place),
            None => Fate::Pass,
        }
    }

    /// Takes the fate of the direction's next packet, if the direction is up.
    pub fn take_if_up(&mut self, from: &SiteName, to: &SiteName) -> Option<Fate> {
        if self.is_up(from, to) {
            Some(self.take_fate(from, to))
        } else {
            None
        }
    }

    /// A direction is up or down from now on.
    fn set_link(
        &mut self,
        alloc: Global,
        from: &SiteName,
        to: &SiteName,
        is_up: bool,
    ) -> Result<(), NoMemory> {
        let place = self.place_for(alloc, from, to)?;
        if let Some(way) = self.ways.get_mut(place) {
            way.is_up = is_up;
        }
        Ok(())
    }

    /// Further fates of a direction.
    fn add_fates(
        &mut self,
        alloc: Global,
        from: &SiteName,
        to: &SiteName,
        fates: &[Fate],
    ) -> Result<(), NoMemory> {
        let place = self.place_for(alloc, from, to)?;
        match self.ways.get_mut(place) {
            Some(way) => push_fates(&mut way.fates, fates),
            None => Ok(()),
        }
    }

    /// All further packets of a direction pass.
    fn clear_fates(&mut self, from: &SiteName, to: &SiteName) {
        for way in self.ways.iter_mut() {
            if way.is_between(from, to) {
                way.fates.clear();
            }
        }
    }

    /// What a line that was done says of directions.
    pub fn done(&mut self, alloc: Global, command: &Command) -> Result<(), NoMemory> {
        if let Command::Link { from, to, link } = command {
            return self.set_link(alloc, from, to, *link == Link::Up);
        }
        if let Command::Fates { from, to, fates } = command {
            return self.add_fates(alloc, from, to, fates.as_slice());
        }
        if let Command::ClearFates { from, to } = command {
            self.clear_fates(from, to);
        }
        Ok(())
    }
}
