//! The net between sites.
ghost use Rattle.std.specs.Prelude.{◌≡◌, ◌<◌, length, IfOk, OnOk, OnErr};
ghost use Rattle.net_plan.specs.Directions.{net_of, HasDirection, place_between, at_direction, is_up, first_between, with_link, with_fates, without_fates, with_sent, released, delivered};

use crate::Fate;
use crate::direction::Direction;
use packet_code::Sealed;
use rep_lists::NoMemory;
use rep_values::SiteName;
use std::alloc::Global;
use std::marker::Model;

/// The directions between sites. The pair of each call but `make` is one of those that were given to `make`.
#[derive(Drop)]
pub struct Net {
    directions: Vec<Direction>,
}

impl Model for Net {
    ghost use Rattle.std.specs.Prelude.{List};
    ghost use Rattle.net_plan.specs.Directions.{Direction as DirectionValue};

    ghost Value = { List DirectionValue };

    ghost view = { λ n. n.directions.items };
}

/// The place of the direction between these sites, the first one where two are between them.
fn place_of(directions: &[Direction], from: &SiteName, to: &SiteName) -> usize
    requires { HasDirection directions.now from.now to.now }
    ensures place { result ≡ place_between from.now to.now directions.now }
    ensures within { result < length directions.now }
{
    for place in 0..directions.len() {
        if directions[place].is_between(from, to) {
            return place;
        }
    }
    unreachable!()
}

impl Net {
    /// Every direction is up and empty.
    pub fn make(alloc: Global, pairs: &[(SiteName, SiteName)]) -> Result<Net, NoMemory>
        ensures { IfOk result (λ net. net ≡ net_of pairs.now) }
    {
        let directions = pairs
            .iter()
            .map(|pair| Direction::new(alloc, pair.0, pair.1))
            .collect(alloc)?;
        Ok(Net { directions })
    }

    /// Sets the word of a direction. It takes no memory.
    pub fn set_link(&mut self, from: &SiteName, to: &SiteName, up: bool)
        requires { HasDirection self.old from.now to.now }
        ensures { self.new ≡ at_direction from.now to.now (with_link up) self.old }
    {
        let place = place_of(&self.directions, from, to);
        self.directions[place].set_link(up);
    }

    /// The word of a direction.
    pub fn is_up(&self, from: &SiteName, to: &SiteName) -> bool
        requires { HasDirection self.now from.now to.now }
        ensures { result ≡ is_up from.now to.now self.now }
    {
        let place = place_of(&self.directions, from, to);
        self.directions[place].is_up()
    }

    /// Adds fates for the packets to come, behind those that are left.
    pub fn add_fates(
        &mut self,
        from: &SiteName,
        to: &SiteName,
        fates: &[Fate],
    ) -> Result<(), NoMemory>
        requires { HasDirection self.old from.now to.now }
        ensures ok { OnOk result (self.new ≡ at_direction from.now to.now (with_fates fates.now) self.old) }
        ensures err { OnErr result (self.new ≡ self.old) }
    {
        let place = place_of(&self.directions, from, to);
        self.directions[place].add_fates(fates)
    }

    /// Lets go of the fates that are left. It takes no memory, and held packets stay.
    pub fn clear_fates(&mut self, from: &SiteName, to: &SiteName)
        requires { HasDirection self.old from.now to.now }
        ensures { self.new ≡ at_direction from.now to.now without_fates self.old }
    {
        let place = place_of(&self.directions, from, to);
        self.directions[place].clear_fates();
    }

    /// Puts the held packets on the way, in the order in which they were held.
    pub fn release(&mut self, from: &SiteName, to: &SiteName) -> Result<(), NoMemory>
        requires { HasDirection self.old from.now to.now }
        ensures ok { OnOk result (self.new ≡ at_direction from.now to.now released self.old) }
        ensures err { OnErr result (self.new ≡ self.old) }
    {
        let place = place_of(&self.directions, from, to);
        self.directions[place].release()
    }

    /// Sends a packet, which takes the direction's next fate. The word plays no part.
    pub fn send(
        &mut self,
        alloc: Global,
        from: &SiteName,
        to: &SiteName,
        packet: Sealed,
    ) -> Result<(), NoMemory>
        requires { HasDirection self.old from.now to.now }
        ensures ok { OnOk result (self.new ≡ at_direction from.now to.now (with_sent packet) self.old) }
        ensures err { OnErr result (self.new ≡ self.old) }
    {
        let place = place_of(&self.directions, from, to);
        self.directions[place].send(alloc, packet)
    }

    /// Takes the first packet on the way; None exactly where there is none. It takes no memory.
    pub fn deliver(&mut self, from: &SiteName, to: &SiteName) -> Option<Sealed>
        requires { HasDirection self.old from.now to.now }
        ensures value { result ≡ first_between from.now to.now self.old }
        ensures kept { self.new ≡ at_direction from.now to.now delivered self.old }
    {
        let place = place_of(&self.directions, from, to);
        self.directions[place].deliver()
    }
}
