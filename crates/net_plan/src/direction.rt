//! One direction of a net.
ghost use Rattle.std.specs.Prelude.{◌≡◌, ◌≤◌, ◌+◌, ◌++◌, length, OnOk, OnErr};
ghost use Rattle.std.specs.VecDeque.{deque_len, deque_capacity};
ghost use Rattle.net_plan.specs.Directions.{new_direction, is_between, with_link, with_fates, without_fates, next_fate, with_packet, with_fate_taken, with_sent, released, delivered, first_on_way};

use crate::Fate;
use packet_code::Sealed;
use rep_lists::{Copies, NoMemory};
use rep_values::SiteName;
use std::alloc::Global;
use std::collections::VecDeque;
use std::marker::Model;

/// The way from one site to another: whether it is up, the fates of the packets to come, the packets that are held, and
/// those on the way, the first of each in front.
#[derive(Drop)]
pub(crate) struct Direction {
    from: SiteName,
    to: SiteName,
    up: bool,
    fates: VecDeque<Fate>,
    held: VecDeque<Sealed>,
    on_way: VecDeque<Sealed>,
}

impl Model for Direction {
    ghost use Rattle.net_plan.specs.Directions.{Direction as DirectionValue};

    ghost Value = { DirectionValue };

    ghost view = { λ d. record {
      from = d.from;
      to = d.to;
      up = d.up;
      fates = d.fates.items;
      held = d.held.items;
      on_way = d.on_way.items;
    } };
}

/// Adds fates behind the others, in room that is there.
fn push_each(kept: &mut VecDeque<Fate>, fates: &[Fate])
    requires { deque_len kept.old + length fates.now ≤ deque_capacity kept.old }
    ensures { kept.new.items ≡ kept.old.items ++ fates.now }
{
    for place in 0..fates.len() {
        kept.push_back_reserved(fates[place]);
    }
}

impl Direction {
    /// A direction that is up and empty, which takes no memory.
    pub(crate) fn new(alloc: Global, from: SiteName, to: SiteName) -> Direction
        ensures { result ≡ new_direction from to }
    {
        Direction {
            from,
            to,
            up: true,
            fates: VecDeque::new(alloc),
            held: VecDeque::new(alloc),
            on_way: VecDeque::new(alloc),
        }
    }

    /// Whether this is the direction between these sites.
    pub(crate) fn is_between(&self, from: &SiteName, to: &SiteName) -> bool
        ensures { result ≡ is_between from.now to.now self.now }
    {
        self.from.is_same(from) && self.to.is_same(to)
    }

    /// The word up or down.
    pub(crate) fn is_up(&self) -> bool
        ensures { result ≡ self.now.up }
    {
        self.up
    }

    /// Sets the word.
    pub(crate) fn set_link(&mut self, up: bool)
        ensures { self.new ≡ with_link up self.old }
    {
        self.up = up;
    }

    /// Adds fates behind those that are left.
    pub(crate) fn add_fates(&mut self, fates: &[Fate]) -> Result<(), NoMemory>
        ensures ok { OnOk result (self.new ≡ with_fates fates.now self.old) }
        ensures err { OnErr result (self.new ≡ self.old) }
    {
        self.fates.reserve(fates.len())?;
        push_each(&mut self.fates, fates);
        Ok(())
    }

    /// Lets go of the fates.
    pub(crate) fn clear_fates(&mut self)
        ensures { self.new ≡ without_fates self.old }
    {
        self.fates.clear();
    }

    /// The fate of the packet that is sent next.
    fn next_fate(&self) -> Fate
        ensures { result ≡ next_fate self.now.fates }
    {
        match self.fates.front() {
            Some(fate) => *fate,
            None => Fate::Pass,
        }
    }

    /// Lets go of the next fate, if there is one.
    fn take_fate(&mut self)
        ensures { self.new ≡ with_fate_taken self.old }
    {
        let _ = self.fates.pop_front();
    }

    /// Puts a packet where its fate wants it.
    fn put(&mut self, alloc: Global, fate: Fate, packet: Sealed) -> Result<(), NoMemory>
        ensures ok { OnOk result (self.new ≡ with_packet fate packet self.old) }
        ensures err { OnErr result (self.new ≡ self.old) }
    {
        match fate {
            Fate::Pass => self.on_way.push_back(packet)?,
            Fate::Lose => {}
            Fate::Twice => {
                let again = packet.copy(alloc)?;
                self.on_way.reserve(2)?;
                self.on_way.push_back_reserved(packet);
                self.on_way.push_back_reserved(again);
            }
            Fate::Late => self.held.push_back(packet)?,
        }
        Ok(())
    }

    /// Sends a packet, which takes the next fate.
    pub(crate) fn send(&mut self, alloc: Global, packet: Sealed) -> Result<(), NoMemory>
        ensures ok { OnOk result (self.new ≡ with_sent packet self.old) }
        ensures err { OnErr result (self.new ≡ self.old) }
    {
        let fate = self.next_fate();
        self.put(alloc, fate, packet)?;
        self.take_fate();
        Ok(())
    }

    /// Puts the held packets on the way.
    pub(crate) fn release(&mut self) -> Result<(), NoMemory>
        ensures ok { OnOk result (self.new ≡ released self.old) }
        ensures err { OnErr result (self.new ≡ self.old) }
    {
        self.on_way.append(&mut self.held)?;
        Ok(())
    }

    /// Takes the first packet on the way.
    pub(crate) fn deliver(&mut self) -> Option<Sealed>
        ensures value { result ≡ first_on_way self.old }
        ensures kept { self.new ≡ delivered self.old }
    {
        self.on_way.pop_front()
    }
}
