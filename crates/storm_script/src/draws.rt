//! The numbers that a storm draws.
ghost use Rattle.std.specs.Prelude.{◌≡◌, ◌<◌, IfOk};
ghost use Rattle.storm_script.specs.Draws.{next_draw, drawn, state_behind};
ghost use Rattle.storm_script.specs.Rounds.{three_fates, storm_round, behind_round};

use crate::rounds::{add_fated_push, transaction};
use crate::ways::{fate_at, site_at, way_at};
use net_plan::Fate;
use rep_lists::NoMemory;
use script_parse::Command;
use std::alloc::Global;

/// What the next number is made from. At first it is the storm's seed.
#[derive(Clone, Copy, Debug, PartialEq, Eq)]
pub struct Draws {
    pub state: u64,
}

impl Draws {
    // A number below the bound.
    fn draw(&mut self, bound: u64) -> usize
        requires { 0 < bound }
        ensures state { self.new.state ≡ next_draw self.old.state }
        ensures value { result ≡ drawn bound self.new.state }
        ensures within { result < bound }
    {
        self.state = self
            .state
            .wrapping_mul(6_364_136_223_846_793_005)
            .wrapping_add(1_442_695_040_888_963_407);
        ((self.state >> 33) % bound) as usize
    }

    // The fates of three packets.
    fn draw_fates(&mut self) -> [Fate; 3]
        ensures state { self.new.state ≡ state_behind 3 self.old.state }
        ensures value { result ≡ three_fates self.old.state }
    {
        let first = fate_at(self.draw(4));
        let second = fate_at(self.draw(4));
        let third = fate_at(self.draw(4));
        [first, second, third]
    }

    /// The commands of the round of a number, which counts from 1. The numbers are drawn first, whether there is memory or not.
    pub fn round(&mut self, alloc: Global, number: u32) -> Result<Vec<Command>, NoMemory>
        ensures commands { IfOk result (λ commands. commands.items ≡ storm_round number self.old.state) }
        ensures state { self.new.state ≡ behind_round number self.old.state }
    {
        let site = site_at(self.draw(3));
        let id = self.draw(100);
        if number % 10 != 0 {
            return transaction(alloc, number, site, id);
        }
        let way = way_at(self.draw(6));
        let fates = self.draw_fates();
        let mut commands = transaction(alloc, number, site, id)?;
        add_fated_push(alloc, &mut commands, way, &fates)?;
        Ok(commands)
    }
}
