//! What is noted of the streams of a site to its destinations.
ghost use Rattle.std.specs.Prelude.{◌≡◌, ◌≢◌, ◌↔◌, ◌+◌, ◌≤◌, List, [], ◌∷◌, length, map, IsTrue, IfOk, OnOk};
ghost use Rattle.rep_values.specs.declared.name.SiteName.{SiteName};
ghost use Rattle.dependency_index.specs.declared.token.Token.{Token};
ghost use Rattle.dependency_index.specs.Dependencies.{dependency_number, noted_count, room_for, IsIndexed, IsNoted};

use crate::stream::Stream;
use crate::streams::{new_each, place_to, promise_each, reserve_each, rooms_with, sum_of};
use crate::{Token, Tokens};
use indexmap::IndexSet;
use rep_lists::NoMemory;
use rep_values::SiteName;
use std::alloc::Global;
use std::marker::Model;

/// Each token that is noted, once, and of each the last position of each stream that has it.
#[derive(Drop)]
pub struct Index {
    tokens: IndexSet<Token>,
    streams: Vec<Stream>,
}

impl Model for Index {
    ghost use Rattle.indexmap.specs.IndexSet.{spare};
    ghost use Rattle.dependency_index.specs.Dependencies.{NotedIndex};
    ghost use Rattle.dependency_index.specs.Columns.{columns_of, noted_streams, IsTokenIndex};

    ghost Value = { NotedIndex };

    ghost view = { λ i. record { streams = noted_streams i.tokens.keys (columns_of i.streams.items) } };

    ghost invariant = { λ i. IsTokenIndex i.tokens.keys (spare i.tokens) i.streams.items };
}

impl Index {
    /// Nothing is noted yet.
    pub fn make(alloc: Global, destinations: &[SiteName]) -> Result<Index, NoMemory>
        ensures noted { IfOk result (λ index. (site : SiteName) → IsNoted index.streams site []) }
        ensures destinations { IfOk result (λ index. map (λ s. s.kept.site) index.streams ≡ destinations.now) }
    {
        let streams = new_each(alloc, destinations)?;
        Ok(Index {
            tokens: IndexSet::new(alloc),
            streams,
        })
    }

    /// Whether a site is a destination.
    pub fn is_indexed(&self, site: &SiteName) -> bool
        ensures { IsTrue result ↔ IsIndexed self.now.streams site.now }
    {
        place_to(&self.streams, site).is_some()
    }

    /// How many positions of the stream to a site are noted, 0 where it is no destination.
    pub fn count(&self, site: &SiteName) -> u64
        ensures { result ≡ noted_count self.now.streams site.now }
    {
        match place_to(&self.streams, site) {
            Some(place) => self.streams[place].count(),
            None => 0,
        }
    }

    /// Takes the room to note these tokens once for every destination.
    pub fn reserve(&mut self, tokens: &Tokens) -> Result<(), NoMemory>
        ensures ok { OnOk result ((site : SiteName) → IsIndexed self.old.streams site → length tokens.now.list ≤ room_for self.new.streams site) }
        ensures noted { (site : SiteName) (stream : List (List Token)) → IsNoted self.old.streams site stream → IsNoted self.new.streams site stream }
        ensures destinations { map (λ s. s.kept.site) self.new.streams ≡ map (λ s. s.kept.site) self.old.streams }
        ensures room { (site : SiteName) → room_for self.old.streams site ≤ room_for self.new.streams site }
    {
        let size = tokens.list.len();
        let rooms = rooms_with(&self.streams, size)?;
        self.tokens.reserve(rooms)?;
        let places = sum_of(self.tokens.len(), rooms)?;
        reserve_each(&mut self.streams, places)?;
        promise_each(&mut self.streams, size);
        Ok(())
    }

    /// Notes a transaction's tokens at the next position of the stream to a site, and answers the greatest earlier
    /// position that shares one, or 0. It takes no memory.
    pub fn note(&mut self, to: &SiteName, position: u64, tokens: &Tokens) -> u64
        requires destination { IsIndexed self.old.streams to.now }
        requires position { position ≡ noted_count self.old.streams to.now + 1 }
        requires room { length tokens.now.list ≤ room_for self.old.streams to.now }
        ensures dependency { (stream : List (List Token)) → IsNoted self.old.streams to.now stream → result ≡ dependency_number tokens.now.list stream }
        ensures noted { (stream : List (List Token)) → IsNoted self.old.streams to.now stream → IsNoted self.new.streams to.now (tokens.now.list ∷ stream) }
        ensures others { (site : SiteName) (stream : List (List Token)) → to.now ≢ site → IsNoted self.old.streams site stream → IsNoted self.new.streams site stream }
        ensures room { room_for self.old.streams to.now ≤ room_for self.new.streams to.now + length tokens.now.list }
        ensures other_room { (site : SiteName) → to.now ≢ site → room_for self.new.streams site ≡ room_for self.old.streams site }
        ensures destinations { map (λ s. s.kept.site) self.new.streams ≡ map (λ s. s.kept.site) self.old.streams }
    {
        let Some(place) = place_to(&self.streams, to) else {
            unreachable!()
        };
        let stream = &mut self.streams[place];
        stream.note(&mut self.tokens, position, tokens.list.as_slice())
    }
}
