//! What is noted of the stream to one destination.
ghost use Rattle.std.specs.Prelude.{◌≡◌, ◌+◌, ◌<◌, ◌≤◌, length, OnOk};
ghost use Rattle.std.specs.List.{IsDistinct};
ghost use Rattle.indexmap.specs.IndexSet.{spare};
ghost use Rattle.rep_values.specs.Name.{same_bytes};
ghost use Rattle.dependency_index.specs.declared.token.Token.{Token};
ghost use Rattle.dependency_index.specs.Tokens.{is_same_token};
ghost use Rattle.dependency_index.specs.Noting.{greatest_noted};
ghost use Rattle.dependency_index.specs.Columns.{new_lodged, promised, last_of, Notes};

use crate::Token;
use crate::places::note_each;
use indexmap::IndexSet;
use rep_lists::NoMemory;
use rep_values::SiteName;
use std::alloc::Global;
use std::marker::Model;

/// Of the token at each place the last position of one stream that has it, and for how many more tokens there is room.
#[derive(Drop)]
pub(crate) struct Stream {
    site: SiteName,
    count: u64,
    room: usize,
    last: Vec<u64>,
}

impl Model for Stream {
    ghost use Rattle.std.specs.Prelude.{vec_capacity};
    ghost use Rattle.dependency_index.specs.Columns.{Lodged};

    ghost Value = { Lodged };

    ghost view = { λ s. record { column = record { site = s.site; count = s.count; room = s.room; last = s.last.items }; capacity = vec_capacity s.last } };
}

impl Stream {
    /// Nothing is noted, and no memory is taken.
    pub(crate) fn make(alloc: Global, site: SiteName) -> Stream
        ensures { result ≡ new_lodged site }
    {
        Stream {
            site,
            count: 0,
            room: 0,
            last: Vec::new(alloc),
        }
    }

    /// Whether it is the stream to a site.
    pub(crate) fn is_to(&self, site: &SiteName) -> bool
        ensures { result ≡ same_bytes self.now.column.site.0 site.now.0 }
    {
        self.site.0.is_same(&site.0)
    }

    /// How many positions are noted.
    pub(crate) fn count(&self) -> u64
        ensures { result ≡ self.now.column.count }
    {
        self.count
    }

    /// For how many more tokens there is room.
    pub(crate) fn room(&self) -> usize
        ensures { result ≡ self.now.column.room }
    {
        self.room
    }

    /// Takes the memory for so many places.
    pub(crate) fn reserve(&mut self, places: usize) -> Result<(), NoMemory>
        ensures ok { OnOk result (places ≤ self.new.capacity) }
        ensures column { self.new.column ≡ self.old.column }
        ensures capacity { self.old.capacity ≤ self.new.capacity }
    {
        self.last.reserve(places.saturating_sub(self.last.len()))?;
        Ok(())
    }

    /// Promises room for so many tokens.
    pub(crate) fn promise(&mut self, size: usize)
        ensures { self.new ≡ promised size self.old }
    {
        self.room = self.room.max(size);
    }

    /// Notes tokens at the next position, and answers the greatest position before at which one of them was noted, or 0.
    pub(crate) fn note(
        &mut self,
        tokens: &mut IndexSet<Token>,
        position: u64,
        list: &[Token],
    ) -> u64
        requires room { length list.now ≤ self.old.column.room }
        requires distinct { IsDistinct is_same_token tokens.old.keys }
        requires spare { length list.now ≤ spare tokens.old }
        requires within { length self.old.column.last ≤ length tokens.old.keys }
        requires places { length tokens.old.keys + length list.now ≤ self.old.capacity }
        ensures greatest { ((token : Token) → last_of tokens.old.keys self.old.column.last token < position) → result ≡ greatest_noted list.now (last_of tokens.old.keys self.old.column.last) }
        ensures notes { Notes list.now position tokens.old.keys tokens.new.keys self.old.column.last self.new.column.last }
        ensures site { self.new.column.site ≡ self.old.column.site }
        ensures count { self.new.column.count ≡ position }
        ensures room { self.new.column.room + length list.now ≡ self.old.column.room }
        ensures capacity { self.new.capacity ≡ self.old.capacity }
        ensures spare { spare tokens.old ≤ spare tokens.new + length list.now }
        ensures distinct { IsDistinct is_same_token tokens.new.keys }
    {
        let greatest = note_each(tokens, &mut self.last, list, position);
        self.count = position;
        self.room -= list.len();
        greatest
    }
}
