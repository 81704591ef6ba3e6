//! The last positions of the tokens of an index in one stream, by their places.
ghost use Rattle.std.specs.Prelude.{◌≡◌, ℕ, ◌+◌, ◌<◌, ◌≤◌, cond, max, nat_lt, [], ◌∷◌, length, vec_capacity};
ghost use Rattle.std.specs.List.{IsDistinct};
ghost use Rattle.indexmap.specs.IndexSet.{spare};
ghost use Rattle.dependency_index.specs.declared.token.Token.{Token};
ghost use Rattle.dependency_index.specs.Tokens.{is_same_token};
ghost use Rattle.dependency_index.specs.Noting.{greatest_noted};
ghost use Rattle.dependency_index.specs.Columns.{last_at, put_at, last_of, Notes};

use crate::Token;
use indexmap::IndexSet;
use std::mem::replace;

/// Adds zeros up to a place.
fn extend_to(last: &mut Vec<u64>, place: usize)
    requires { place < vec_capacity last.old }
    ensures before { last_at place last.new.items ≡ last_at place last.old.items }
    ensures same { (position : ℕ) → put_at place position last.new.items ≡ put_at place position last.old.items }
    ensures within { place < length last.new.items }
    ensures capacity { vec_capacity last.new ≡ vec_capacity last.old }
{
    for _ in last.len()..place + 1 {
        last.push_reserved(0);
    }
}

/// Puts a position at a place, and answers what stood there.
fn put_at(last: &mut Vec<u64>, place: usize, position: u64) -> u64
    requires { place < vec_capacity last.old }
    ensures before { result ≡ last_at place last.old.items }
    ensures after { last.new.items ≡ put_at place position last.old.items }
    ensures capacity { vec_capacity last.new ≡ vec_capacity last.old }
{
    extend_to(last, place);
    replace(&mut last[place], position)
}

/// Notes a token at a position, and answers its last position before.
fn note_one(tokens: &mut IndexSet<Token>, last: &mut Vec<u64>, token: &Token, position: u64) -> u64
    requires spare { 1 ≤ spare tokens.old }
    requires within { length last.old.items ≤ length tokens.old.keys }
    requires places { length tokens.old.keys + 1 ≤ vec_capacity last.old }
    ensures before { result ≡ last_of tokens.old.keys last.old.items token.now }
    ensures notes { Notes (token.now ∷ []) position tokens.old.keys tokens.new.keys last.old.items last.new.items }
    ensures spare { spare tokens.old ≤ spare tokens.new + 1 }
    ensures distinct { IsDistinct is_same_token tokens.new.keys }
    ensures capacity { vec_capacity last.new ≡ vec_capacity last.old }
{
    let Ok((place, _)) = tokens.insert_full(*token) else {
        unreachable!()
    };
    put_at(last, place, position)
}

/// The greater of two positions, where the second is one before a position.
fn counted(greatest: u64, before: u64, position: u64) -> u64
    ensures { result ≡ cond (nat_lt before position) (max greatest before) greatest }
{
    if before < position {
        greatest.max(before)
    } else {
        greatest
    }
}

/// Notes tokens at a position behind all others, and answers the greatest of their last positions before.
pub(crate) fn note_each(
    tokens: &mut IndexSet<Token>,
    last: &mut Vec<u64>,
    list: &[Token],
    position: u64,
) -> u64
    requires distinct { IsDistinct is_same_token tokens.old.keys }
    requires spare { length list.now ≤ spare tokens.old }
    requires within { length last.old.items ≤ length tokens.old.keys }
    requires places { length tokens.old.keys + length list.now ≤ vec_capacity last.old }
    ensures greatest { ((token : Token) → last_of tokens.old.keys last.old.items token < position) → result ≡ greatest_noted list.now (last_of tokens.old.keys last.old.items) }
    ensures notes { Notes list.now position tokens.old.keys tokens.new.keys last.old.items last.new.items }
    ensures spare { spare tokens.old ≤ spare tokens.new + length list.now }
    ensures distinct { IsDistinct is_same_token tokens.new.keys }
    ensures capacity { vec_capacity last.new ≡ vec_capacity last.old }
{
    let mut greatest = 0;
    for token in list {
        // A token that comes twice has the position itself by then.
        let before = note_one(tokens, last, token, position);
        greatest = counted(greatest, before, position);
    }
    greatest
}
