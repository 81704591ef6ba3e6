//! Edges of intervals of positions, in falling order.
ghost use Rattle.std.specs.Prelude.{◌≡◌, ◌+◌, ◌-◌, ◌≤◌, ◌<◌, ◌==◌, ◌||◌, length, nat_lt, slice_index, IfOk, IfErr};
ghost use Rattle.std.specs.Ordering.{nat_cmp};
ghost use Rattle.rep_lists.specs.Rising.{IsThere, IsGap};
ghost use Rattle.origin_marks.specs.Edges.{IsFalling, count_below, flipped};

use rep_lists::RoomyList;
use std::cmp::Ordering;

/// The place of an edge, or else the place where it would stand.
fn search(edges: &[u64], edge: u64) -> Result<usize, usize>
    requires { IsFalling edges.now }
    ensures found { IfOk result (IsThere (nat_cmp edge) edges.now) }
    ensures absent { IfErr result (IsGap (nat_cmp edge) edges.now) }
{
    edges.binary_search_by(
        |other: &u64| -> Ordering
            ensures { result ≡ nat_cmp edge other.now }
        { edge.cmp(other) },
    )
}

/// How many edges lie below a position.
pub(crate) fn edges_below(edges: &[u64], position: u64) -> usize
    requires { IsFalling edges.now }
    ensures { result ≡ count_below position edges.now }
{
    match search(edges, position) {
        Ok(place) => edges.len() - place - 1,
        Err(place) => edges.len() - place,
    }
}

/// Takes an edge out, or puts it in where it isn't there.
fn flip(edges: &mut RoomyList<u64>, edge: u64)
    requires falling { IsFalling edges.old.items }
    requires room { 1 ≤ edges.old.spare }
    ensures edges { edges.new.items ≡ flipped edge edges.old.items }
    ensures room { edges.old.spare ≤ edges.new.spare + 1 }
{
    match search(edges.as_slice(), edge) {
        Ok(place) => {
            edges.remove(place);
        }
        Err(place) => edges.insert(place, edge),
    }
}

/// Whether the edge before a place, if there is one, lies above a position.
fn is_free(edges: &[u64], place: usize, position: u64) -> bool
    requires { place ≤ length edges.now }
    ensures { result ≡ (place == 0 || nat_lt position (slice_index edges.now (place - 1))) }
{
    place == 0 || edges[place - 1] > position
}

/// Flips both edges beside a position, so that it is finished and no other one changes.
pub(crate) fn flip_beside(edges: &mut RoomyList<u64>, position: u64)
    requires falling { IsFalling edges.old.items }
    requires from_one { 1 ≤ position }
    requires room { 2 ≤ edges.old.spare }
    ensures edges { edges.new.items ≡ flipped position (flipped (position - 1) edges.old.items) }
    ensures room { edges.old.spare ≤ edges.new.spare + 2 }
{
    match search(edges.as_slice(), position - 1) {
        // An interval that ends before the position grows in its place.
        Ok(place) if is_free(edges.as_slice(), place, position) => {
            edges.replace(place, position);
        }
        _ => {
            flip(edges, position - 1);
            flip(edges, position);
        }
    }
}
