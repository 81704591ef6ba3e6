//! Arrivals in rising order of position.
ghost use Rattle.std.specs.Prelude.{◌≡◌, None, length, option_copied, IfOk, IfErr, OnOk, OnErr};
ghost use Rattle.rep_lists.specs.Rising.{IsRising, IsThere, IsGap, find_at, put_at};
ghost use Rattle.site_state.specs.State.{arrival_beside};
ghost use Rattle.site_state.specs.Ready.{arrival_number};
ghost use Rattle.sender_inbox.specs.Incoming.{by_position, IsFirstAbove};

use rep_lists::NoMemory;
use site_state::Arrival;
use std::cmp::Ordering;

/// The place of a position, or else the place where it would stand, by halving.
fn search_all(arrived: &[Arrival], position: u64) -> Result<usize, usize>
    requires { IsRising by_position arrived.now }
    ensures found { IfOk result (IsThere (arrival_beside position) arrived.now) }
    ensures absent { IfErr result (IsGap (arrival_beside position) arrived.now) }
{
    arrived.binary_search_by(
        |arrival: &Arrival| -> Ordering
            ensures { result ≡ arrival_beside position arrival.now }
        { arrival.position.cmp(&position) },
    )
}

/// The place of a position, or else the place where it would stand. Most that are asked for are the last one or behind it.
fn search(arrived: &[Arrival], position: u64) -> Result<usize, usize>
    requires { IsRising by_position arrived.now }
    ensures found { IfOk result (IsThere (arrival_beside position) arrived.now) }
    ensures absent { IfErr result (IsGap (arrival_beside position) arrived.now) }
{
    let Some(last) = arrived.last() else {
        return Err(0);
    };
    match position.cmp(&last.position) {
        Ordering::Greater => Err(arrived.len()),
        Ordering::Equal => Ok(arrived.len() - 1),
        Ordering::Less => search_all(arrived, position),
    }
}

/// What arrived at a position.
pub(crate) fn find(arrived: &[Arrival], position: u64) -> Option<&Arrival>
    requires { IsRising by_position arrived.now }
    ensures { option_copied result ≡ find_at (arrival_beside position) arrived.now }
{
    match search(arrived, position) {
        Ok(place) => Some(&arrived[place]),
        Err(_) => None,
    }
}

/// The number of what arrived at a position, 0 where nothing did.
pub(crate) fn number_at(arrived: &[Arrival], position: u64) -> u64
    requires { IsRising by_position arrived.now }
    ensures { result ≡ arrival_number (find_at (arrival_beside position) arrived.now) }
{
    match find(arrived, position) {
        Some(arrival) => arrival.number,
        None => 0,
    }
}

/// The place of the first position above a number, the end where there is none.
pub(crate) fn first_above(arrived: &[Arrival], number: u64) -> usize
    requires { IsRising by_position arrived.now }
    ensures { IsFirstAbove number arrived.now result }
{
    match search(arrived, number) {
        Ok(place) => place + 1,
        Err(place) => place,
    }
}

/// Puts in what hadn't arrived.
pub(crate) fn put_in(arrived: &mut Vec<Arrival>, arrival: Arrival) -> Result<(), NoMemory>
    requires rising { IsRising by_position arrived.old.items }
    requires absent { find_at (arrival_beside arrival.position) arrived.old.items ≡ None }
    ensures ok { OnOk result (arrived.new.items ≡ put_at (arrival_beside arrival.position) arrival arrived.old.items) }
    ensures err { OnErr result (arrived.new.items ≡ arrived.old.items) }
{
    match search(arrived, arrival.position) {
        Ok(_) => unreachable!(),
        Err(place) => {
            arrived.insert(place, arrival)?;
            Ok(())
        }
    }
}
