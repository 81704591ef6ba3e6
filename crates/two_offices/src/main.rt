//! Two offices that sell of one item, and a line between them that loses letters, and brings them twice and out of order.
#![tactic(auto)]

use anyhow::{Context, Result, bail};
use office::{Letter, Office, OfficeError};
use rep_values::{Name, SiteName, TableName, Value};
use std::alloc::Global;

const TEXT: &str =
    "site NYC\nsite LON\n\ntable STOCK ITEM:NUMBER:key QTY:NUMBER\ngroup STOCK qty QTY\nmethod STOCK qty additive\nrow STOCK 1 100\n";

fn named(name: &str) -> Result<Name> {
    Name::of(name.as_bytes()).context("this is no name")
}

/// Brings a letter, applies what is ready then, and tells what came of it.
fn deliver(alloc: Global, to: &mut Office, letter: &Letter) -> Result<String, OfficeError> {
    let accepted = to.take(alloc, letter.bytes())?;
    let count = to.work(alloc)?;
    let position = letter.position();
    Ok(format!(in alloc;
        "letter {position} to {}: {accepted:?}, {count:?}",
        to.name()
    )?)
}

/// Brings the next letter behind a position.
fn send(alloc: Global, from: &Office, to: &mut Office, behind: u64) -> Result<String, OfficeError> {
    match from.letter(alloc, to.name(), behind)? {
        Some(letter) => deliver(alloc, to, &letter),
        None => Ok(format!(in alloc; "no letter behind {behind}")?),
    }
}

/// Brings the receipt for what came, and lets go of that.
fn acknowledge(alloc: Global, from: &Office, to: &mut Office) -> Result<String, OfficeError> {
    let receipt = from.receipt(alloc, to.name())?;
    let accepted = to.take(alloc, receipt.bytes())?;
    let purged = to.purge();
    Ok(format!(in alloc; "receipt to {}: {accepted:?}, purged {purged}", to.name())?)
}

/// Prints what came of a letter or a receipt.
fn tell(rt: &HostRuntime, told: Result<String, OfficeError>) -> Result<()> {
    match told {
        Ok(line) => Ok(println!(rt; "{line}")?),
        Err(why) => bail!("{why}"),
    }
}

/// Ends the program where a block is refused.
fn written(number: Result<u64, OfficeError>) -> Result<()> {
    match number {
        Ok(_) => Ok(()),
        Err(why) => bail!("{why}"),
    }
}

/// What the offices sell.
fn sell(alloc: Global, nyc: &mut Office, lon: &mut Office) -> Result<()> {
    written(nyc.write_text(alloc, "update STOCK 1 : QTY + -4"))?;
    written(nyc.write_text(alloc, "update STOCK 1 : QTY + -1"))?;
    written(lon.write_text(alloc, "update STOCK 1 : QTY + -6"))
}

/// Letters from New York, of which the first is lost and sent again, and the second comes twice; and one from London.
fn exchange(rt: &HostRuntime, nyc: &mut Office, lon: &mut Office) -> Result<()> {
    for behind in [1, 1, 0] {
        tell(rt, send(rt.alloc(), nyc, lon, behind))?;
    }
    tell(rt, acknowledge(rt.alloc(), lon, nyc))?;
    tell(rt, send(rt.alloc(), lon, nyc, 0))?;
    tell(rt, acknowledge(rt.alloc(), nyc, lon))
}

fn show(rt: &HostRuntime, office: &Office) -> Result<()> {
    let table = TableName(named("STOCK")?);
    let Some([_, Value::Num(quantity)]) = office.row(&table, 0).map(|row| row.values()) else {
        bail!("there is no such row")
    };
    Ok(println!(rt; "{} has {quantity}", office.name())?)
}

fn trade(rt: &HostRuntime, nyc: &mut Office, lon: &mut Office) -> Result<()> {
    sell(rt.alloc(), nyc, lon)?;
    exchange(rt, nyc, lon)?;
    if let Err(why) = lon.take(rt.alloc(), b"letter") {
        println!(rt; "other bytes to LON: {why}")?;
    }
    show(rt, nyc)?;
    show(rt, lon)
}

fn main(rt: HostRuntime) -> Result<()> {
    let mut nyc = Office::open(rt.alloc(), &SiteName(named("NYC")?), TEXT)?;
    let mut lon = Office::open(rt.alloc(), &SiteName(named("LON")?), TEXT)?;
    trade(&rt, &mut nyc, &mut lon)
}
