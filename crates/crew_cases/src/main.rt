//! What threads come to, as cases: numbers that threads add under a gate, and passes of crews and live parts over tables that
//! note what is put.
//!
//! A line `add FIRST / NUMBER .. / NUMBER ..` is one gate. Its value begins with the first number, a thread of its own adds the
//! numbers of each further part, and what the value tells in the end is printed.
//!
//! Lines declare a schema, whose first two sites are taken. Each statement behind it is a block of the first one, whose packet
//! comes to the second. `* COUNT STATEMENT` is so many such blocks and `block COUNT STATEMENT` is one block of so many statements;
//! in each a number from 1 on stands for `%`. What stands before a line `apply` the second site applies alone.
//!
//! A line `run APPLIERS TURNS` makes the second one's pass, by so many appliers. Of the first three blocks that it applies, those
//! who come with the second and the third are held until both have come, none for more than so many turns. It prints whether they
//! met, and whether rows were put when they had to be: none whose number begins with 1 before an applier came with the first
//! block, one before one came with the third, and none whose number begins with 2 as long as the applier of the second was held.
//!
//! `fake APPLIERS TURNS` prints the same of so many threads that only tell that they work on the three blocks. The caller makes
//! the pass, once behind their calls and once before them.
//!
//! `session SESSION / STATEMENT / STATEMENT ..` is one more block of a session at the second site, in which a statement's line is
//! ten times its number; without `/` the session has no block more. `sessions TURNS` makes a live part of these sessions there, and
//! `streams TURNS` one that applies beside them what the first site sent and the second one hasn't applied. The first session is
//! held at its first block and the second one at its second block until both have come, neither for more than so many turns. It
//! prints whether they met, and whether rows were put when they had to be: one whose number begins with 2 before the second one
//! came, and none whose number begins with 1 as long as the first one was held. Then come each session's turns, those of the first
//! site, the numbers of the commits, and the rows of the first table.
//!
//! `fake_sessions TURNS` prints the first of it of four wrong bodies: two commit one session after another, and in two threads only
//! tell of the blocks. What stands behind a line of these five is another case. An empty line and one that begins with `#` is
//! printed as it is.
#![tactic(auto)]

ghost use Rattle.std.specs.Prelude.{◌+◌, ◌^◌, ◌<◌, IfOk};
ghost use Rattle.event_laws.specs.Confluence.{CanPassInAnyOrder};

mod adding;
mod blocks;
mod held;
mod laws;
mod live;
mod meeting;
mod noting;
mod order;
mod pair;
mod pass;
mod pretence;
mod session_order;
mod sessions;
mod sums;
mod tally;
mod told;
mod turn_lines;

use case_reader::CaseStop;
use held::Held;
use live::{WrongBody, live_outcome, make_wrongly};
use noting::{NotingTables, Puts};
use order::Order;
use pass::{Maker, mark_after_pass};
use rep_values::SiteName;
use session_order::SessionOrder;
use site_engine::Site;
use std::alloc::{AllocError, Global};
use std::sync::{Arc, Wait};
use std::thread::Threads;
use sums::sum_line;
use told::Told;

/// What a line is.
#[derive(Drop)]
enum Form<'a> {
    Remark,
    Add(&'a str),
    Run(Held),
    Fake(Held),
    Sessions(u64),
    Streams(u64),
    FakeSessions(u64),
    Told,
}

fn run_of(words: &str) -> Option<Form<'_>> {
    Some(Form::Run(Held::read(words)?))
}

fn fake_of(words: &str) -> Option<Form<'_>> {
    Some(Form::Fake(Held::read(words)?))
}

fn sessions_of(words: &str) -> Option<Form<'_>> {
    Some(Form::Sessions(words.parse::<u64>().ok()?))
}

fn streams_of(words: &str) -> Option<Form<'_>> {
    Some(Form::Streams(words.parse::<u64>().ok()?))
}

fn fake_sessions_of(words: &str) -> Option<Form<'_>> {
    Some(Form::FakeSessions(words.parse::<u64>().ok()?))
}

/// The form of a line by its first word.
fn form_by<'a>(kind: &[u8], words: &'a str) -> Option<Form<'a>> {
    match kind {
        b"add" => Some(Form::Add(words)),
        b"run" => run_of(words),
        b"fake" => fake_of(words),
        b"sessions" => sessions_of(words),
        b"streams" => streams_of(words),
        b"fake_sessions" => fake_sessions_of(words),
        _ => None,
    }
}

fn form_of(line: &str) -> Form<'_> {
    if line.is_empty() || line.starts_with('#') {
        return Form::Remark;
    }
    match line.split_once(' ') {
        Some((kind, words)) => form_by(kind.as_bytes(), words).unwrap_or(Form::Told),
        None => Form::Told,
    }
}

/// The site that makes the pass, and the one whose blocks it applies.
fn receiver(
    alloc: Global,
    told: &Told,
    puts: Arc<Puts>,
) -> Result<(Site<NotingTables>, SiteName), CaseStop>
    ensures passes { IfOk result (λ receiver. CanPassInAnyOrder receiver.1 receiver.0) }
    ensures few { IfOk result (λ receiver. receiver.0.moment + 1 < 2 ^ 64) }
{
    let pair = told.pair(alloc, puts)?;
    pair.into_receiver()
}

/// The low-water mark behind a pass.
fn low_behind<R: Threads + Wait + Sync>(
    rt: &R,
    alloc: Global,
    told: &Told,
    held: Held,
    maker: Maker,
    order: &Order,
) -> Result<u64, CaseStop> {
    let receiver = receiver(alloc, told, order.puts()?)?;
    order.begin();
    mark_after_pass(rt, alloc, maker, receiver, held, order)
}

/// A low-water mark, and how a pass went.
fn pass_lines(alloc: Global, low: u64, how: &str) -> Result<String, CaseStop> {
    Ok(format!(in alloc; "low {low}\n{how}")?)
}

/// What is printed of a pass.
fn outcome<R: Threads + Wait + Sync>(
    rt: &R,
    alloc: Global,
    told: &Told,
    held: Held,
    maker: Maker,
) -> Result<String, CaseStop> {
    let order = Order::new(Arc::new(alloc, Puts::new())?, held.turns, told.first());
    let low = low_behind(rt, alloc, told, held, maker, &order)?;
    pass_lines(alloc, low, order.word())
}

/// What is printed, or that there was no case.
fn report(alloc: Global, told: Result<String, CaseStop>) -> Result<String, AllocError> {
    match told {
        Ok(told) => Ok(told),
        Err(CaseStop::NoCase) => format!(in alloc; "no case"),
        Err(CaseStop::Memory) => Err(AllocError),
    }
}

/// A line and what it comes to.
fn answered(
    alloc: Global,
    line: &str,
    told: Result<String, CaseStop>,
) -> Result<Option<String>, AllocError> {
    let report = report(alloc, told)?;
    Ok(Some(format!(in alloc; "{line}\n{report}")?))
}

/// What is printed of passes beside appliers that only tell of work.
fn fake_outcomes<R: Threads + Wait + Sync>(
    rt: &R,
    alloc: Global,
    told: &Told,
    held: Held,
) -> Result<String, CaseStop> {
    let before = outcome(rt, alloc, told, held, Maker::CallsBefore)?;
    let behind = outcome(rt, alloc, told, held, Maker::CallsBehind)?;
    Ok(format!(in alloc; "pass behind the calls\n{before}\npass before the calls\n{behind}")?)
}

/// What is printed of a live part, which applies what the first site sent or doesn't.
fn live_part<R: Threads + Wait + Sync>(
    rt: &R,
    alloc: Global,
    told: &Told,
    turns: u64,
    applies: bool,
) -> Result<String, CaseStop> {
    let order = SessionOrder::new(Arc::new(alloc, Puts::new())?, turns);
    let (site, origin) = receiver(alloc, told, order.puts()?)?;
    let sessions = told.sessions(alloc)?;
    let origins = [origin];
    let origins: &[SiteName] = if applies { &origins } else { &[] };
    order.begin();
    live_outcome(rt, alloc, site, origins, sessions, &order)
}

/// How a live part by a wrong body goes.
fn wrong_word<R: Threads + Wait + Sync>(
    rt: &R,
    alloc: Global,
    told: &Told,
    turns: u64,
    body: WrongBody,
) -> Result<&'static str, CaseStop> {
    let order = SessionOrder::new(Arc::new(alloc, Puts::new())?, turns);
    let (site, _) = receiver(alloc, told, order.puts()?)?;
    let sessions = told.sessions(alloc)?;
    order.begin();
    make_wrongly(rt, alloc, site, sessions.as_slice(), body, &order)?;
    Ok(order.word())
}

/// What is printed of live parts by wrong bodies.
fn wrong_outcomes<R: Threads + Wait + Sync>(
    rt: &R,
    alloc: Global,
    told: &Told,
    turns: u64,
) -> Result<String, CaseStop> {
    let onward = wrong_word(rt, alloc, told, turns, WrongBody::FirstOnward)?;
    let backward = wrong_word(rt, alloc, told, turns, WrongBody::LastBackward)?;
    let before = wrong_word(rt, alloc, told, turns, WrongBody::CallsBefore)?;
    let behind = wrong_word(rt, alloc, told, turns, WrongBody::CallsBehind)?;
    let in_turn = format!(in alloc;
        "first session first\n{onward}\nlast session first\n{backward}"
    )?;
    let calls = format!(in alloc;
        "commits behind the calls\n{before}\ncommits before the calls\n{behind}"
    )?;
    Ok(format!(in alloc; "{in_turn}\n{calls}")?)
}

/// These words are printed.
fn printed(alloc: Global, words: &str) -> Result<Option<String>, AllocError> {
    Ok(Some(format!(in alloc; "{words}")?))
}

fn take_told(alloc: Global, told: &mut Told, line: &str) -> Result<Option<String>, AllocError> {
    match told.take_line(alloc, line) {
        Ok(()) => Ok(None),
        Err(CaseStop::NoCase) => printed(alloc, "no case"),
        Err(CaseStop::Memory) => Err(AllocError),
    }
}

/// What comes of a line; None where it tells nothing.
fn answer<R: Threads + Wait + Sync>(
    rt: &R,
    alloc: Global,
    told: &mut Told,
    line: &str,
) -> Result<Option<String>, AllocError> {
    match form_of(line) {
        Form::Remark => printed(alloc, line),
        Form::Add(parts) => answered(alloc, line, sum_line(rt, alloc, parts)),
        Form::Run(held) => answered(alloc, line, outcome(rt, alloc, told, held, Maker::Crew)),
        Form::Fake(held) => answered(alloc, line, fake_outcomes(rt, alloc, told, held)),
        Form::Sessions(turns) => answered(alloc, line, live_part(rt, alloc, told, turns, false)),
        Form::Streams(turns) => answered(alloc, line, live_part(rt, alloc, told, turns, true)),
        Form::FakeSessions(turns) => answered(alloc, line, wrong_outcomes(rt, alloc, told, turns)),
        Form::Told => take_told(alloc, told, line),
    }
}

/// Whether another case begins behind a line.
fn ends_case(line: &str) -> bool {
    matches!(
        form_of(line),
        Form::Run(_) | Form::Fake(_) | Form::Sessions(_) | Form::Streams(_) | Form::FakeSessions(_)
    )
}

fn tell<R: Print>(rt: &R, answer: Option<String>) -> anyhow::Result<()> {
    if let Some(answer) = answer {
        println!(rt; "{answer}")?;
    }
    Ok(())
}

/// Prints what comes of a line, behind which another case may begin.
fn answer_line<R: Print + Threads + Wait + Sync>(
    rt: &R,
    alloc: Global,
    told: &mut Told,
    line: &str,
) -> anyhow::Result<()> {
    tell(rt, answer(rt, alloc, told, line)?)?;
    if ends_case(line) {
        *told = Told::new(alloc);
    }
    Ok(())
}

fn main(rt: HostRuntime) -> anyhow::Result<()> {
    let alloc = rt.alloc();
    let mut told = Told::new(alloc);
    for line in rt.lines(alloc) {
        answer_line(&rt, alloc, &mut told, &line?)?;
    }
    Ok(())
}
