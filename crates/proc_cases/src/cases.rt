//! The lines of the cases, one after the other.
ghost use Rattle.std.specs.Prelude.{◌<◌, length, IfOk};

use crate::declared::{Declared, read_place};
use crate::events::{called, send, show};
use crate::packets::{carried, delivered, last_number, marked, read_way, relayed, shown_packet};
use crate::told::{Told, told};
use case_reader::{CaseStop, Words, read_call};
use packet_code::{Packet, Sealed};
use proc_calls::ProcSite;
use proc_state::ProcCall;
use rep_calls::Call;
use rep_values::SiteName;
use script_lex::{Token, lex};
use std::alloc::Global;
use std::mem;

/// What the lines so far have made.
#[derive(Drop)]
pub struct Cases {
    declared: Declared,
    sites: Vec<ProcSite>,
    /// The calls of procedures that are kept.
    invoked: Vec<ProcCall>,
    /// The calls that are kept in the form in which rows travel.
    calls: Vec<Call>,
}

/// The place of the site of this name.
fn place_of(sites: &[ProcSite], name: &SiteName) -> Result<usize, CaseStop>
    ensures { IfOk result (λ place. place < length sites.now) }
{
    match sites.iter().position(|site| site.name().is_same(name)) {
        Some(place) => Ok(place),
        None => Err(CaseStop::NoCase),
    }
}

/// The names up to the end of the line.
fn read_sites(alloc: Global, words: &mut Words) -> Result<Vec<SiteName>, CaseStop> {
    let mut sites = Vec::new(alloc);
    for _ in 0..u64::MAX {
        if words.is_done() {
            break;
        }
        sites.push(words.site()?)?;
    }
    Ok(sites)
}

/// `PROCEDURE [VALUE..]`, up to the end of the line.
fn read_invoked(alloc: Global, words: &mut Words) -> Result<ProcCall, CaseStop> {
    let invoked = ProcCall {
        procedure: read_place(words)?,
        values: words.values(alloc)?,
    };
    words.end()?;
    Ok(invoked)
}

impl Cases {
    /// Nothing is declared, and nothing is kept.
    pub fn new(alloc: Global) -> Cases {
        Cases {
            declared: Declared::new(alloc),
            sites: Vec::new(alloc),
            invoked: Vec::new(alloc),
            calls: Vec::new(alloc),
        }
    }

    /// Nothing is declared, and nothing is kept.
    fn forget(&mut self, alloc: Global, words: &Words) -> Told {
        words.end()?;
        *self = Cases::new(alloc);
        Ok(None)
    }

    /// Opens each declared site. Where the schema breaks a rule there is no case.
    fn resume(&mut self, alloc: Global, words: &Words) -> Told {
        words.end()?;
        let mut sites = Vec::new(alloc);
        self.declared.open_each(alloc, &mut sites)?;
        self.sites = sites;
        Ok(None)
    }

    fn invoke(&mut self, alloc: Global, words: &mut Words) -> Told {
        let invoked = read_invoked(alloc, words)?;
        self.invoked.push(invoked)?;
        Ok(None)
    }

    fn call(&mut self, alloc: Global, words: &mut Words) -> Told {
        let call = read_call(alloc, words)?;
        self.calls.push(call)?;
        Ok(None)
    }

    /// Makes the calls that are kept at a site, for the masters of these names; they are then forgotten.
    fn send_to(&mut self, alloc: Global, name: &SiteName, to: &[SiteName]) -> Told {
        let invoked = mem::replace(&mut self.invoked, Vec::new(alloc));
        let place = place_of(&self.sites, name)?;
        send(alloc, &mut self.sites[place], &invoked, to)
    }

    fn send(&mut self, alloc: Global, words: &mut Words) -> Told {
        let name = words.site()?;
        let to = read_sites(alloc, words)?;
        self.send_to(alloc, &name, &to)
    }

    fn deliver_to(&mut self, alloc: Global, name: &SiteName, packet: Packet) -> Told {
        let place = place_of(&self.sites, name)?;
        delivered(alloc, &mut self.sites[place], packet)
    }

    /// Delivers the packet of the calls that are kept, which are then forgotten.
    fn carry(&mut self, alloc: Global, words: &mut Words) -> Told {
        let calls = mem::replace(&mut self.calls, Vec::new(alloc));
        let name = words.site()?;
        let packet = carried(alloc, words, calls)?;
        self.deliver_to(alloc, &name, packet)
    }

    /// Delivers a mark.
    fn mark(&mut self, alloc: Global, words: &mut Words) -> Told {
        let name = words.site()?;
        let packet = marked(words)?;
        self.deliver_to(alloc, &name, packet)
    }

    /// The packet of a position of the stream from a site to another.
    fn sealed(
        &self,
        alloc: Global,
        from: &SiteName,
        to: &SiteName,
        position: u64,
    ) -> Result<Option<Sealed>, CaseStop> {
        let place = place_of(&self.sites, from)?;
        Ok(self.sites[place].packet(alloc, to, position)?)
    }

    /// Shows the packet of a position.
    fn packet(&self, alloc: Global, words: &mut Words) -> Told {
        let (from, to) = read_way(words)?;
        let position = last_number(words)?;
        match self.sealed(alloc, &from, &to, position)? {
            Some(sealed) => shown_packet(alloc, &sealed),
            None => told(alloc, "none"),
        }
    }

    fn relay_to(&mut self, alloc: Global, to: &SiteName, sealed: &Sealed) -> Told {
        let place = place_of(&self.sites, to)?;
        relayed(alloc, &mut self.sites[place], sealed)
    }

    /// Delivers the packet of a position.
    fn relay(&mut self, alloc: Global, words: &mut Words) -> Told {
        let (from, to) = read_way(words)?;
        let position = last_number(words)?;
        match self.sealed(alloc, &from, &to, position)? {
            Some(sealed) => self.relay_to(alloc, &to, &sealed),
            None => told(alloc, "none"),
        }
    }

    fn show(&self, alloc: Global, words: &mut Words) -> Told {
        let name = words.site()?;
        let place = place_of(&self.sites, &name)?;
        show(alloc, &self.sites[place], words)
    }

    /// What a call of this kind answers at the site that comes next.
    fn at_site(&mut self, alloc: Global, kind: &[u8], words: &mut Words) -> Told {
        let name = words.site()?;
        let place = place_of(&self.sites, &name)?;
        called(alloc, &mut self.sites[place], kind, words)
    }

    /// What a line of this kind does with packets, or at a site.
    fn exchange(&mut self, alloc: Global, kind: &[u8], words: &mut Words) -> Told {
        match kind {
            b"packet" => self.packet(alloc, words),
            b"relay" => self.relay(alloc, words),
            b"carry" => self.carry(alloc, words),
            b"mark" => self.mark(alloc, words),
            b"show" => self.show(alloc, words),
            _ => self.at_site(alloc, kind, words),
        }
    }

    /// What a line of this kind does that is no declaration.
    fn event(&mut self, alloc: Global, kind: &[u8], words: &mut Words) -> Told {
        match kind {
            b"new" => self.forget(alloc, words),
            b"procedure" => self.declared.add_procedure(alloc, words),
            b"resume" => self.resume(alloc, words),
            b"invoke" => self.invoke(alloc, words),
            b"send" => self.send(alloc, words),
            b"call" => self.call(alloc, words),
            _ => self.exchange(alloc, kind, words),
        }
    }

    /// What a line of these words does.
    fn answer(&mut self, alloc: Global, tokens: &[Token]) -> Told {
        let mut words = Words::of(tokens);
        let kind = words.word()?;
        match kind {
            b"site" | b"table" => self.declared.declare(alloc, &mut Words::of(tokens)),
            _ => self.event(alloc, kind, &mut words),
        }
    }

    /// What a line does; None where it tells nothing.
    pub fn outcome(&mut self, alloc: Global, line: &str) -> Told {
        let tokens = lex(alloc, line.as_bytes())?;
        self.answer(alloc, tokens.as_slice())
    }
}
