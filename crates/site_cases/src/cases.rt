//! The lines of the cases, one after the other.
ghost use Rattle.std.specs.Prelude.{◌<◌, length, IfOk};

use crate::declared::Declared;
use crate::events::{called, commit};
use crate::member::Member;
use crate::packets::{carried, delivered, kept, last_number, mark_of, route};
use crate::shown::shown;
use crate::told::{Told, told};
use case_reader::{CaseStop, Words, read_call, read_past, read_statement};
use packet_code::Sealed;
use rep_calls::{Call, Statement};
use rep_values::SiteName;
use script_lex::{Token, lex};
use std::alloc::Global;
use std::mem;

/// What the lines so far have made.
#[derive(Drop)]
pub struct Cases {
    declared: Declared,
    members: Vec<Member>,
    /// The site of the block.
    block: Option<SiteName>,
    statements: Vec<Statement>,
    calls: Vec<Call>,
    packets: Vec<Sealed>,
}

/// The place of the site of this name.
fn place_of(members: &[Member], name: &SiteName) -> Result<usize, CaseStop>
    ensures { IfOk result (λ place. place < length members.now) }
{
    match members.iter().position(|member| member.name.is_same(name)) {
        Some(place) => Ok(place),
        None => Err(CaseStop::NoCase),
    }
}

/// The packet that is kept under a number, counted from 1.
fn packet_of(packets: &[Sealed], number: u64) -> Option<&Sealed> {
    packets.get(number.checked_sub(1)? as usize)
}

/// The rule that a schema breaks, as reports have it.
fn told_rule(alloc: Global, rule: u8) -> Told {
    Ok(Some(format!(in alloc; "! SchemaRule {rule}")?))
}

fn is_declaration(kind: &[u8]) -> bool {
    matches!(
        kind,
        b"site"
            | b"latesite"
            | b"snapsite"
            | b"table"
            | b"group"
            | b"method"
            | b"priority"
            | b"site-level"
            | b"unique"
            | b"unique-method"
            | b"check"
            | b"convergent"
    )
}

fn is_statement(kind: &[u8]) -> bool {
    matches!(kind, b"insert" | b"update" | b"delete")
}

impl Cases {
    /// Nothing is declared, and nothing is kept.
    pub fn new(alloc: Global) -> Cases {
        Cases {
            declared: Declared::new(alloc),
            members: Vec::new(alloc),
            block: None,
            statements: Vec::new(alloc),
            calls: Vec::new(alloc),
            packets: Vec::new(alloc),
        }
    }

    /// Nothing is declared, and nothing is kept.
    fn forget(&mut self, alloc: Global, words: &mut Words) -> Told {
        words.end()?;
        *self = Cases::new(alloc);
        Ok(None)
    }

    /// Opens the sites of these names, behind those that are open.
    fn open_each(
        &self,
        alloc: Global,
        members: &mut Vec<Member>,
        names: &[SiteName],
    ) -> Result<(), CaseStop> {
        for name in names {
            members.push(self.declared.open(alloc, *name)?)?;
        }
        Ok(())
    }

    /// The sites of these names.
    fn opened(&self, alloc: Global, names: &[SiteName]) -> Result<Vec<Member>, CaseStop> {
        let mut members = Vec::new(alloc);
        self.open_each(alloc, &mut members, names)?;
        Ok(members)
    }

    /// The sites of these names are those that are there from now on.
    fn open(&mut self, alloc: Global, names: &[SiteName]) -> Told {
        self.members = self.opened(alloc, names)?;
        Ok(None)
    }

    /// The rule that the schema breaks, where a site is to be opened.
    fn broken_rule(&self, names: &[SiteName]) -> Option<u8> {
        if names.is_empty() {
            return None;
        }
        self.declared.broken_rule()
    }

    /// Opens each declared site, or tells the rule that the schema breaks.
    fn resume(&mut self, alloc: Global, words: &mut Words) -> Told {
        words.end()?;
        let names = self.declared.sites(alloc)?;
        match self.broken_rule(names.as_slice()) {
            Some(rule) => told_rule(alloc, rule),
            None => self.open(alloc, names.as_slice()),
        }
    }

    /// A site as a copy of one that is there, with the first numbers that come next.
    fn copied(&self, alloc: Global, words: &mut Words) -> Result<Member, CaseStop> {
        let (name, source) = route(words)?;
        let firsts = read_past(alloc, words)?;
        let place = place_of(&self.members, &source)?;
        Member::copy_of(alloc, &self.members[place], name, firsts.as_slice())
    }

    /// Opens a site as a copy of another one.
    fn copy(&mut self, alloc: Global, words: &mut Words) -> Told {
        let member = self.copied(alloc, words)?;
        self.members.push(member)?;
        told(alloc, "copied")
    }

    /// Begins a block at a site.
    fn begin_block(&mut self, alloc: Global, words: &mut Words) -> Told {
        let name = words.site()?;
        words.end()?;
        self.block = Some(name);
        self.statements = Vec::new(alloc);
        Ok(None)
    }

    fn statement(&mut self, alloc: Global, words: &mut Words) -> Told {
        self.statements.push(read_statement(alloc, words)?)?;
        Ok(None)
    }

    /// Commits the block.
    fn commit(&mut self, alloc: Global, words: &mut Words) -> Told {
        words.end()?;
        let Some(name) = &self.block else {
            return Err(CaseStop::NoCase);
        };
        let place = place_of(&self.members, name)?;
        let statements = mem::replace(&mut self.statements, Vec::new(alloc));
        commit(alloc, &mut self.members[place].site, name, &statements)
    }

    fn call(&mut self, alloc: Global, words: &mut Words) -> Told {
        self.calls.push(read_call(alloc, words)?)?;
        Ok(None)
    }

    /// Keeps a packet under the next number, and tells what it carries.
    fn keep(&mut self, alloc: Global, sealed: Sealed) -> Told {
        self.packets.push(sealed)?;
        match self.packets.last() {
            Some(sealed) => kept(alloc, self.packets.len(), sealed),
            None => Err(CaseStop::NoCase),
        }
    }

    /// The packet of a position of the stream from a site to another.
    fn sealed(
        &self,
        alloc: Global,
        from: &SiteName,
        to: &SiteName,
        position: u64,
    ) -> Result<Option<Sealed>, CaseStop> {
        let place = place_of(&self.members, from)?;
        Ok(self.members[place].site.packet(alloc, to, position)?)
    }

    /// Keeps the packet of a position.
    fn packet(&mut self, alloc: Global, words: &mut Words) -> Told {
        let (from, to) = route(words)?;
        let position = last_number(words)?;
        match self.sealed(alloc, &from, &to, position)? {
            Some(sealed) => self.keep(alloc, sealed),
            None => told(alloc, "none"),
        }
    }

    fn deliver_to(&mut self, alloc: Global, to: &SiteName, sealed: &Sealed) -> Told {
        let place = place_of(&self.members, to)?;
        delivered(alloc, &mut self.members[place].site, sealed)
    }

    /// Delivers the packet of a position at once.
    fn send(&mut self, alloc: Global, words: &mut Words) -> Told {
        let (from, to) = route(words)?;
        let position = last_number(words)?;
        match self.sealed(alloc, &from, &to, position)? {
            Some(sealed) => self.deliver_to(alloc, &to, &sealed),
            None => told(alloc, "none"),
        }
    }

    /// Tells a site at once how far the first site came with its stream.
    fn acknowledge(&mut self, alloc: Global, words: &mut Words) -> Told {
        let (from, to) = route(words)?;
        words.end()?;
        let place = place_of(&self.members, &from)?;
        let sealed = mark_of(alloc, &self.members[place].site, &from, &to)?;
        self.deliver_to(alloc, &to, &sealed)
    }

    /// Keeps a mark.
    fn mark(&mut self, alloc: Global, words: &mut Words) -> Told {
        let (from, to) = route(words)?;
        let mark = last_number(words)?;
        let sealed = Sealed::seal_mark(alloc, &from, &to, mark)?;
        self.keep(alloc, sealed)
    }

    /// Keeps the packet of the calls that are kept, which are then forgotten.
    fn carry(&mut self, alloc: Global, words: &mut Words) -> Told {
        let calls = mem::replace(&mut self.calls, Vec::new(alloc));
        match carried(alloc, words, calls)? {
            Some(sealed) => self.keep(alloc, sealed),
            None => told(alloc, "no packet"),
        }
    }

    fn deliver_kept(&mut self, alloc: Global, to: &SiteName, number: u64) -> Told {
        let place = place_of(&self.members, to)?;
        match packet_of(&self.packets, number) {
            Some(sealed) => delivered(alloc, &mut self.members[place].site, sealed),
            None => Err(CaseStop::NoCase),
        }
    }

    /// Delivers a packet that is kept, once more where it was before.
    fn deliver(&mut self, alloc: Global, words: &mut Words) -> Told {
        let to = words.site()?;
        let number = last_number(words)?;
        self.deliver_kept(alloc, &to, number)
    }

    fn show(&self, alloc: Global, words: &mut Words) -> Told {
        let word = words.word()?;
        let name = words.site()?;
        words.end()?;
        let place = place_of(&self.members, &name)?;
        shown(alloc, word, &self.members[place])
    }

    /// What a call of this kind answers at the site that comes next.
    fn at_site(&mut self, alloc: Global, kind: &[u8], words: &mut Words) -> Told {
        let name = words.site()?;
        let place = place_of(&self.members, &name)?;
        called(alloc, &mut self.members[place].site, kind, words)
    }

    /// What a line of this kind does with packets, or at a site.
    fn exchange(&mut self, alloc: Global, kind: &[u8], words: &mut Words) -> Told {
        match kind {
            b"packet" => self.packet(alloc, words),
            b"send" => self.send(alloc, words),
            b"acknowledge" => self.acknowledge(alloc, words),
            b"call" => self.call(alloc, words),
            b"carry" => self.carry(alloc, words),
            b"mark" => self.mark(alloc, words),
            b"deliver" => self.deliver(alloc, words),
            _ => self.at_site(alloc, kind, words),
        }
    }

    /// What a line of this kind does that is no declaration or statement.
    fn event(&mut self, alloc: Global, kind: &[u8], words: &mut Words) -> Told {
        match kind {
            b"new" => self.forget(alloc, words),
            b"row" => self.declared.add_row(alloc, words),
            b"resume" => self.resume(alloc, words),
            b"copy" => self.copy(alloc, words),
            b"txn" => self.begin_block(alloc, words),
            b"commit" => self.commit(alloc, words),
            b"show" => self.show(alloc, words),
            _ => self.exchange(alloc, kind, words),
        }
    }

    /// What a line of these words does.
    fn answer(&mut self, alloc: Global, tokens: &[Token]) -> Told {
        let mut words = Words::of(tokens);
        let kind = words.word()?;
        if is_declaration(kind) {
            self.declared.declare(alloc, &mut Words::of(tokens))
        } else if is_statement(kind) {
            self.statement(alloc, &mut Words::of(tokens))
        } else {
            self.event(alloc, kind, &mut words)
        }
    }

    /// What a line does; None where it tells nothing.
    pub fn outcome(&mut self, alloc: Global, line: &str) -> Told {
        let tokens = lex(alloc, line.as_bytes())?;
        self.answer(alloc, tokens.as_slice())
    }
}
