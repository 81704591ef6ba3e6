//! What a site of procedures sends: its queue, in which each transaction has masters of its own.
ghost use Rattle.std.specs.Prelude.{◌≡◌, ◌+◌, ◌-◌, ◌<◌, ◌≤◌, ◌∷◌, [], List, Some, length, filter, map, IfOk, IfSome, OnOk, OnErr, vec_len, vec_capacity};
ghost use Rattle.std.specs.Option.{option_map};
ghost use Rattle.std.specs.List.{AllByRecursion};
ghost use Rattle.rep_values.specs.declared.name.SiteName.{SiteName};
ghost use Rattle.rep_calls.specs.declared.call.Txn.{Txn};
ghost use Rattle.packet_code.specs.Bodies.{IsBody};
ghost use Rattle.deferred_queue.specs.Streams.{at_position, queue_stream_to, unpurged, last_position, acked_by, raised_mark};
ghost use Rattle.rep_schema.specs.Sites.{is_among};
ghost use Rattle.site_outbox.specs.Noting.{TokenStreams, AreNoted};
ghost use Rattle.proc_state.specs.Carriers.{call_token, proc_tokens};
ghost use Rattle.proc_state.specs.State.{no_mark};
ghost use Rattle.proc_calls.specs.Outgoing.{NamesApart, lists_in, Keeps, CanBeNoted, with_tokens, placed};

use conflict_detect::table_of;
use deferred_queue::{Destination, Queue, Sent};
use dependency_index::{Index, Token, Tokens};
use packet_code::Body;
use rep_calls::{Call, Txn};
use rep_lists::{Items, NoMemory};
use rep_values::{Key, SiteName, Value};
use std::alloc::Global;
use std::marker::Model;

/// The transactions that a site queued, each for some of the other masters, and what is noted of the streams to these.
#[derive(Drop)]
pub(crate) struct CallOutbox {
    masters: Vec<SiteName>,
    queue: Queue,
    index: Index,
    count: u64,
}

impl Model for CallOutbox {
    ghost use Rattle.proc_calls.specs.Outgoing.{CallsOut, IsOutbox};

    ghost Value = { CallsOut };

    ghost view = { λ o. record {
      deferred = o.queue.deferred;
      marks = o.queue.marks;
      noted = o.index.streams;
    } };

    ghost invariant = { λ o. IsOutbox o.masters.items o.queue.marks o.queue.deferred o.index.streams o.count };
}

/// Whether a site is one of these.
fn is_among(sites: &[SiteName], site: &SiteName) -> bool
    ensures { result ≡ is_among sites.now site.now }
{
    sites.iter().any(|other| other.is_same(site))
}

/// Those of the masters that are named, in the masters' order.
fn named(alloc: Global, masters: &[SiteName], to: &[SiteName]) -> Result<Vec<SiteName>, NoMemory>
    ensures { IfOk result (λ sites. sites.items ≡ filter (is_among to.now) masters.now) }
{
    let sites = masters
        .iter()
        .filter(|master| is_among(to, master))
        .map(|master| *master)
        .collect(alloc)?;
    Ok(sites)
}

/// The token of a carried call, which stands for its whole table: the key of its carrier.
fn call_token(call: &Call) -> Token
    ensures { result ≡ call_token call.now }
{
    Token::Key {
        table: table_of(call),
        key: Key::first(Value::Num(0)),
    }
}

/// The token of each call.
fn call_tokens(alloc: Global, calls: &[Call]) -> Result<Vec<Token>, NoMemory>
    ensures { IfOk result (λ tokens. tokens.items ≡ map call_token calls.now) }
{
    let tokens = calls.iter().map(|call| call_token(call)).collect(alloc)?;
    Ok(tokens)
}

/// The tokens of a transaction, call by call.
fn tokens_of(alloc: Global, txn: &Txn) -> Result<Tokens, NoMemory>
    ensures { IfOk result (λ tokens. tokens.list ≡ proc_tokens txn.now) }
{
    let list = call_tokens(alloc, txn.calls.as_slice())?;
    Ok(Tokens {
        list: Items::from_vec(list),
    })
}

/// Notes a transaction's tokens at the next position of the stream to each of these sites, and lists these as its destinations.
/// It takes no memory.
fn note_each(sites: &[SiteName], tokens: &Tokens, index: &mut Index, to: &mut Vec<Destination>)
    requires apart { NamesApart sites.now }
    requires waiting { AllByRecursion (CanBeNoted index.old.streams (length tokens.now.list)) sites.now }
    requires noted { (streams : TokenStreams) × AreNoted index.old.streams streams }
    requires empty { to.old.items ≡ [] }
    requires room { length sites.now ≤ vec_capacity to.old - vec_len to.old }
    ensures list { (streams : TokenStreams) → AreNoted index.old.streams streams → to.new.items ≡ map (placed tokens.now.list streams) sites.now }
    ensures noted { (streams : TokenStreams) → AreNoted index.old.streams streams → AreNoted index.new.streams (with_tokens sites.now tokens.now.list streams) }
    ensures destinations { map (λ s. s.kept.site) index.new.streams ≡ map (λ s. s.kept.site) index.old.streams }
{
    for site in sites {
        let position = index.count(site) + 1;
        let dep = index.note(site, position, tokens);
        to.push_reserved(Destination { site: *site, dep });
    }
}

impl CallOutbox {
    /// Nothing is queued for these masters.
    pub(crate) fn make(alloc: Global, masters: &[SiteName]) -> Result<CallOutbox, NoMemory>
        requires { NamesApart masters.now }
        ensures deferred { IfOk result (λ out. out.deferred ≡ []) }
        ensures marks { IfOk result (λ out. out.marks ≡ map no_mark masters.now) }
        ensures keeps { IfOk result (Keeps [] []) }
    {
        let queue = Queue::make(alloc, masters)?;
        let index = Index::make(alloc, masters)?;
        Ok(CallOutbox {
            masters: Vec::from_slice(alloc, masters)?,
            queue,
            index,
            count: 0,
        })
    }

    /// Queues a transaction for those of the masters that are named, and answers its number.
    pub(crate) fn push(&mut self, alloc: Global, txn: Txn, to: &[SiteName]) -> Result<u64, NoMemory>
        ensures number { IfOk result (λ number. number ≡ length self.old.deferred + 1) }
        ensures deferred { OnOk result (lists_in self.new.deferred ≡ filter (is_among to.now) (map (λ m. m.site) self.old.marks) ∷ lists_in self.old.deferred) }
        ensures ok { OnOk result ((lists : List (List SiteName)) (txns : List Txn) → Keeps lists txns self.old
            → Keeps (filter (is_among to.now) (map (λ m. m.site) self.old.marks) ∷ lists) (txn ∷ txns) self.new) }
        ensures kept { OnErr result (self.new.deferred ≡ self.old.deferred) }
        ensures err { OnErr result ((lists : List (List SiteName)) (txns : List Txn) → Keeps lists txns self.old → Keeps lists txns self.new) }
        ensures marks { self.new.marks ≡ self.old.marks }
    {
        // Each transaction needs a number of its own.
        if self.count == u64::MAX {
            return Err(NoMemory);
        }
        // The room comes first, so that what follows can't fail.
        let tokens = tokens_of(alloc, &txn)?;
        let sites = named(alloc, &self.masters, to)?;
        let mut destinations = Vec::with_capacity(alloc, sites.len())?;
        let past = Items::new(alloc);
        let body = Body::of(alloc, past.as_slice(), &txn)?;
        self.index.reserve(&tokens)?;
        self.queue.reserve()?;
        note_each(&sites, &tokens, &mut self.index, &mut destinations);
        let number = self.queue.push_back(txn, past, body, &destinations);
        self.count = number;
        Ok(number)
    }

    /// The transaction at a position of a stream; None exactly where no such position was given.
    pub(crate) fn entry(&self, to: &SiteName, position: u64) -> Option<Sent<'_>>
        ensures sent { option_map (λ sent. record {
          number = sent.number;
          dep = sent.dep;
          cargo = Some (record { txn = sent.txn.now; past = sent.past.now });
        }) result
            ≡ unpurged (at_position position (queue_stream_to to.now self.now.deferred)) }
        ensures earlier { IfSome result (λ sent. sent.dep < position) }
        ensures number { IfSome result (λ sent. 1 ≤ sent.number) }
        ensures body { IfSome result (λ sent. IsBody sent.past.now sent.txn.now sent.body.now) }
    {
        self.queue.entry(to, position)
    }

    /// Takes in a mark. One that is lower than an earlier mark changes nothing. It takes no memory.
    pub(crate) fn acknowledge(&mut self, site: &SiteName, mark: u64)
        requires { mark ≤ last_position site.now self.old.deferred }
        ensures marks { self.new.marks ≡ map (raised_mark site.now mark) self.old.marks }
        ensures deferred { self.new.deferred ≡ self.old.deferred }
        ensures noted { self.new.noted ≡ self.old.noted }
    {
        self.queue.acknowledge(site, mark);
    }

    /// The last position of the stream to a site, 0 where nothing was queued for it.
    pub(crate) fn last(&self, to: &SiteName) -> u64
        ensures { result ≡ last_position to.now self.now.deferred }
    {
        self.queue.last(to)
    }

    /// The position up to which a site has acknowledged its stream.
    pub(crate) fn acked(&self, to: &SiteName) -> u64
        ensures { result ≡ acked_by to.now self.now.marks }
    {
        self.queue.acked(to)
    }

    /// The masters, in order.
    pub(crate) fn masters(&self) -> &[SiteName]
        ensures { result.now ≡ map (λ m. m.site) self.now.marks }
    {
        &self.masters
    }

    /// Whether a site is one of the masters.
    pub(crate) fn is_master(&self, site: &SiteName) -> bool
        ensures { result ≡ is_among (map (λ m. m.site) self.now.marks) site.now }
    {
        is_among(&self.masters, site)
    }
}
