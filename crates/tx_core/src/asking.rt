//! What a call asks for and answers on what a transaction sees, and how far its requests are granted.

ghost use Rattle.std.specs.Prelude.{◌≡◌, ◌≤◌, IsTrue, IfOk, IfSome, OnErr};
ghost use Rattle.outside_traits.specs.Faults.{HasCause};
ghost use Rattle.node_seq.specs.declared.node_read.SeqError.TheVariants.{DiskFault};
ghost use Rattle.node_seq.specs.ChangeLists.{IsChangeList};
ghost use Rattle.call_contract.specs.Calls.{OnlyAnswers, changes_of};
ghost use Rattle.lock_table.specs.Tables.{Table, Answers, IsSame};
ghost use Rattle.overlays.specs.Views.{AreEmptyIn, contents_seen};
ghost use Rattle.tx_core.specs.inside.Asking.{AreGranted, IsGot, IsCovered, OnSeenTree};

use crate::modes::has;
use call_contract::TreeCall;
use dewey_labels::{List, NoMemory};
use lock_resources::{Request, Resource};
use lock_table::{Asked, LockTable};
use node_seq::{NodeRead, SeqError};
use overlays::{Gaps, Layers, Overlay, View};
use std::alloc::Global;
use tree_model::{Changes, Reply};

/// How far requests were granted.
#[derive(Drop)]
pub enum Got {
    All,
    /// So many were granted, and these owners bar the next one.
    Barred { granted: usize, holders: List<u32> },
    /// There was no memory after so many.
    NoMemory { granted: usize },
}

/// Requests come as ways, each from the root down. These are the ways up to one of them.
#[derive(Drop, Clone, Copy)]
struct Ways {
    /// Where the present way begins.
    start: usize,
    /// How long the way before it is.
    before: usize,
}

impl Ways {
    /// The ways up to the request at this index. One on the root's node begins a way.
    fn reach(self, index: usize, request: &Request) -> Ways
        requires start { self.start ≤ index }
        requires before { self.before ≤ index }
        ensures start { result.start ≤ index }
        ensures before { result.before ≤ index }
    {
        match &request.resource {
            Resource::Node(label) if label.divisions().len() == 1 => Ways {
                start: index,
                before: index - self.start,
            },
            _ => self,
        }
    }
}

/// Whether the request at this index is an earlier one that covers this one: it is at the same resource, and its mode has this one's.
fn is_covered(earlier: &[Request], index: usize, request: &Request) -> bool
    ensures { IsTrue result → IsCovered earlier.now request.now }
{
    match earlier.get(index) {
        Some(one) => {
            one.resource.cmp(&request.resource).is_eq() && has(Some(one.ask), request.ask)
        }
        None => false,
    }
}

/// Asks for the request that comes after these, which were granted.
/// The table isn't asked where the one at this index covers it.
fn ask_next(
    alloc: Global,
    table: &mut LockTable,
    owner: u32,
    earlier: &[Request],
    index: usize,
    request: &Request,
) -> Result<Asked, NoMemory>
    requires granted { (t : Table) × AreGranted t owner earlier.now table.old }
    ensures answer { IfOk result (Answers table.old owner request.now table.new) }
    ensures err { OnErr result (IsSame table.old table.new) }
{
    if is_covered(earlier, index, request) {
        return Ok(Asked::Granted);
    }
    table.ask(alloc, owner, request)
}

/// Asks for each in its turn, up to the first that is barred.
/// A way begins mostly as the one before it, so the table isn't asked for what the request as far down that one covers.
pub fn ask_all(alloc: Global, table: &mut LockTable, owner: u32, requests: &[Request]) -> Got
    ensures { IsGot table.old owner requests.now table.new result }
{
    let mut granted = 0;
    let mut ways = Ways {
        start: 0,
        before: 0,
    };
    while granted < requests.len() {
        let request = &requests[granted];
        let earlier = &requests[..granted];
        ways = ways.reach(granted, request);
        let twin = granted - ways.before;
        match ask_next(alloc, table, owner, earlier, twin, request) {
            Ok(Asked::Granted) => granted += 1,
            Ok(Asked::Conflict { holders }) => return Got::Barred { granted, holders },
            Err(_) => return Got::NoMemory { granted },
        }
    }
    Got::All
}

/// What a call asks for, and its reply where that is known by then and the call changes nothing.
#[derive(Drop)]
pub struct Wanted {
    pub requests: List<Request>,
    pub reply: Option<Reply>,
}

/// What a call asks for on what a transaction sees. What its reads pass is noted.
pub fn asked<'v, C: TreeCall, B: NodeRead>(
    alloc: Global,
    base: &'v mut B,
    layers: &'v Layers,
    own: &'v Overlay,
    gaps: &'v mut Gaps,
    call: &C,
) -> Result<Wanted, SeqError>
    requires empty { AreEmptyIn gaps.old (contents_seen own.now layers.now.changes (B.contents base.old)) }
    ensures value { OnSeenTree own.now layers.now (B.contents base.old) result
        (λ t wanted. wanted.requests ≡ C.meaning.requests call.now t) }
    ensures known { OnSeenTree own.now layers.now (B.contents base.old) result
        (λ t wanted. IfSome wanted.reply (OnlyAnswers C.meaning call.now t)) }
    ensures valid { C.is_valid call.now }
    ensures empty { AreEmptyIn gaps.new (contents_seen own.now layers.now.changes (B.contents base.new)) }
    ensures unchanged { B.unchanged base.old base.new }
    ensures cause { HasCause DiskFault (B.count base.old) (B.count base.new) result }
{
    let mut requests = List::new(alloc);
    let mut view = View {
        base,
        layers,
        own,
        gaps,
    };
    let reply = call.requests(alloc, &mut view, &mut requests)?;
    Ok(Wanted { requests, reply })
}

/// A reply, and the changes that go with it.
#[derive(Drop)]
pub struct Outcome {
    pub reply: Reply,
    pub changes: Changes,
}

/// What a call answers on what a transaction sees, and what it changes there. What its reads pass is noted.
pub fn made<'v, C: TreeCall, B: NodeRead>(
    alloc: Global,
    base: &'v mut B,
    layers: &'v Layers,
    own: &'v Overlay,
    gaps: &'v mut Gaps,
    call: &C,
) -> Result<Outcome, SeqError>
    requires empty { AreEmptyIn gaps.old (contents_seen own.now layers.now.changes (B.contents base.old)) }
    ensures reply { OnSeenTree own.now layers.now (B.contents base.old) result
        (λ t made. made.reply ≡ C.meaning.reply call.now t) }
    ensures changes { OnSeenTree own.now layers.now (B.contents base.old) result
        (λ t made. made.changes ≡ changes_of C.meaning call.now t) }
    ensures rise { IfOk result (λ made. IsChangeList made.changes) }
    ensures valid { C.is_valid call.now }
    ensures empty { AreEmptyIn gaps.new (contents_seen own.now layers.now.changes (B.contents base.new)) }
    ensures unchanged { B.unchanged base.old base.new }
    ensures cause { HasCause DiskFault (B.count base.old) (B.count base.new) result }
{
    let mut changes = List::new(alloc);
    let mut view = View {
        base,
        layers,
        own,
        gaps,
    };
    let reply = call.apply(alloc, &mut view, &mut changes)?;
    Ok(Outcome { reply, changes })
}
