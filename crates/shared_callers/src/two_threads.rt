// Two sessions in threads of their own, a third that meets both, and the core that comes back.
ghost use Rattle.std.specs.Thread.{IsSync};
ghost use Rattle.std.specs.Prelude.{◌≡◌, ◌≢◌, IfOk, IfSome, true, false, slice_set};
ghost use Rattle.tree_model.specs.Tree.{Tree};
ghost use Rattle.node_seq.specs.Trees.{StandsFor};
ghost use Rattle.call_contract.specs.Books.{IsSerial};
ghost use Rattle.turn_lock.specs.Turns.{has_number, only_number};
ghost use Rattle.shared_store.specs.Bodies.{HasBodies};
ghost use Rattle.shared_store.specs.Lists.{book_of, SessionsFit};
ghost use Rattle.shared_store.specs.Sessions.{having_seen};
ghost use Rattle.shared_callers.specs.Known.{BeginsWith, HasReadBehind, HasReadIn, IsAfter, IsKnown, IsMade, KnowsBoth};

use call_contract::TreeCall;
use node_seq::NodeRead;
use shared_store::{Ended, Session, Store, StoreError};
use std::alloc::Global;
use std::sync::Wait;
use std::thread::{Threads, join};
use tx_core::Core;

/// Whether two sessions made their calls, what a third read of them, and the core afterwards.
#[derive(Drop)]
pub struct BothMade<C: TreeCall + Drop, B: NodeRead + Drop> {
    pub first: bool,
    pub second: bool,
    /// None where the third one's call or commit was refused or failed.
    pub read: Option<Ended>,
    pub core: Core<C, B>,
}

/// A transaction of one call. After an Err it may be live. Where it is committed it has read what the commits before it made, those that the session had seen among them.
fn make_call<C: TreeCall + Drop, B: NodeRead + Drop, R: Wait>(
    rt: &R,
    alloc: Global,
    store: &Store<C, B>,
    session: &mut Session<C, B>,
    call: C,
) -> Result<Ended, StoreError>
    requires { (session.old.lock ≡ store.now) × (session.old.under ≢ 0) }
    ensures same { session.new ≡ having_seen session.new.seen session.old }
    ensures made { IfOk result (λ e. IsMade session.old.under call e (book_of session.new.seen)) }
    ensures grown { BeginsWith session.old.seen session.new.seen }
    ensures read { IfOk result (λ e. HasReadBehind C.meaning B.contents session.old call e session.new) }
{
    session.begin(rt, alloc, store)?;
    let ended = session.call(rt, alloc, store, call)?;
    session.commit(rt, alloc, store)?;
    // Called for its contract: while the store is open what the session has seen is serial.
    session.is_legal();
    Ok(ended)
}

/// The same, after which the session has no transaction; whether it was made.
fn make_and_end<C: TreeCall + Drop, B: NodeRead + Drop, R: Wait>(
    rt: &R,
    alloc: Global,
    store: &Store<C, B>,
    mut session: Session<C, B>,
    call: C,
) -> (Session<C, B>, bool)
    requires { (session.lock ≡ store.now) × (session.under ≢ 0) }
    ensures { IsAfter session call result.0 result.1 }
{
    let made = make_call(rt, alloc, store, &mut session, call).is_ok();
    let _ended = session.abort(rt, store);
    (session, made)
}

/// A session of a number that the first one gives.
fn cut<C: TreeCall + Drop, B: NodeRead + Drop>(
    store: &Store<C, B>,
    session: &mut Session<C, B>,
    number: u32,
) -> Session<C, B>
    requires store { session.old.lock ≡ store.now }
    requires number { (has_number session.old.has number ≡ true) × (session.old.under ≢ number) }
    ensures kept { (session.new.lock ≡ session.old.lock) × (session.new.under ≡ session.old.under)
        × (session.new.has ≡ slice_set session.old.has number false) }
    ensures given { (result.lock ≡ session.old.lock) × (result.under ≡ number) × (result.has ≡ only_number number) }
{
    session.split(store, number)
}

/// Two sessions each make a transaction of one call, in threads of their own.
fn make_both<C: TreeCall + Drop + Send, B: NodeRead + Drop + Send, R: Threads + Wait + Sync>(
    rt: &R,
    alloc: Global,
    store: &Store<C, B>,
    one: Session<C, B>,
    two: Session<C, B>,
    first: C,
    second: C,
) -> ((Session<C, B>, bool), (Session<C, B>, bool))
    requires one { (one.lock ≡ store.now) × (one.under ≢ 0) }
    requires two { (two.lock ≡ store.now) × (two.under ≢ 0) }
    ensures one { IsAfter one first result.0.0 result.0.1 }
    ensures two { IsAfter two second result.1.0 result.1.1 }
{
    join(
        rt,
        move || -> (Session<C, B>, bool)
            requires { (one.lock ≡ store.now) × (one.under ≢ 0) }
            ensures { IsAfter one first result.0 result.1 }
        { make_and_end(rt, alloc, store, one, first) },
        move || -> (Session<C, B>, bool)
            requires { (two.lock ≡ store.now) × (two.under ≢ 0) }
            ensures { IsAfter two second result.0 result.1 }
        { make_and_end(rt, alloc, store, two, second) },
    )
}

/// Two sessions each make a transaction of one call in a thread of their own. A third meets both, and makes one too while the store is open; then the store is closed.
/// Where a session made its call, that stands in the core's book with its answer and its commit, and the book is serial.
/// The third one's calls were answered on the tree that the commits before its own make, those of the other two among them.
/// None where there was no memory for a store.
pub fn call_in_two_threads<
    C: TreeCall + Drop + Send,
    B: NodeRead + Drop + Send,
    R: Threads + Wait + Sync,
>(rt: &R, alloc: Global, core: Core<C, B>, first: C, second: C, read: C) -> Option<BothMade<C, B>>
    requires sessions { SessionsFit core.book }
    requires bodies { HasBodies C.meaning B.contents core }
    ensures first { IfSome result (λ r. r.first ≡ true → IsKnown 1 first r.core.book) }
    ensures second { IfSome result (λ r. r.second ≡ true → IsKnown 2 second r.core.book) }
    ensures read { IfSome result (λ r. HasReadIn C.meaning B.contents (KnowsBoth r.first first r.second second) 3 read r.read r.core) }
    ensures serial { IfSome result (λ r. (t : Tree) → StandsFor (B.contents r.core.opening) t
        → IsSerial C.meaning t r.core.number r.core.limit r.core.book) }
{
    let Ok((store, mut third)) = Store::new(alloc, core, 3) else {
        return None;
    };
    let one = cut(&store, &mut third, 1);
    let two = cut(&store, &mut third, 2);
    let ((mut one, first), (mut two, second)) = make_both(
        rt, alloc, &store, one, two, first, second,
    );
    third.meet(&store, &mut one);
    third.meet(&store, &mut two);
    let read = make_call(rt, alloc, &store, &mut third, read).ok();
    // Called for its contract: what it has seen begins with the opening.
    let _number = third.number();
    store.join(&mut third, one);
    store.join(&mut third, two);
    let core = store.close(third);
    // Called for its contract: the book is serial.
    let _entries = core.book().len();
    Some(BothMade {
        first,
        second,
        read,
        core,
    })
}
