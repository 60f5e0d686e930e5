//! What is visible by now and not yet durable.
ghost use Rattle.std.specs.Prelude.{◌≡◌, ◌≤◌, ◌+◌, length};
ghost use Rattle.tree_model.specs.Tree.{Tree};
ghost use Rattle.node_records.specs.Pending.{FollowOn};
ghost use Rattle.turn_lock.specs.Turns.{only_number};
ghost use Rattle.shared_store.specs.Bodies.{HaveLastBodies};
ghost use Rattle.shared_store.specs.Lists.{book_of, drained_in, OpensFrom};
ghost use Rattle.shared_store.specs.Sessions.{having_seen};
ghost use Rattle.group_commit.specs.Marks.{last_commit};
ghost use Rattle.group_commit.specs.inside.Scribes.{GoesOnWithout};

use call_contract::TreeCall;
use dewey_labels::List;
use node_records::Pending;
use node_seq::NodeRead;
use shared_store::{Session, Store};
use std::sync::Wait;

/// Hands out the commits that are visible and weren't handed out yet. The one that the session has made last is among them, or among those handed out before.
pub fn gather<C: TreeCall + Drop, B: NodeRead + Drop, R: Wait>(
    rt: &R,
    store: &Store<C, B>,
    drainer: &mut Session<C, B>,
    session: &mut Session<C, B>,
) -> List<Pending>
    requires store { (drainer.old.lock ≡ store.now) × (session.old.lock ≡ store.now) }
    requires number { drainer.old.has ≡ only_number 0 }
    ensures session { session.new ≡ session.old }
    ensures drainer { drainer.new ≡ having_seen drainer.new.seen drainer.old }
    ensures grown { GoesOnWithout drainer.old.seen drainer.new.seen }
    ensures follow { FollowOn (drained_in drainer.old.seen) result }
    ensures all { drained_in drainer.old.seen + length result ≡ last_commit drainer.new.seen }
    ensures drained { drained_in drainer.new.seen ≡ last_commit drainer.new.seen }
    ensures bodies { (t : Tree) → OpensFrom B.contents drainer.new.seen t → HaveLastBodies C.meaning t (book_of drainer.new.seen) result }
    ensures covers { last_commit session.old.seen ≤ last_commit drainer.new.seen }
{
    // Called for their contract: both lists begin with the opening.
    let _numbers = (drainer.number(), session.number());
    drainer.meet(store, session);
    drainer.drain(rt, store)
}
