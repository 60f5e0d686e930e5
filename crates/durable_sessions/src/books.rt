//! What the first commits of a book in a journal stand for, for every type of calls.

ghost use Rattle.durable_sessions.specs.WrittenBooks.{OfFirstCommits, StandAfterSome};

use call_contract::TreeCall;

/// Behind the groups of a journal that stands for a tree beside its pages, some first of a book's commits, with their bodies, stand for the tree after these.
pub fn first_commits_stand<C: TreeCall>()
    ensures { OfFirstCommits C.meaning C.is_valid (StandAfterSome C.meaning) }
{}
