// The promises of the README, each read off what `xtc` says of a run over a store that was opened:
// `leaves` of `xtc` is `XtcLeaves`, which is `OpenedStoreLeaves` for each status but those of a store that wasn't opened (specs/TopCall.antt); each law names a field there.
ghost use Rattle.outside_traits.specs.DiskPairs.{PairsHave, PairsLeave};
ghost use Rattle.call_contract.specs.Books.{IsBookFrom, IsSerial};
ghost use Rattle.session_driver.specs.Waiters.{AllStopped};
ghost use Rattle.store_calls.specs.StoreCalls.{IsValidStoreCall, store_meaning};
ghost use Rattle.xtc.specs.Promises.{EachAnswered, EachBook, EachLastState, EachOpened, EachPrefix, EachReading, IsOutput, KeepBytes};
ghost use Rattle.xtc.specs.TopCall.{AbortsLeaveAllElse, ShowTrueCycles};

/// The output is the replies that the lines have by the definition of sessions: all of them where all went well, after a fault a prefix, and before each read those of the lines that had ended
/// (`wrote`, `exact`, `prompt`). Of workers it is replies that one book shows, and of a document its text, once all went well.
#[tactic(auto, using(crate::proofs::PromiseLaws::output))]
pub fn every_output_is_the_replies()
    ensures { EachOpened IsOutput }
{}

/// Each book is legal: its entries are the steps of the lock machine, one after another. Its committed transactions, run one after another by one thread on a plain tree,
/// give exactly the replies that were given, and the committed tree. An aborted one leaves the tree and all others as they were.
#[tactic(auto, using(crate::proofs::PromiseLaws::legal, crate::proofs::PromiseLaws::serial, crate::proofs::PromiseLaws::aborts))]
pub fn every_run_is_serial()
    ensures legal { EachBook (IsBookFrom IsValidStoreCall store_meaning) }
    ensures serial { EachBook (IsSerial store_meaning) }
    ensures aborts { EachBook AbortsLeaveAllElse }
{}

/// A deadlock that was answered shows a true circle of waiting.
#[tactic(auto, using(crate::proofs::PromiseLaws::cycles))]
pub fn every_deadlock_is_true()
    ensures { EachBook ShowTrueCycles }
{}

/// Behind the last line no session waits whose call would be answered (`no_vain_wait`).
#[tactic(auto, using(crate::proofs::PromiseLaws::waits))]
pub fn nobody_is_left_waiting_in_vain()
    ensures { EachLastState (AllStopped store_meaning) }
{}

/// As they read at the end, the files stand for the tree after a prefix of the commits with every one that was answered; of workers after all, once anything was written.
#[tactic(auto, using(crate::proofs::PromiseLaws::files))]
pub fn files_hold_what_was_answered()
    ensures { EachAnswered (λ Held o. Held o.new.journal.now.reads o.new.pages.now.reads) }
{}

/// After a crash at the end they stand for such a tree, and after a crash at any moment since the opening for the tree after a prefix of the commits.
#[tactic(auto, using(crate::proofs::PromiseLaws::crash, crate::proofs::PromiseLaws::moments))]
pub fn crashes_lose_no_answered_commit()
    ensures at_the_end { EachAnswered (λ Held o. PairsHave Held o.new) }
    ensures at_any_moment { EachPrefix (λ Held opening o. PairsLeave Held opening o.new) }
{}

/// `get` and `query` leave the bytes of both files as they were handed in, unless a checkpoint was to be finished; a fresh journal gets the nine of one without groups.
#[tactic(auto, using(crate::proofs::PromiseLaws::reading))]
pub fn reading_leaves_both_files()
    ensures { EachReading KeepBytes }
{}
