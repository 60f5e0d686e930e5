//! The trait of calls, with the laws that each implementation proves.
ghost use Rattle.std.specs.Prelude.{◌≡◌, ◌++◌, [], IfSome, OnErr};
ghost use Rattle.std.specs.List.{AllByRecursion};
ghost use Rattle.lock_resources.specs.Resources.{Fits};
ghost use Rattle.outside_traits.specs.Faults.{HasCause};
ghost use Rattle.node_seq.specs.declared.node_read.SeqError.TheVariants.{DiskFault};
ghost use Rattle.node_seq.specs.ChangeLists.{IsChangeList};
ghost use Rattle.node_seq.specs.Trees.{OnTree};
ghost use Rattle.call_contract.specs.Calls.{CallMeaning, CallLaws, OnlyAnswers, changes_of};

use dewey_labels::List;
use lock_resources::Request;
use node_seq::{NodeRead, SeqError};
use std::alloc::Global;
use tree_model::{Changes, Reply};

/// A call on the store's tree, over any sequence that stands for it.
///
/// `meaning` is what each call asks for on a tree, its reply, and the tree after it.
/// `is_valid` holds of every call of the type; each method tells it of its own.
/// `laws` are the form of the requests and the four laws, which each implementation proves: by them every legal book of such calls is serial.
pub trait TreeCall {
    ghost meaning: { CallMeaning Self };

    ghost is_valid: { Self → Type 0 };

    /// Adds what the call asks for on the tree, each request with its intentions before it.
    /// Where that shows the reply of a call that changes nothing, it is answered, and `apply` would answer the same.
    fn requests<S: NodeRead>(
        &self,
        alloc: Global,
        seq: &mut S,
        out: &mut List<Request>,
    ) -> Result<Option<Reply>, SeqError>
        ensures value { OnTree (S.contents seq.old) result (λ t _. out.new ≡ out.old ++ meaning.requests self.now t) }
        ensures known { OnTree (S.contents seq.old) result (λ t known. IfSome known (OnlyAnswers meaning self.now t)) }
        ensures fits { AllByRecursion Fits out.old → AllByRecursion Fits out.new }
        ensures err { OnErr result (out.new ≡ out.old) }
        ensures valid { is_valid self.now }
        ensures unchanged { S.unchanged seq.old seq.new }
        ensures cause { HasCause DiskFault (S.count seq.old) (S.count seq.new) result };

    /// The call's reply, with a change in `out` for each key whose record differs after it, by rising keys, and no other.
    fn apply<S: NodeRead>(
        &self,
        alloc: Global,
        seq: &mut S,
        out: &mut Changes,
    ) -> Result<Reply, SeqError>
        requires { out.old ≡ [] }
        ensures reply { OnTree (S.contents seq.old) result (λ t reply. reply ≡ meaning.reply self.now t) }
        ensures changes { OnTree (S.contents seq.old) result (λ t _. out.new ≡ changes_of meaning self.now t) }
        ensures rise { IsChangeList out.new }
        ensures err { OnErr result (out.new ≡ out.old) }
        ensures valid { is_valid self.now }
        ensures unchanged { S.unchanged seq.old seq.new }
        ensures cause { HasCause DiskFault (S.count seq.old) (S.count seq.new) result };

    ghost laws: { CallLaws Self is_valid meaning };
}
