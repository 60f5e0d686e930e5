//! Calls made of calls that keep the four laws keep them too: under requests that cover more, with each request replaced, with requests behind their own, and two in a row.

ghost use Rattle.std.specs.Prelude.{List};
ghost use Rattle.lock_resources.specs.declared.request.Request.{Request};
ghost use Rattle.tree_model.specs.declared.reply.Reply.{Reply};
ghost use Rattle.tree_model.specs.Tree.{Tree};
ghost use Rattle.call_contract.specs.Calls.{CallLaws};
ghost use Rattle.call_contract.specs.CallsOfCalls.{AreAskable, CoverOwn, asking, IsReplacement, replaced_meaning, FollowInForm, followed_meaning, TwoCalls, KeepLawsInARow, KeepLawsInTurn};

use crate::TreeCall;

/// A call keeps the laws under any requests that cover its own, have the form, and are told one by one by what those before them cover.
pub fn requests_may_cover_more<C: TreeCall>()
    ensures { (ask : C → Tree → List Request) → AreAskable C.is_valid ask → CoverOwn C.is_valid C.meaning ask → CallLaws C C.is_valid (asking ask C.meaning) }
{}

/// So it does with each of its requests replaced by a list, where that keeps lists in their form and covers at least what they did.
pub fn requests_may_be_replaced<C: TreeCall>()
    ensures { (f : C → Request → List Request) → ((c : C) → C.is_valid c → IsReplacement (f c)) → CallLaws C C.is_valid (replaced_meaning f C.meaning) }
{}

/// And with further requests in the form behind its own, which its reply tells.
pub fn requests_may_follow<C: TreeCall>()
    ensures { (more : C → Reply → List Request) → FollowInForm C.is_valid C.meaning more → CallLaws C C.is_valid (followed_meaning more C.meaning) }
{}

/// Two calls in a row, of which the second may hang on the tree before both, keep the laws as one call under requests on that tree that cover what both ask for and tell the second.
/// Where one of them is refused, both are, and nothing changes.
pub fn two_calls_may_be_one<A, C: TreeCall, D: TreeCall>()
    ensures { (p : TwoCalls A C D) → KeepLawsInARow C.is_valid D.is_valid C.meaning D.meaning p }
{}

/// Where each of the two asks its own requests, one behind the other's, that the first tells the second is enough.
pub fn two_calls_may_ask_in_turn<A, C: TreeCall, D: TreeCall>()
    ensures { (p : TwoCalls A C D) → KeepLawsInTurn C.is_valid D.is_valid C.meaning D.meaning p }
{}
