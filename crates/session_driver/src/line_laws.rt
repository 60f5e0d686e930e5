//! Laws of what a session's lines do among all entries of a book, for every type of calls.

ghost use Rattle.std.specs.Prelude.{◌≡◌, ◌==◌, ◌++◌, ℕ, List, [], false};
ghost use Rattle.call_contract.specs.Books.{Book, next};
ghost use Rattle.call_contract.specs.States.{State, of_session};
ghost use Rattle.call_contract.specs.declared.events.Noted.{Noted};
ghost use Rattle.session_driver.specs.Sessions.{AreOthers, Does, DoesSome, IfBoth, IsPart, Printed, doings_of};

use call_contract::TreeCall;

/// What a session's lines do in one stretch of a book and then in the next one, they do in both.
#[tactic(auto, using(crate::specs::inside::SessionLaws::stretches))]
pub fn stretches_follow_one_another<C: TreeCall>()
    ensures { (s : ℕ) (es fs : Book C) (st : State C) (ps qs : List (Printed C))
        → IfBoth C.meaning s st es ps fs qs (IsPart C.meaning s st (es ++ fs) (ps ++ qs)) }
{}

/// Entries of other sessions are no line's.
#[tactic(auto, using(crate::specs::inside::SessionLaws::skipped))]
pub fn entries_of_others_are_passed_over<C: TreeCall>()
    ensures { (s : ℕ) (es : Book C) (st : State C) → AreOthers s es → IsPart C.meaning s st es [] }
{}

/// An entry of another session leaves the session's transaction, with the call that waits, and how many it has begun.
#[tactic(auto, using(crate::proofs::OtherSessions::same_live, crate::proofs::OtherSessions::same_ordinal))]
pub fn entries_of_others_leave_a_session<C: TreeCall>()
    ensures live { (s : ℕ) (st : State C) (n : Noted C) → (n.session == s) ≡ false → of_session s (next C.meaning st n).live ≡ of_session s st.live }
    ensures ordinal { (s : ℕ) (st : State C) (n : Noted C) → (n.session == s) ≡ false → (next C.meaning st n).ordinals s ≡ st.ordinals s }
{}

/// What a book has of all of these lines of a session, it has of what was asked by them.
#[tactic(auto, using(crate::proofs::InPart::done_in_part))]
pub fn what_is_done_is_done_in_part<C: TreeCall>()
    ensures { (s : ℕ) (st : State C) (book : Book C) (ps : List (Printed C)) → Does C.meaning s st book ps → DoesSome C.meaning s st book (doings_of ps) }
{}
