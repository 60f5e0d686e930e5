//! Laws of the definitions, for every type of calls.
ghost use Rattle.std.specs.Prelude.{◌≡◌};
ghost use Rattle.call_contract.specs.States.{Live, State};
ghost use Rattle.session_driver.specs.declared.doing.Doing.TheVariants.{Call};
ghost use Rattle.durable_sessions.specs.Asked.{asked_from};
ghost use Rattle.durable_sessions.specs.Lone.{IsAlone, IsAloneAfter, answered_alone};

use call_contract::TreeCall;

/// A call of a transaction that is alone is answered at once: it is never made to wait, and is no deadlock. It is alone then, too.
pub fn lone_calls_are_answered<C: TreeCall>()
    ensures answered { (st : State C) (t : Live C) (c : C) → IsAlone st t
        → asked_from C.meaning st t.session (Call c) ≡ answered_alone C.meaning st t c }
    ensures alone { (st : State C) (t : Live C) (c : C) → IsAlone st t → IsAloneAfter t (answered_alone C.meaning st t c).state }
{}
