//! A call on the store's tree as a call of the lock machine.
ghost use Rattle.std.specs.Prelude.{◌≡◌, ◌++◌, [], IsTrue, IfOk, OnErr};
ghost use Rattle.command_lines.specs.ValidCommands.{IsValidWhat};
ghost use Rattle.command_lines.specs.declared.command.What.TheVariants.{Call};
ghost use Rattle.store_calls.specs.StoreCalls.{IsValidStoreCall, KeepsItself};

use crate::parts::{tell_label, tell_parts};
use call_contract::TreeCall;
use command_lines::StoreCall;
use dewey_labels::{Copied, List, NoMemory};
use dom_reads::{dom_read, is_reading};
use dom_writes::dom_write;
use lock_plans::dom_requests;
use lock_resources::Request;
use node_seq::{NodeRead, SeqError};
use std::alloc::Global;
use std::marker::Model;
use tree_model::{Changes, Reply};
use xpath_eval::evaluate;
use xpath_plans::path_requests;

/// A call on the store's tree, seen as that call. The type keeps that its fragment is valid and its path lawful, if it has them; its labels are labels and its texts are UTF-8 by theirs.
#[derive(Debug, Drop)]
pub struct StoreOp {
    call: StoreCall,
}

impl Model for StoreOp {
    ghost use Rattle.session_driver.specs.Asking.{BookCall};
    ghost use Rattle.tree_model.specs.contracts.fragment.Fragment as fragment;
    ghost use Rattle.path_model.specs.contracts.path.XPath as path;
    ghost use Rattle.std.specs.Coded.{codes};
    ghost use Rattle.store_calls.specs.StoreCalls.{KeepsItself};

    ghost Value = { BookCall };

    ghost coded = { Prim.hlevel (codes, fragment.the_row.coded, path.the_row.coded) };

    ghost view = { λ op. op.call };

    ghost invariant = { λ op. KeepsItself op.call };
}

impl StoreOp {
    /// A call of a command that was read. It takes no memory.
    #[tactic(auto, using(crate::proofs::KeptCalls::keeps_itself))]
    pub fn new(call: StoreCall) -> StoreOp
        requires valid { IsValidWhat (Call call) }
        ensures { result ≡ call }
    {
        StoreOp { call }
    }

    /// The call, which is valid.
    pub fn call(&self) -> &StoreCall
        ensures call { result.now ≡ self.now }
        ensures valid { IsValidStoreCall self.now }
    {
        tell_call(&self.call);
        &self.call
    }

    pub fn copy(&self, alloc: Global) -> Result<StoreOp, NoMemory>
        ensures { IfOk result (λ copy. copy ≡ self.now) }
    {
        Ok(StoreOp {
            call: self.call.copy(alloc)?,
        })
    }
}

impl Copied for StoreOp {
    fn copy(&self, alloc: Global) -> Result<StoreOp, NoMemory> {
        StoreOp::copy(self, alloc)
    }
}

/// Tells that a call is valid where it keeps what it must.
fn tell_call(call: &StoreCall)
    ensures { KeepsItself call.now → IsValidStoreCall call.now }
{
    match call {
        StoreCall::Dom(call) => tell_parts(call),
        StoreCall::Find { at, .. } => tell_label(at),
    }
}

impl TreeCall for StoreOp {
    ghost use Rattle.std.specs.Prelude.{IfSome};
    ghost use Rattle.std.specs.List.{AllByRecursion};
    ghost use Rattle.lock_resources.specs.Resources.{Fits};
    ghost use Rattle.outside_traits.specs.Faults.{HasCause};
    ghost use Rattle.node_seq.specs.Trees.{OnTree};
    ghost use Rattle.call_contract.specs.Calls.{OnlyAnswers};
    ghost use Rattle.store_calls.specs.StoreCalls.{store_meaning, IsValidStoreCall, KnowsFind};
    ghost use Rattle.store_calls.specs.inside.KindLaws.{laws_of_kinds};

    ghost meaning = { store_meaning };

    ghost is_valid = { IsValidStoreCall };

    fn requests<S: NodeRead>(
        &self,
        alloc: Global,
        seq: &mut S,
        out: &mut List<Request>,
    ) -> Result<Option<Reply>, SeqError>
        ensures value { OnTree (S.contents seq.old) result (λ t _. out.new ≡ out.old ++ store_meaning.requests self.now t) }
        ensures known { OnTree (S.contents seq.old) result (λ t known. IfSome known (OnlyAnswers store_meaning self.now t)) }
        ensures find { OnTree (S.contents seq.old) result (KnowsFind self.now) }
        ensures fits { AllByRecursion Fits out.old → AllByRecursion Fits out.new }
        ensures err { OnErr result (out.new ≡ out.old) }
        ensures valid { IsValidStoreCall self.now }
        ensures unchanged { S.unchanged seq.old seq.new }
        ensures cause { HasCause SeqError.DiskFault (S.count seq.old) (S.count seq.new) result }
    {
        match self.call() {
            StoreCall::Dom(call) => dom_requests(alloc, call, seq, out),
            StoreCall::Find { at, path } => path_requests(alloc, path, at, seq, out),
        }
    }

    fn apply<S: NodeRead>(
        &self,
        alloc: Global,
        seq: &mut S,
        out: &mut Changes,
    ) -> Result<Reply, SeqError> {
        // It tells that a known map is in order.
        let _faults = seq.faults();
        match self.call() {
            StoreCall::Dom(call) if is_reading(call) => dom_read(alloc, call, seq),
            StoreCall::Dom(call) => dom_write(alloc, call, seq, out),
            StoreCall::Find { at, path } => evaluate(alloc, path, at, seq),
        }
    }

    ghost laws = { laws_of_kinds };
}
