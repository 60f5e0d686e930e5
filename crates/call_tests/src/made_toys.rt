//! Toys made of the toys: one under wider requests, one that asks for more by its reply, and two in a row. Each keeps the laws by those on calls of calls.
ghost use Rattle.std.specs.Prelude.{◌≡◌, ◌++◌, [], IsTrue, OnOk, OnErr};
ghost use Rattle.std.specs.List.{AllByRecursion};
ghost use Rattle.lock_modes.specs.declared.ask.Ask.TheVariants as ask;
ghost use Rattle.lock_modes.specs.declared.mode.Mode.TheVariants as mode_of;
ghost use Rattle.lock_resources.specs.declared.resource.Resource.TheVariants as resource;
ghost use Rattle.lock_resources.specs.Resources.{Fits};
ghost use Rattle.lock_resources.specs.Intentions.{has_row};
ghost use Rattle.tree_model.specs.Outcomes.{is_refused};
ghost use Rattle.outside_traits.specs.Faults.{HasCause};
ghost use Rattle.call_rows.specs.MadeToys.{at_node};
ghost use Rattle.node_seq.specs.declared.node_read.SeqError.TheVariants.{DiskFault};

use crate::toys::{Clear, Look, ask_node};
use call_contract::TreeCall;
use dewey_labels::{Label, List, NoMemory};
use lock_modes::Mode;
use lock_resources::Request;
use node_seq::{NodeRead, SeqError};
use std::alloc::Global;
use tree_model::{Changes, Reply};

/// Asks what the node at a label is, under a lock on all from it down.
#[derive(Debug, Drop)]
pub struct LookWide {
    pub look: Look,
}

/// Asks what the node at a label is, and where one is there holds all from it down.
#[derive(Debug, Drop)]
pub struct LookAndHold {
    pub look: Look,
}

/// Makes the data of a text empty, where a node has the label that is looked at.
#[derive(Debug, Drop)]
pub struct LookThenClear {
    pub look: Look,
    pub clear: Clear,
}

impl TreeCall for LookWide {
    ghost use Rattle.dewey_labels.specs.Labels.{IsLabel};
    ghost use Rattle.call_contract.specs.Calls.{held_meaning};
    ghost use Rattle.call_contract.proofs.HeldCalls.{held_laws};
    ghost use Rattle.call_rows.specs.MadeToys.{look_wide};
    ghost use Rattle.call_rows.proofs.MadeToyLaws.{look_wide_laws};

    ghost meaning = { held_meaning (λ c. c.look.at) look_wide };

    ghost is_valid = { λ c. IsLabel c.look.at };

    fn requests<S: NodeRead>(
        &self,
        alloc: Global,
        _seq: &mut S,
        out: &mut List<Request>,
    ) -> Result<Option<Reply>, SeqError> {
        let _divisions = self.look.at.divisions();
        ask_node(alloc, &self.look.at, Mode::SR, out)?;
        Ok(None)
    }

    fn apply<S: NodeRead>(
        &self,
        alloc: Global,
        seq: &mut S,
        out: &mut Changes,
    ) -> Result<Reply, SeqError> {
        self.look.apply(alloc, seq, out)
    }

    ghost laws = { held_laws (λ c. c.look.at) IsLabel look_wide look_wide_laws };
}

impl TreeCall for LookAndHold {
    ghost use Rattle.dewey_labels.specs.Labels.{IsLabel};
    ghost use Rattle.call_contract.specs.Calls.{held_meaning};
    ghost use Rattle.call_contract.proofs.HeldCalls.{held_laws};
    ghost use Rattle.call_rows.specs.MadeToys.{look_and_hold};
    ghost use Rattle.call_rows.proofs.MadeToyLaws.{look_and_hold_laws};

    ghost meaning = { held_meaning (λ c. c.look.at) look_and_hold };

    ghost is_valid = { λ c. IsLabel c.look.at };

    // The reply tells whether more is asked for.
    fn requests<S: NodeRead>(
        &self,
        alloc: Global,
        seq: &mut S,
        out: &mut List<Request>,
    ) -> Result<Option<Reply>, SeqError> {
        let mut none = List::new(alloc);
        let reply = self.look.apply(alloc, seq, &mut none)?;
        if is_refused(&reply) {
            ask_node(alloc, &self.look.at, Mode::NR, out)?;
        } else {
            ask_both(alloc, &self.look.at, &self.look.at, Mode::SR, out)?;
        }
        Ok(Some(reply))
    }

    fn apply<S: NodeRead>(
        &self,
        alloc: Global,
        seq: &mut S,
        out: &mut Changes,
    ) -> Result<Reply, SeqError> {
        self.look.apply(alloc, seq, out)
    }

    ghost laws = { held_laws (λ c. c.look.at) IsLabel look_and_hold look_and_hold_laws };
}

impl TreeCall for LookThenClear {
    ghost use Rattle.call_contract.specs.Calls.{held_meaning};
    ghost use Rattle.call_contract.proofs.HeldCalls.{held_laws};
    ghost use Rattle.call_rows.specs.MadeToys.{AreLabels, look_then_clear};
    ghost use Rattle.call_rows.proofs.MadeToyLaws.{look_then_clear_laws};

    ghost meaning = { held_meaning (λ c. (c.look.at, c.clear.at)) look_then_clear };

    ghost is_valid = { λ c. AreLabels (c.look.at, c.clear.at) };

    fn requests<S: NodeRead>(
        &self,
        alloc: Global,
        _seq: &mut S,
        out: &mut List<Request>,
    ) -> Result<Option<Reply>, SeqError> {
        let _looked = self.look.at.divisions();
        let _cleared = self.clear.at.divisions();
        ask_both(alloc, &self.look.at, &self.clear.at, Mode::SX, out)?;
        Ok(None)
    }

    fn apply<S: NodeRead>(
        &self,
        alloc: Global,
        seq: &mut S,
        out: &mut Changes,
    ) -> Result<Reply, SeqError> {
        let _cleared = self.clear.at.divisions();
        let mut none = List::new(alloc);
        let reply = self.look.apply(alloc, seq, &mut none)?;
        if is_refused(&reply) {
            return Ok(reply);
        }
        self.clear.apply(alloc, seq, out)
    }

    ghost laws = { held_laws (λ c. (c.look.at, c.clear.at)) AreLabels look_then_clear look_then_clear_laws };
}

/// Adds a request to read the one node and one at the other, both with their intentions.
fn ask_both(
    alloc: Global,
    one: &Label,
    other: &Label,
    mode: Mode,
    out: &mut List<Request>,
) -> Result<(), NoMemory>
    requires { IsTrue (has_row (resource.Node other.now) (ask.Node mode)) }
    ensures ok { OnOk result (out.new ≡ out.old ++ (at_node one.now mode_of.NR ++ at_node other.now mode)) }
    ensures fits { AllByRecursion Fits out.old → AllByRecursion Fits out.new }
    ensures err { OnErr result (out.new ≡ out.old) }
{
    let length = out.len();
    ask_node(alloc, one, Mode::NR, out)?;
    let asked = ask_node(alloc, other, mode, out);
    if asked.is_err() {
        out.truncate(length);
    }
    asked
}

/// Whether a reply is a refusal.
fn is_refused(reply: &Reply) -> bool
    ensures { result ≡ is_refused reply.now }
{
    matches!(reply, Reply::Refused(_))
}
