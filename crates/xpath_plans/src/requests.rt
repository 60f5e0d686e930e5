//! The requests of `find` over any map.
ghost use Rattle.std.specs.Prelude.{◌≡◌, ◌≤◌, ◌+◌, ◌++◌, OnErr, Some};
ghost use Rattle.std.specs.List.{AllByRecursion};
ghost use Rattle.lock_resources.specs.Resources.{Fits};
ghost use Rattle.node_seq.specs.Trees.{OnTree};
ghost use Rattle.outside_traits.specs.Faults.{HasCause};
ghost use Rattle.path_model.specs.Finds.{find, found_at};
ghost use Rattle.path_model.specs.PlainPaths.{plain_path};
ghost use Rattle.path_model.specs.Programs.{looked};
ghost use Rattle.xpath_axes.specs.Runs.{reads_of};
ghost use Rattle.xpath_plans.specs.Finds.{find_requests};

use crate::look_plan::LookPlan;
use dewey_labels::{Label, List};
use lock_resources::Request;
use node_seq::{NodeRead, SeqError};
use path_model::XPath;
use std::alloc::Global;
use tree_model::Reply;
use xpath_eval::answer_find;

/// Adds what a find asks for on the tree that a map stands for, a look once and each request with its intentions before it, and answers its reply:
/// by the time that all requests are known the path is evaluated, so the map is read once for both.
/// The reads are those of the evaluation: one for each position that its looks see, and one a look.
pub fn path_requests<S: NodeRead>(
    alloc: Global,
    path: &XPath,
    at: &Label,
    seq: &mut S,
    out: &mut List<Request>,
) -> Result<Option<Reply>, SeqError>
    ensures value { OnTree (S.contents seq.old) result (λ t _. out.new ≡ out.old ++ find_requests at.now (plain_path path.now) t) }
    ensures reply { OnTree (S.contents seq.old) result (λ t known. known ≡ Some (found_at at.now (plain_path path.now) t)) }
    ensures fits { AllByRecursion Fits out.old → AllByRecursion Fits out.new }
    ensures err { OnErr result (out.new ≡ out.old) }
    ensures reads { OnTree (S.contents seq.old) result (λ t _. S.reads seq.new ≤ S.reads seq.old + reads_of t (looked t (find at.now (plain_path path.now)))) }
    ensures unchanged { S.unchanged seq.old seq.new }
    ensures cause { HasCause SeqError.DiskFault (S.count seq.old) (S.count seq.new) result }
{
    let plan = LookPlan::new(alloc);
    let found = answer_find(alloc, path, at, seq, plan)?;
    let (reply, plan) = found;
    plan.append_to(alloc, out)?;
    Ok(Some(reply))
}
