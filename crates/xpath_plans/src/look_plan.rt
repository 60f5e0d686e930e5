//! The requests of looks in the making.
ghost use Rattle.std.specs.Prelude.{◌≡◌, ◌++◌, [], length, take, IsTrue, IfOk, OnOk, OnErr};
ghost use Rattle.std.specs.List.{AllByRecursion};
ghost use Rattle.lock_resources.specs.Resources.{Fits};
ghost use Rattle.xpath_axes.specs.Looks.{meant};
ghost use Rattle.xpath_plans.specs.LookRequests.{requests_of};
ghost use Rattle.xpath_plans.specs.OnceNoted.{once};
ghost use Rattle.xpath_plans.specs.inside.NotedLooks.{looks_of};

use crate::noted_look::NotedLook;
use dewey_labels::{List, NoMemory};
use lock_resources::{Request, with_intentions};
use std::alloc::Global;
use std::collections::BTreeSet;
use std::marker::Model;
use xpath_eval::{Look, Notes};

/// The looks so far, each once, in the order in which they were first made.
#[derive(Drop)]
pub struct LookPlan {
    looks: List<NotedLook>,
    /// The same looks, to be found again.
    noted: BTreeSet<NotedLook>,
}

impl Model for LookPlan {
    ghost use Rattle.std.specs.Prelude as p;
    ghost use Rattle.path_model.specs.Programs.{Look};
    ghost use Rattle.xpath_plans.specs.inside.NotedLooks.{looks_of, HasNoted};

    ghost Value = { p.List Look };

    ghost view = { λ plan. looks_of plan.looks };

    ghost invariant = { λ plan. HasNoted plan.noted (looks_of plan.looks) };
}

impl LookPlan {
    /// The plan of no looks yet.
    pub fn new(alloc: Global) -> LookPlan
        ensures { result ≡ [] }
    {
        LookPlan {
            looks: List::new(alloc),
            noted: BTreeSet::new(alloc),
        }
    }

    /// Puts the looks' requests behind those that are there, each with its intentions before it; all of them or none.
    pub fn append_to(self, alloc: Global, out: &mut List<Request>) -> Result<(), NoMemory>
        ensures ok { OnOk result (out.new ≡ out.old ++ requests_of self) }
        ensures err { OnErr result (out.new ≡ out.old) }
        ensures fits { AllByRecursion Fits out.old → AllByRecursion Fits out.new }
    {
        let LookPlan { looks, .. } = self;
        let length = out.len();
        let asked = ask_all(alloc, looks, out);
        if asked.is_err() {
            out.truncate(length);
        }
        asked
    }
}

impl Notes for LookPlan {
    ghost use Rattle.xpath_plans.specs.inside.PlanLists.{nothing_noted, noted_further, noted_again};

    ghost saw = { λ before looks after. after ≡ before ++ once before looks };

    fn note(&mut self, alloc: Global, look: Look<'_>) -> Result<(), NoMemory> {
        let one = NotedLook::of(alloc, look)?;
        if self.noted.contains(&one) {
            return Ok(());
        }
        let length = self.looks.len();
        self.looks.push(NotedLook::of(alloc, look)?)?;
        if self.noted.insert(one).is_err() {
            // What can't be found again isn't noted.
            self.looks.truncate(length);
            return Err(NoMemory);
        }
        Ok(())
    }

    ghost saw_nothing = { nothing_noted };

    ghost saw_further = { noted_further };

    ghost saw_again = { noted_again };
}

/// Puts what looks ask for behind other requests, or some of it where memory runs out.
#[tactic(auto, using(crate::proofs::NotedLooks::requests_more, crate::proofs::SeenLabels::look_row, path_model::proofs::Members::all_joined))]
fn ask_all(alloc: Global, looks: List<NotedLook>, out: &mut List<Request>) -> Result<(), NoMemory>
    ensures ok { OnOk result (out.new ≡ out.old ++ requests_of (looks_of looks)) }
    ensures begins { take (length out.old) out.new ≡ out.old }
    ensures fits { AllByRecursion Fits out.old → AllByRecursion Fits out.new }
{
    for look in looks.into_vec() {
        let ask = look.ask();
        with_intentions(alloc, look.resource(), ask, out)?;
    }
    Ok(())
}
