//! The intentions that a request owes on the way from the root to its resource.
ghost use Rattle.std.specs.Prelude.{◌≡◌, ◌++◌, [], ◌∷◌, IsTrue, OnOk, OnErr};
ghost use Rattle.std.specs.List.{AllByRecursion};
ghost use Rattle.lock_resources.specs.Resources.{label_of, Fits};
ghost use Rattle.dewey_labels.specs.Ancestors.{ancestors, IsWayDown};
ghost use Rattle.lock_resources.specs.Intentions.{has_row, request, on_node, on_attr_root, on_ancestors, directly_above, further_above, intentions, with_intentions, nodes_of};
ghost use Rattle.lock_resources.specs.inside.Gained.{GoesOn};

use crate::{Request, Resource};
use dewey_labels::{Label, List, NoMemory};
use lock_modes::{Ask, Mode};
use std::alloc::Global;

/// Adds the intentions that a request owes, from the root down, and then the request itself, into which the resource moves.
/// Each ancestor's label is made once, from the one above it, in time linear in its own length.
pub fn with_intentions(
    alloc: Global,
    resource: Resource,
    ask: Ask,
    out: &mut List<Request>,
) -> Result<(), NoMemory>
    requires { IsTrue (has_row resource ask) }
    ensures ok { OnOk result (out.new ≡ out.old ++ with_intentions resource ask) }
    ensures err { OnErr result (out.new ≡ out.old) }
    ensures nodes { nodes_of (with_intentions resource ask) ≡ ancestors (label_of resource) ++ label_of resource ∷ [] }
    ensures way { IsWayDown (ancestors (label_of resource) ++ label_of resource ∷ []) }
    ensures fits { AllByRecursion Fits (with_intentions resource ask) }
{
    // It tells that the resource's label is one, on which the clause `way` rests.
    let _divisions = resource.label().divisions();
    let length = out.len();
    let pushed = push_row(alloc, resource, ask, out);
    if pushed.is_err() {
        out.truncate(length);
    }
    pushed
}

/// Adds what the table's row for the request says, or some of it where memory runs out.
fn push_row(
    alloc: Global,
    resource: Resource,
    ask: Ask,
    out: &mut List<Request>,
) -> Result<(), NoMemory>
    ensures ok { OnOk result (out.new ≡ out.old ++ with_intentions resource ask) }
    ensures err { OnErr result (GoesOn out.old out.new) }
{
    push_intentions(alloc, &resource, ask, out)?;
    push_own(resource, ask, out)
}

/// Adds the intentions that a request owes.
fn push_intentions(
    alloc: Global,
    resource: &Resource,
    ask: Ask,
    out: &mut List<Request>,
) -> Result<(), NoMemory>
    ensures ok { OnOk result (out.new ≡ out.old ++ intentions resource.now ask) }
    ensures err { OnErr result (GoesOn out.old out.new) }
{
    let (further, directly) = (further_above(ask), directly_above(ask));
    match resource {
        Resource::Node(label) => push_ancestors(alloc, label, further, directly, out),
        Resource::AttrRoot(label) => push_way(alloc, label, Mode::IR, Mode::IR, Mode::IR, out),
        Resource::Attr(label, _) => {
            push_way(alloc, label, further, further, further, out)?;
            push_attr_root(alloc, label, directly, out)
        }
        Resource::Edge(label, _) => push_way(alloc, label, Mode::IR, Mode::IR, Mode::NR, out),
    }
}

/// The intention that a mode owes directly above its resource.
fn directly_above(ask: Ask) -> Mode
    ensures { result ≡ directly_above ask }
{
    match ask {
        Ask::Node(Mode::SX) => Mode::CX,
        _ => Mode::IR,
    }
}

/// The intention that a mode owes on all above that.
fn further_above(ask: Ask) -> Mode
    ensures { result ≡ further_above ask }
{
    match ask {
        Ask::Node(Mode::SX) => Mode::IX,
        _ => Mode::IR,
    }
}

/// Adds a request on each node from the root down to `label`: those on the proper ancestors, and `own` on the label's own node.
fn push_way(
    alloc: Global,
    label: &Label,
    above: Mode,
    parent: Mode,
    own: Mode,
    out: &mut List<Request>,
) -> Result<(), NoMemory>
    ensures ok { OnOk result (out.new ≡ out.old ++ (on_ancestors above parent label.now ++ on_node label.now own ∷ [])) }
    ensures err { OnErr result (GoesOn out.old out.new) }
{
    push_ancestors(alloc, label, above, parent, out)?;
    push_node(label.copy(alloc)?, own, out)
}

/// Adds a request on each proper ancestor of `label` from the root down: `above` on each but the parent, and `parent` on the parent.
fn push_ancestors(
    alloc: Global,
    label: &Label,
    above: Mode,
    parent: Mode,
    out: &mut List<Request>,
) -> Result<(), NoMemory>
    ensures ok { OnOk result (out.new ≡ out.old ++ on_ancestors above parent label.now) }
    ensures err { OnErr result (GoesOn out.old out.new) }
{
    let _divisions = label.divisions();
    let mut levels = label.level();
    if levels == 0 {
        return Ok(());
    }
    let mut at = Label::root(alloc)?;
    while levels > 1 {
        let Some(next) = at.child_toward(alloc, label)? else {
            unreachable!();
        };
        push_node(at, above, out)?;
        at = next;
        levels -= 1;
    }
    push_node(at, parent, out)
}

fn push_node(label: Label, mode: Mode, out: &mut List<Request>) -> Result<(), NoMemory>
    ensures ok { OnOk result (out.new ≡ out.old ++ on_node label mode ∷ []) }
    ensures err { OnErr result (out.new ≡ out.old) }
{
    out.push(Request {
        resource: Resource::Node(label),
        ask: Ask::Node(mode),
    })
}

fn push_attr_root(
    alloc: Global,
    label: &Label,
    mode: Mode,
    out: &mut List<Request>,
) -> Result<(), NoMemory>
    ensures ok { OnOk result (out.new ≡ out.old ++ on_attr_root label.now mode ∷ []) }
    ensures err { OnErr result (out.new ≡ out.old) }
{
    let resource = Resource::AttrRoot(label.copy(alloc)?);
    out.push(Request {
        resource,
        ask: Ask::Node(mode),
    })
}

fn push_own(resource: Resource, ask: Ask, out: &mut List<Request>) -> Result<(), NoMemory>
    ensures ok { OnOk result (out.new ≡ out.old ++ request resource ask ∷ []) }
    ensures err { OnErr result (out.new ≡ out.old) }
{
    out.push(Request { resource, ask })
}
