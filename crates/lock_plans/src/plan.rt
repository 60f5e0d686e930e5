//! The requests of a call in the making.
ghost use Rattle.std.specs.Prelude.{◌≡◌, ◌++◌, [], length, take, IsTrue, OnOk, OnErr};
ghost use Rattle.std.specs.List.{AllByRecursion};
ghost use Rattle.lock_modes.specs.declared.ask.Ask.TheVariants as ask;
ghost use Rattle.lock_modes.specs.declared.mode.Mode.TheVariants.{NR, LR, SR, SX};
ghost use Rattle.lock_modes.specs.declared.edge_mode.EdgeMode.TheVariants.{ER, EX};
ghost use Rattle.lock_resources.specs.declared.resource.Side.TheVariants.{Prev, Last};
ghost use Rattle.lock_resources.specs.declared.resource.Resource.TheVariants.{Node, AttrRoot, Attr, Edge};
ghost use Rattle.lock_resources.specs.Intentions.{has_row, with_intentions};
ghost use Rattle.lock_resources.specs.Resources.{Fits};
ghost use Rattle.lock_plans.specs.inside.PlanSteps.{reads_found, takes_left, takes_right, takes_out};

use dewey_labels::{Label, List, NoMemory, Text};
use lock_modes::{Ask, EdgeMode, Mode};
use lock_resources::{Request, Resource, Side, with_intentions};
use std::alloc::Global;
use std::marker::Model;

/// The requests of a call so far, in their order, each with its intentions before it.
#[derive(Drop)]
pub struct Plan {
    requests: List<Request>,
}

impl Model for Plan {
    ghost use Rattle.std.specs.Prelude as p;
    ghost use Rattle.std.specs.List.{AllByRecursion};
    ghost use Rattle.lock_resources.specs.declared.request.Request.{Request};
    ghost use Rattle.lock_resources.specs.Resources.{Fits};

    ghost Value = { p.List Request };

    ghost view = { λ plan. plan.requests };

    ghost invariant = { λ plan. AllByRecursion Fits plan.requests };
}

impl Plan {
    /// The plan of no requests yet.
    pub fn new(alloc: Global) -> Plan
        ensures { result ≡ [] }
    {
        Plan {
            requests: with_room(alloc),
        }
    }

    /// Asks to read a node.
    pub fn read_node(&mut self, alloc: Global, at: &Label) -> Result<(), NoMemory>
        ensures { OnOk result (self.new ≡ self.old ++ with_intentions (Node at.now) (ask.Node NR)) }
    {
        self.ask_node(alloc, at, Mode::NR)
    }

    /// Asks to read the node that was found, if one was.
    pub fn read_found(&mut self, alloc: Global, found: &Option<Label>) -> Result<(), NoMemory>
        ensures { OnOk result (self.new ≡ self.old ++ reads_found found.now) }
    {
        match found {
            Some(at) => self.read_node(alloc, at),
            None => Ok(()),
        }
    }

    /// Asks to read a node and its children.
    pub fn read_level(&mut self, alloc: Global, at: &Label) -> Result<(), NoMemory>
        ensures { OnOk result (self.new ≡ self.old ++ with_intentions (Node at.now) (ask.Node LR)) }
    {
        self.ask_node(alloc, at, Mode::LR)
    }

    /// Asks to read a whole subtree.
    pub fn read_tree(&mut self, alloc: Global, at: &Label) -> Result<(), NoMemory>
        ensures { OnOk result (self.new ≡ self.old ++ with_intentions (Node at.now) (ask.Node SR)) }
    {
        self.ask_node(alloc, at, Mode::SR)
    }

    /// Asks to change a whole subtree.
    pub fn take_tree(&mut self, alloc: Global, at: &Label) -> Result<(), NoMemory>
        ensures { OnOk result (self.new ≡ self.old ++ with_intentions (Node at.now) (ask.Node SX)) }
    {
        self.ask_node(alloc, at, Mode::SX)
    }

    /// Asks to read all attributes of a place.
    pub fn read_attributes(&mut self, alloc: Global, at: &Label) -> Result<(), NoMemory>
        ensures { OnOk result (self.new ≡ self.old ++ with_intentions (AttrRoot at.now) (ask.Node LR)) }
    {
        let resource = Resource::AttrRoot(at.copy(alloc)?);
        self.ask(alloc, resource, Ask::Node(Mode::LR))
    }

    /// Asks to read an attribute, whether it is there or not.
    pub fn read_attribute(&mut self, alloc: Global, at: &Label, name: &Text) -> Result<(), NoMemory>
        ensures { OnOk result (self.new ≡ self.old ++ with_intentions (Attr at.now name.now) (ask.Node NR)) }
    {
        let resource = Resource::Attr(at.copy(alloc)?, name.copy(alloc)?);
        self.ask(alloc, resource, Ask::Node(Mode::NR))
    }

    /// Asks to change an attribute.
    pub fn take_attribute(&mut self, alloc: Global, at: &Label, name: &Text) -> Result<(), NoMemory>
        ensures { OnOk result (self.new ≡ self.old ++ with_intentions (Attr at.now name.now) (ask.Node SX)) }
    {
        let resource = Resource::Attr(at.copy(alloc)?, name.copy(alloc)?);
        self.ask(alloc, resource, Ask::Node(Mode::SX))
    }

    /// Asks which node stands at an edge, if one does.
    pub fn read_edge(&mut self, alloc: Global, at: &Label, side: Side) -> Result<(), NoMemory>
        ensures { OnOk result (self.new ≡ self.old ++ with_intentions (Edge at.now side) (ask.Edge ER)) }
    {
        self.ask_edge(alloc, at, side, EdgeMode::ER)
    }

    /// Asks to have another node stand at an edge.
    pub fn take_edge(&mut self, alloc: Global, at: &Label, side: Side) -> Result<(), NoMemory>
        ensures { OnOk result (self.new ≡ self.old ++ with_intentions (Edge at.now side) (ask.Edge EX)) }
    {
        self.ask_edge(alloc, at, side, EdgeMode::EX)
    }

    /// Takes the edge that leads into a gap from its left neighbour, or from the parent where there is none.
    pub fn take_left(
        &mut self,
        alloc: Global,
        parent: &Label,
        left: &Option<Label>,
    ) -> Result<(), NoMemory>
        ensures { OnOk result (self.new ≡ self.old ++ takes_left parent.now left.now) }
    {
        match left {
            Some(left) => self.take_edge(alloc, left, Side::Next),
            None => self.take_edge(alloc, parent, Side::First),
        }
    }

    /// Takes the edge that leads into a gap from its right neighbour, or from the parent where there is none.
    pub fn take_right(
        &mut self,
        alloc: Global,
        parent: &Label,
        right: &Option<Label>,
    ) -> Result<(), NoMemory>
        ensures { OnOk result (self.new ≡ self.old ++ takes_right parent.now right.now) }
    {
        match right {
            Some(right) => self.take_edge(alloc, right, Side::Prev),
            None => self.take_edge(alloc, parent, Side::Last),
        }
    }

    /// Takes the gap behind the last child.
    pub fn take_end(
        &mut self,
        alloc: Global,
        parent: &Label,
        last: &Option<Label>,
    ) -> Result<(), NoMemory>
        ensures { OnOk result (self.new ≡ self.old ++ (with_intentions (Edge parent.now Last) (ask.Edge EX) ++ takes_left parent.now last.now)) }
    {
        self.take_edge(alloc, parent, Side::Last)?;
        self.take_left(alloc, parent, last)
    }

    /// Takes the gap before a child.
    pub fn take_gap_before(
        &mut self,
        alloc: Global,
        parent: &Label,
        child: &Label,
        left: &Option<Label>,
    ) -> Result<(), NoMemory>
        ensures { OnOk result (self.new ≡ self.old ++ (with_intentions (Edge child.now Prev) (ask.Edge EX) ++ takes_left parent.now left.now)) }
    {
        self.take_edge(alloc, child, Side::Prev)?;
        self.take_left(alloc, parent, left)
    }

    /// Takes a child, to be taken out, and its gap.
    pub fn take_out(
        &mut self,
        alloc: Global,
        parent: &Label,
        child: &Label,
        left: &Option<Label>,
        right: &Option<Label>,
    ) -> Result<(), NoMemory>
        ensures { OnOk result (self.new ≡ self.old ++ takes_out parent.now child.now left.now right.now) }
    {
        self.take_tree(alloc, child)?;
        self.take_left(alloc, parent, left)?;
        self.take_right(alloc, parent, right)
    }

    /// Puts the requests behind those that are there, all of them or none.
    pub fn append_to(self, out: &mut List<Request>) -> Result<(), NoMemory>
        ensures ok { OnOk result (out.new ≡ out.old ++ self) }
        ensures err { OnErr result (out.new ≡ out.old) }
        ensures fits { AllByRecursion Fits self }
    {
        let Plan { requests } = self;
        if out.is_empty() {
            *out = requests;
            return Ok(());
        }
        let length = out.len();
        let pushed = push_all(requests, out);
        if pushed.is_err() {
            out.truncate(length);
        }
        pushed
    }

    fn ask_node(&mut self, alloc: Global, at: &Label, mode: Mode) -> Result<(), NoMemory>
        requires { IsTrue (has_row (Node at.now) (ask.Node mode)) }
        ensures { OnOk result (self.new ≡ self.old ++ with_intentions (Node at.now) (ask.Node mode)) }
    {
        let resource = Resource::Node(at.copy(alloc)?);
        self.ask(alloc, resource, Ask::Node(mode))
    }

    fn ask_edge(
        &mut self,
        alloc: Global,
        at: &Label,
        side: Side,
        mode: EdgeMode,
    ) -> Result<(), NoMemory>
        ensures { OnOk result (self.new ≡ self.old ++ with_intentions (Edge at.now side) (ask.Edge mode)) }
    {
        let resource = Resource::Edge(at.copy(alloc)?, side);
        self.ask(alloc, resource, Ask::Edge(mode))
    }

    /// Asks for a mode, with the intentions that it owes.
    #[tactic(auto, using(crate::proofs::PlanLaws::all_append))]
    fn ask(&mut self, alloc: Global, resource: Resource, mode: Ask) -> Result<(), NoMemory>
        requires { IsTrue (has_row resource mode) }
        ensures { OnOk result (self.new ≡ self.old ++ with_intentions resource mode) }
    {
        with_intentions(alloc, resource, mode, &mut self.requests)
    }
}

/// The empty list, with room for eight requests, or with none where there is no memory for that.
fn with_room(alloc: Global) -> List<Request>
    ensures { result ≡ [] }
{
    match Vec::with_capacity(alloc, 8) {
        Ok(requests) => List::from_vec(requests),
        Err(_) => List::new(alloc),
    }
}

/// Puts requests behind others, or some of them where memory runs out.
fn push_all(requests: List<Request>, out: &mut List<Request>) -> Result<(), NoMemory>
    ensures ok { OnOk result (out.new ≡ out.old ++ requests) }
    ensures begins { take (length out.old) out.new ≡ out.old }
{
    for request in requests.into_vec() {
        out.push(request)?;
    }
    Ok(())
}
