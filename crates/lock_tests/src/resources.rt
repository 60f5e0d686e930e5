//! Requests with their intentions, and texts of resources, as the tables have them.
ghost use Rattle.std.specs.Prelude.{IsTrue};
ghost use Rattle.lock_resources.specs.Intentions.{has_row};

use dewey_labels::{Label, List, NoMemory, Text};
use lock_modes::{Ask, EdgeMode, Mode};
use lock_resources::{Request, Resource, Side, with_intentions};
use std::alloc::Global;
use std::test::Fail;

/// The label 1.1001.1001.2.1001, of a child behind an overflow division.
fn child(alloc: Global) -> Result<Label, Fail> {
    Ok(Label::read_text(alloc, b"1.1001.1001.2.1001")?)
}

/// The label of its parent, the document's element.
fn element(alloc: Global) -> Result<Label, Fail> {
    Ok(Label::read_text(alloc, b"1.1001.1001")?)
}

/// Whether these requests are added for one, each shown as its resource's text, the mode's name and a comma.
fn adds(alloc: Global, resource: Resource, ask: Ask, want: &str) -> Result<bool, NoMemory>
    requires { IsTrue (has_row resource ask) }
{
    let mut requests = List::new(alloc);
    with_intentions(alloc, resource, ask, &mut requests)?;
    are_shown(alloc, requests.as_slice(), want)
}

/// Whether these requests one after the other are shown so.
fn are_shown(alloc: Global, requests: &[Request], want: &str) -> Result<bool, NoMemory> {
    let mut text = List::new(alloc);
    for request in requests {
        show(alloc, request, &mut text)?;
    }
    Ok(text.as_slice() == want.as_bytes())
}

/// Shows a request as its resource's text, the mode's name and a comma.
fn show(alloc: Global, request: &Request, out: &mut List<u8>) -> Result<(), NoMemory> {
    request.resource.write_text(alloc, out)?;
    out.push(b' ')?;
    out.extend_from_slice(alloc, request.ask.name().as_bytes())?;
    out.push(b',')
}

/// Whether these requests are added for a changed attribute of a node.
fn changed_attribute_adds(
    alloc: Global,
    label: Label,
    name: &str,
    want: &str,
) -> Result<bool, NoMemory> {
    let one = Resource::Attr(label, Text::of(alloc, name)?);
    adds(alloc, one, Ask::Node(Mode::SX), want)
}

#[test]
fn a_read_node_owes_intentions_to_read(rt: HostRuntime) -> Result<(), Fail> {
    let alloc = rt.alloc();
    let want = "node 1 IR,node 1.1001 IR,node 1.1001.1001 IR,node 1.1001.1001.2.1001 SR,";
    let node = Resource::Node(child(alloc)?);
    assert!(rt; adds(alloc, node, Ask::Node(Mode::SR), want)?);
    Ok(())
}

#[test]
fn an_exclusive_node_owes_a_child_change_at_its_parent(rt: HostRuntime) -> Result<(), Fail> {
    let alloc = rt.alloc();
    let want = "node 1 IX,node 1.1001 IX,node 1.1001.1001 CX,node 1.1001.1001.2.1001 SX,";
    let node = Resource::Node(child(alloc)?);
    assert!(rt; adds(alloc, node, Ask::Node(Mode::SX), want)?);
    Ok(())
}

#[test]
fn the_root_has_nothing_above_it(rt: HostRuntime) -> Result<(), Fail> {
    let alloc = rt.alloc();
    let root = Resource::Node(Label::root(alloc)?);
    assert!(rt; adds(alloc, root, Ask::Node(Mode::SX), "node 1 SX,")?);
    Ok(())
}

#[test]
fn all_attributes_are_read_below_their_element(rt: HostRuntime) -> Result<(), Fail> {
    let alloc = rt.alloc();
    let want = "node 1 IR,node 1.1001 IR,node 1.1001.1001 IR,attrs 1.1001.1001.1 LR,";
    let all = Resource::AttrRoot(element(alloc)?);
    assert!(rt; adds(alloc, all, Ask::Node(Mode::LR), want)?);
    Ok(())
}

#[test]
fn an_attribute_is_read_below_all_of_them(rt: HostRuntime) -> Result<(), Fail> {
    let alloc = rt.alloc();
    let want =
        "node 1 IR,node 1.1001 IR,node 1.1001.1001 IR,attrs 1.1001.1001.1 IR,attr 1.1001.1001 k NR,";
    let one = Resource::Attr(element(alloc)?, Text::of(alloc, "k")?);
    assert!(rt; adds(alloc, one, Ask::Node(Mode::NR), want)?);
    Ok(())
}

#[test]
fn a_changed_attribute_owes_a_child_change_at_all_of_them(rt: HostRuntime) -> Result<(), Fail> {
    let alloc = rt.alloc();
    let want =
        "node 1 IX,node 1.1001 IX,node 1.1001.1001 IX,attrs 1.1001.1001.1 CX,attr 1.1001.1001 k SX,";
    assert!(rt; changed_attribute_adds(alloc, element(alloc)?, "k", want)?);
    Ok(())
}

#[test]
fn a_document_name_is_changed_as_an_attribute_of_the_root(rt: HostRuntime) -> Result<(), Fail> {
    let alloc = rt.alloc();
    let want = "node 1 IX,attrs 1.1 CX,attr 1 X SX,";
    assert!(rt; changed_attribute_adds(alloc, Label::root(alloc)?, "X", want)?);
    Ok(())
}

#[test]
fn an_edge_is_asked_below_a_read_node(rt: HostRuntime) -> Result<(), Fail> {
    let alloc = rt.alloc();
    let want = "node 1 IR,node 1.1001 IR,node 1.1001.1001 NR,first 1.1001.1001 EX,";
    let first = Resource::Edge(element(alloc)?, Side::First);
    assert!(rt; adds(alloc, first, Ask::Edge(EdgeMode::EX), want)?);
    Ok(())
}

/// A request to read an edge at the element.
fn edge_request(alloc: Global, side: Side) -> Result<Request, Fail> {
    Ok(Request {
        resource: Resource::Edge(element(alloc)?, side),
        ask: Ask::Edge(EdgeMode::ER),
    })
}

/// Whether a request is shown so.
fn is_shown(alloc: Global, request: &Request, want: &str) -> Result<bool, NoMemory> {
    let mut text = List::new(alloc);
    show(alloc, request, &mut text)?;
    Ok(text.as_slice() == want.as_bytes())
}

/// Whether the copy of a request is equal to it, and shown so.
fn copy_is_shown(alloc: Global, request: &Request, want: &str) -> Result<bool, NoMemory> {
    let copy = request.copy(alloc)?;
    Ok(copy == *request && is_shown(alloc, &copy, want)?)
}

/// Whether the copy of an edge's request is equal to it, and shown so.
fn edge_is_shown(alloc: Global, side: Side, want: &str) -> Result<bool, Fail> {
    let request = edge_request(alloc, side)?;
    Ok(copy_is_shown(alloc, &request, want)?)
}

/// A side, and how a request at it is shown.
const SIDES: [(Side, &str); 4] = [
    (Side::First, "first 1.1001.1001 ER,"),
    (Side::Last, "last 1.1001.1001 ER,"),
    (Side::Next, "next 1.1001.1001 ER,"),
    (Side::Prev, "prev 1.1001.1001 ER,"),
];

#[test]
fn each_side_has_its_word(rt: HostRuntime) -> Result<(), Fail> {
    let alloc = rt.alloc();
    for (side, want) in &SIDES {
        assert!(rt; edge_is_shown(alloc, *side, want)?);
    }
    Ok(())
}

/// Whether the element comes before a resource.
fn element_is_before(alloc: Global, other: Resource) -> Result<bool, Fail> {
    let node = Resource::Node(element(alloc)?);
    Ok(node < other)
}

#[test]
fn a_node_comes_before_its_children_and_its_attributes(rt: HostRuntime) -> Result<(), Fail> {
    let alloc = rt.alloc();
    assert!(rt; element_is_before(alloc, Resource::Node(child(alloc)?))?);
    assert!(rt; element_is_before(alloc, Resource::AttrRoot(Label::root(alloc)?))?);
    Ok(())
}
