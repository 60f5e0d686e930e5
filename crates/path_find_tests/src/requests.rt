//! What finds ask for.
use crate::documents::{Held, TWO, map_of};
use crate::finds::show_reply;
use dewey_labels::{Label, List, NoMemory};
use lock_resources::Request;
use std::alloc::Global;
use std::test::Fail;
use xpath_parser::parse;
use xpath_plans::path_requests;

/// Shows a request as its resource's text, the mode's name and a comma.
fn show(alloc: Global, request: &Request, out: &mut List<u8>) -> Result<(), NoMemory> {
    request.resource.write_text(alloc, out)?;
    out.push(b' ')?;
    out.extend_from_slice(alloc, request.ask.name().as_bytes())?;
    out.push(b',')
}

/// Whether a path from the document asks for this, and then is answered this.
fn asks(alloc: Global, entries: &[(&str, Held)], path: &str, wanted: &str) -> Result<bool, Fail> {
    let mut map = map_of(alloc, entries)?;
    let at = Label::read_text(alloc, b"1.1001")?;
    let path = parse(alloc, path)?;
    let mut requests = List::new(alloc);
    let known = path_requests(alloc, &path, &at, &mut map, &mut requests)?;
    let mut shown = List::new(alloc);
    for request in requests.as_slice() {
        show(alloc, request, &mut shown)?;
    }
    if let Some(reply) = &known {
        show_reply(alloc, reply, &mut shown)?;
    }
    Ok(shown.as_slice() == wanted.as_bytes())
}

/// The node, which is the document and isn't asked for again as such; all from there down, the children of each node,
/// and the attribute of each `b`, though nothing is found.
const OF_NOTHING: &str = "\
node 1 IR,node 1.1001 NR,\
node 1 IR,node 1.1001 SR,\
node 1 IR,node 1.1001 LR,\
node 1 IR,node 1.1001 IR,node 1.1001.1001 LR,\
node 1 IR,node 1.1001 IR,node 1.1001.1001 IR,node 1.1001.1001.1001 IR,attrs 1.1001.1001.1001.1 IR,attr 1.1001.1001.1001 k NR,\
node 1 IR,node 1.1001 IR,node 1.1001.1001 IR,node 1.1001.1001.1003 IR,attrs 1.1001.1001.1003.1 IR,attr 1.1001.1001.1003 k NR,\
node 1 IR,node 1.1001 IR,node 1.1001.1001 IR,node 1.1001.1001.1001 LR,\
node 1 IR,node 1.1001 IR,node 1.1001.1001 IR,node 1.1001.1001.1003 LR,";

/// A missing child is asked for as one that is there.
const OF_A_MISSING_CHILD: &str = "node 1 IR,node 1.1001 NR,node 1 IR,node 1.1001 LR,";

/// The rows are looked at again for each predicate and each node: they are asked for once.
const OF_ALL: &str = "\
node 1 IR,node 1.1001 NR,\
node 1 IR,node 1.1001 SR,\
node 1 IR,node 1.1001 LR,\
node 1 IR,node 1.1001 IR,node 1.1001.1001 LR,\
node 1 IR,node 1.1001 IR,node 1.1001.1001 IR,node 1.1001.1001.1001 LR,\
node 1 IR,node 1.1001 IR,node 1.1001.1001 IR,node 1.1001.1001.1003 LR,\
1.1001.1001,1.1001.1001.1001,1.1001.1001.1003,";

#[test]
fn an_empty_node_set_is_asked_for(rt: HostRuntime) -> Result<(), Fail> {
    let alloc = rt.alloc();
    assert!(rt; asks(alloc, &TWO, "//b[@k='1'][2]", OF_NOTHING)?);
    assert!(rt; asks(alloc, &TWO, "z", OF_A_MISSING_CHILD)?);
    assert!(rt; asks(alloc, &TWO, "//*[//*[//*]]", OF_ALL)?);
    Ok(())
}
