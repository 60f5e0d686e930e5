//! Each toy on a document with a text, worked by hand.
use crate::{Clear, Look, Never};
use call_contract::TreeCall;
use dewey_labels::{Label, List, Text};
use node_seq::SortedSeq;
use std::alloc::Global;
use std::test::Fail;
use tree_model::{Key, Record};

/// The document `<a>t</a>`, without its name.
fn document(alloc: Global) -> Result<SortedSeq, Fail> {
    let mut seq = SortedSeq::new(alloc);
    let rows = [
        ("1.1001", Record::Document),
        ("1.1001.1001", Record::Element(Text::of(alloc, "a")?)),
        ("1.1001.1001.1001", Record::Text(Text::of(alloc, "t")?)),
    ];
    for (label, record) in rows {
        let key = Key::of_node(alloc, &read(alloc, label)?)?;
        let _old = seq.put(alloc, key, record)?;
    }
    Ok(seq)
}

fn read(alloc: Global, label: &str) -> Result<Label, Fail> {
    Ok(Label::read_text(alloc, label.as_bytes())?)
}

/// How many requests and changes a call gives there, and its reply.
fn made<C: TreeCall>(alloc: Global, call: &C) -> Result<(usize, usize, String), Fail> {
    let mut seq = document(alloc)?;
    let mut requests = List::new(alloc);
    call.requests(alloc, &mut seq, &mut requests)?;
    let mut changes = List::new(alloc);
    let reply = call.apply(alloc, &mut seq, &mut changes)?;
    let text = format!(in alloc; "{reply:?}")?;
    Ok((requests.len(), changes.len(), text))
}

#[test]
fn each_toy_is_answered_with_ample_memory(rt: HostRuntime) -> Result<(), Fail> {
    let alloc = rt.alloc();
    let text = "1.1001.1001.1001";

    let (requests, changes, reply) = made(
        alloc,
        &Look {
            at: read(alloc, text)?,
        },
    )?;
    assert!(rt; requests == 4 && changes == 0 && reply.contains("#text"));
    let (requests, changes, reply) = made(
        alloc,
        &Look {
            at: read(alloc, "1.1003")?,
        },
    )?;
    assert!(rt; requests == 2 && changes == 0 && reply.contains("Dom(8)"));

    let (requests, changes, reply) = made(
        alloc,
        &Clear {
            at: read(alloc, text)?,
        },
    )?;
    assert!(rt; requests == 4 && changes == 1 && reply.contains("Nothing"));
    let (requests, changes, reply) = made(
        alloc,
        &Clear {
            at: read(alloc, "1.1001")?,
        },
    )?;
    assert!(rt; requests == 2 && changes == 0 && reply.contains("Dom(9)"));

    let (requests, changes, reply) = made(
        alloc,
        &Never {
            at: read(alloc, text)?,
        },
    )?;
    assert!(rt; requests == 0 && changes == 0 && reply.contains("Dom(9)"));
    Ok(())
}
