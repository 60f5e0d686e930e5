//! Streams as sources and sinks.
use outside_kinds::{StdSink, StdSource};
use outside_traits::{Failed, Sink, Source};

#[test]
fn a_stream_gives_its_bytes_in_order_and_then_none(rt: HostRuntime) {
    let mut source = StdSource::new(b"abcde".as_slice());
    let mut buf = [0; 3];
    for (want, bytes) in &[(3, *b"abc"), (2, *b"dec"), (0, *b"dec")] {
        let read = source.read(&mut buf);
        assert_eq!(rt; (read, buf, source.faults()), (Ok(*want), *bytes, 0));
    }
}

#[test]
fn a_stream_takes_bytes_until_it_is_full(rt: HostRuntime) {
    let mut room = [0; 4];
    let mut sink = StdSink::new(room.as_mut_slice());
    let wrote = [sink.write(b"abc"), sink.write(b"def"), sink.write(b"ef")];
    assert_eq!(rt; (wrote, sink.faults()), ([Ok(3), Ok(1), Err(Failed)], 1));
}
