//! The descriptors of the streams, taken before any file is opened.
use std::fs::File;
use std::io;
use std::os::fd::AsRawFd;
use std::rt::Files;

/// Standard input, output and error: whoever has this knows that their descriptors, 0, 1 and 2, are taken. Those that were closed are /dev/null, up to the end of this value.
/// There a read finds the end, and a write fails.
#[derive(Drop)]
pub struct Streams {
    _first: Option<File>,
    _second: Option<File>,
    _third: Option<File>,
}

impl Streams {
    /// Takes what is closed of the three: a file that is opened has the least descriptor that is free.
    pub fn take<R: Files<File = File>>(rt: &R) -> io::Result<Streams> {
        Ok(Streams {
            _first: take_stream(rt)?,
            _second: take_stream(rt)?,
            _third: take_stream(rt)?,
        })
    }
}

/// The descriptor of the first stream that is closed, if one is.
fn take_stream<R: Files<File = File>>(rt: &R) -> io::Result<Option<File>> {
    let file = File::open(rt, "/dev/null")?;
    if file.as_raw_fd() > 2 {
        return Ok(None);
    }
    Ok(Some(file))
}
