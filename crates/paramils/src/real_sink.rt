//! Output to a stream of the system.
ghost use Rattle.std.specs.Prelude.{◌≡◌, None};
ghost use Rattle.std.specs.Io.{WritesAtMost};

use outside::{Fault, Sink};
use std::io;
use std::io::{Error, ErrorKind, Stderr, Stdout, Write};

/// How often a call that signals interrupt is taken up again.
const MOST_TRIES: u32 = 1_000;

/// A standard stream of this process.
#[derive(Clone, Copy)]
pub enum Standard {
    /// Standard output.
    Output(Stdout),
    /// Standard error.
    Errors(Stderr),
}

impl Write for Standard {
    fn write(&mut self, piece: &[u8]) -> io::Result<usize> {
        match self {
            Standard::Output(stream) => stream.write(piece),
            Standard::Errors(stream) => stream.write(piece),
        }
    }

    fn flush(&mut self) -> io::Result<()> {
        match self {
            Standard::Output(stream) => stream.flush(),
            Standard::Errors(stream) => stream.flush(),
        }
    }
}

/// Output to a stream. What it took isn't told.
#[derive(Drop)]
pub struct RealSink<W> {
    stream: W,
    faults: u64,
    empties: u64,
}

impl<W: Write> RealSink<W> {
    /// Output to this stream; no write has failed or taken nothing. Takes no memory.
    pub fn new(stream: W) -> RealSink<W>
        ensures faults { result.faults ≡ 0 }
        ensures empties { result.empties ≡ 0 }
    {
        RealSink {
            stream,
            faults: 0,
            empties: 0,
        }
    }

    /// How many writes have failed; it stands still at the greatest u64.
    pub fn faults(&self) -> u64
        ensures { result ≡ self.now.faults }
    {
        self.faults
    }
}

/// One write of the stream, which is taken up again where a signal interrupts it.
fn write_once<W: Write>(stream: &mut W, piece: &[u8]) -> io::Result<usize>
    ensures { WritesAtMost result piece.now }
{
    for _ in 0..MOST_TRIES {
        match stream.write(piece) {
            Err(error) if error.kind() == ErrorKind::Interrupted => {}
            written => return written,
        }
    }
    Err(Error::from(ErrorKind::Interrupted))
}

/// A flush of the stream, which is taken up again where a signal interrupts it.
fn flush<W: Write>(stream: &mut W) -> io::Result<()> {
    for _ in 0..MOST_TRIES {
        match stream.flush() {
            Err(error) if error.kind() == ErrorKind::Interrupted => {}
            flushed => return flushed,
        }
    }
    Err(Error::from(ErrorKind::Interrupted))
}

/// Writes a first part of the piece and passes it on to the system at once, so that a
/// closed pipe or a full disk shows in this call.
fn write_through<W: Write>(stream: &mut W, piece: &[u8]) -> io::Result<usize>
    ensures { WritesAtMost result piece.now }
{
    let taken = write_once(stream, piece)?;
    flush(stream)?;
    Ok(taken)
}

impl<W: Write + Drop> Sink for RealSink<W> {
    ghost told = { λ s. record { taken = None; faults = s.faults; empties = s.empties } };

    /// One write of the stream, and a flush. Failed at every error of either; after a flush
    /// that failed, a part may have been taken.
    fn write(&mut self, piece: &[u8]) -> Result<usize, Fault> {
        let Ok(taken) = write_through(&mut self.stream, piece) else {
            self.faults = self.faults.saturating_add(1);
            return Err(Fault::Failed);
        };
        if taken == 0 && !piece.is_empty() {
            self.empties = self.empties.saturating_add(1);
        }
        Ok(taken)
    }
}
