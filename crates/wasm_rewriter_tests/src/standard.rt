// A sink over a writer of std's, by what reaches that writer, call by call.
use crate::devices::{cut_at, stays_failed};
use rewriter_devices::StdSink;
use std::alloc::Global;
use std::io;
use std::io::{ErrorKind, Write};

// What becomes of the writes and flushes of a writer.
#[derive(Clone, Copy, PartialEq, Eq)]
enum Fate {
    TakesAll,
    InterruptedOnce,
    TakesOne,
    TakesTwoThenNone,
    TakesTwoThenFails,
    FailsToFlush,
}

// A writer that keeps what it takes, and counts the calls.
#[derive(Drop)]
struct Counting {
    fate: Fate,
    taken: Vec<u8>,
    writes: u32,
    flushes: u32,
}

impl Write for Counting {
    fn write(&mut self, buf: &[u8]) -> io::Result<usize> {
        self.writes = self.writes.saturating_add(1);
        let is_first = self.writes == 1;
        let most = match self.fate {
            Fate::InterruptedOnce if is_first => {
                return Err(io::Error::from(ErrorKind::Interrupted));
            }
            Fate::TakesTwoThenFails if !is_first => {
                return Err(io::Error::from(ErrorKind::Other));
            }
            Fate::TakesTwoThenNone if !is_first => 0,
            Fate::TakesTwoThenNone | Fate::TakesTwoThenFails => 2,
            Fate::TakesOne => 1,
            Fate::TakesAll | Fate::InterruptedOnce | Fate::FailsToFlush => buf.len(),
        };
        let count = buf.len().min(most);
        self.taken.extend_from_slice(&buf[..count])?;
        Ok(count)
    }

    fn flush(&mut self) -> io::Result<()> {
        self.flushes = self.flushes.saturating_add(1);
        if self.fate == Fate::FailsToFlush {
            return Err(io::Error::from(ErrorKind::Other));
        }
        Ok(())
    }
}

// What a sending of four bytes left: how many were written where it failed, and the writer.
fn sent(alloc: Global, fate: Fate) -> (Option<u64>, Counting) {
    let mut writer = Counting {
        fate,
        taken: Vec::new(alloc),
        writes: 0,
        flushes: 0,
    };
    let mut sink = StdSink::new(&mut writer);
    let cut = cut_at(&mut sink, b"wasm");
    // Behind a failure nothing reaches the writer.
    let is_told = cut.is_none() || stays_failed(&mut sink);
    drop(sink);
    (if is_told { cut } else { Some(99) }, writer)
}

// How many writes and flushes reach a writer, and how many of the four bytes it takes.
type Reached = (u32, u32, usize);

fn has_reached(writer: &Counting, (writes, flushes, count): Reached) -> bool {
    (writer.writes, writer.flushes) == (writes, flushes)
        && writer.taken.len() == count
        && "wasm".as_bytes().starts_with(writer.taken.as_slice())
}

fn is_sent(alloc: Global, fate: Fate, cut: Option<u64>, reached: Reached) -> bool {
    let (answer, writer) = sent(alloc, fate);
    answer == cut && has_reached(&writer, reached)
}

#[test]
fn what_reaches_a_writer(rt: HostRuntime) {
    let rows = [
        (Fate::TakesAll, None, (1, 1, 4)),
        (Fate::InterruptedOnce, None, (2, 1, 4)),
        (Fate::TakesOne, None, (4, 1, 4)),
        (Fate::TakesTwoThenNone, Some(2), (2, 0, 2)),
        (Fate::TakesTwoThenFails, Some(2), (2, 0, 2)),
        (Fate::FailsToFlush, Some(4), (1, 1, 4)),
    ];
    for (fate, cut, reached) in rows {
        assert!(rt; is_sent(rt.alloc(), fate, cut, reached));
    }
}
