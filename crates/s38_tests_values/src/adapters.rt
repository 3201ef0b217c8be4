//! What the adapters make of each answer of a reader or a writer.

ghost use Rattle.std.specs.Prelude.{◌≤◌, IfOk};

use Call::{Broken, Interrupted, Moves};
use s38_base::Failed;
use s38_io::{ReadFault, Sink, Source, StdSink, StdSource, read_to_end};
use std::io;
use std::io::{ErrorKind, Read, Write};

/// How a call of the system goes.
#[derive(Clone, Copy)]
enum Call {
    Moves(usize),
    Interrupted,
    Broken,
}

/// A reader and a writer whose calls go as they are listed, and then break.
#[derive(Drop)]
struct Script {
    calls: &'static [Call],
    made: usize,
}

impl Script {
    /// The next call, with room for so many bytes.
    fn next(&mut self, room: usize) -> io::Result<usize>
        ensures { IfOk result (λ n. n ≤ room) }
    {
        let call = self.calls.get(self.made).copied().unwrap_or(Broken);
        self.made = self.made.saturating_add(1);
        match call {
            Moves(count) => Ok(count.min(room)),
            Interrupted => Err(io::Error::from(ErrorKind::Interrupted)),
            Broken => Err(io::Error::from(ErrorKind::Other)),
        }
    }
}

impl Read for Script {
    fn read(&mut self, buf: &mut [u8]) -> io::Result<usize> {
        self.next(buf.len())
    }
}

impl Write for Script {
    fn write(&mut self, buf: &[u8]) -> io::Result<usize> {
        self.next(buf.len())
    }

    fn flush(&mut self) -> io::Result<()> {
        match self.next(0) {
            Ok(_) => Ok(()),
            Err(error) => Err(error),
        }
    }
}

/// The calls of a reader, what one take answers, and how many calls it made.
const TAKES: &[(&[Call], Result<usize, Failed>, usize)] = &[
    (&[Moves(2)], Ok(2), 1),
    (&[Moves(0)], Ok(0), 1),
    (&[Interrupted, Interrupted, Moves(9)], Ok(4), 3),
    (&[Broken, Moves(2)], Err(Failed), 1),
    (&[Interrupted, Broken, Moves(2)], Err(Failed), 2),
    (&[], Err(Failed), 1),
];

/// The calls of a writer, the last of them a flush; what the put of four bytes answers, and how many calls it made.
const PUTS: &[(&[Call], Result<(), Failed>, usize)] = &[
    (&[Moves(4), Moves(0)], Ok(()), 2),
    (&[Moves(1), Interrupted, Moves(3), Moves(0)], Ok(()), 4),
    (&[Moves(0), Moves(4), Moves(0)], Err(Failed), 1),
    (&[Moves(3), Moves(0), Moves(1), Moves(0)], Err(Failed), 2),
    (&[Moves(3), Broken, Moves(1), Moves(0)], Err(Failed), 2),
    (&[Moves(4), Broken, Moves(0)], Err(Failed), 2),
    (&[Moves(4), Interrupted, Moves(0)], Err(Failed), 2),
    (&[Broken], Err(Failed), 1),
];

#[test]
fn a_reader_is_asked_until_it_answers(rt: HostRuntime) {
    for (calls, want, made) in TAKES {
        let mut reader = Script { calls, made: 0 };
        let taken = StdSource::new(&mut reader).take(&mut [0; 4]);
        assert!(rt; taken == *want && reader.made == *made);
    }
}

#[test]
fn a_writer_takes_all_and_is_flushed_or_fails(rt: HostRuntime) {
    for (calls, want, made) in PUTS {
        let mut writer = Script { calls, made: 0 };
        let put = StdSink::new(&mut writer).put(b"deck");
        assert!(rt; put == *want && writer.made == *made);
    }
}

#[test]
fn a_reader_that_broke_is_not_asked_again(rt: HostRuntime) {
    let calls = &[Moves(2), Broken, Moves(2), Moves(0)];
    let mut reader = Script { calls, made: 0 };
    let read = read_to_end(rt.alloc(), &mut StdSource::new(&mut reader), 10);
    assert!(rt; read.err() == Some(ReadFault::Failed) && reader.made == 2);
}
