//! Sources and sinks in memory, and over a reader and a writer in memory.

use s38_base::Failed;
use s38_io::{MemSink, MemSource, Sink, StdSink, StdSource, read_to_end};
use std::io::Cursor;
use std::test::Fail;

#[test]
fn a_source_is_read_to_its_limit_and_end(rt: HostRuntime) -> Result<(), Fail> {
    let mut source = MemSource::new(vec![in rt.alloc(); 7u8; 200_000]?, Vec::new(rt.alloc()));
    for (most, len) in [(150_000, 150_000), (4_194_560, 50_000), (1, 0)] {
        assert!(rt; read_to_end(rt.alloc(), &mut source, most)?.len() == len);
    }
    Ok(())
}

#[test]
fn a_reader_is_read(rt: HostRuntime) -> Result<(), Fail> {
    let mut source = StdSource::new(Cursor::new(b"deck".as_slice()));
    let bytes = read_to_end(rt.alloc(), &mut source, 100)?;
    assert!(rt; bytes.as_slice() == b"deck".as_slice());
    Ok(())
}

/// Pieces, and what the put of each into a sink whose second put fails answers.
const PIECES: &[(&str, Result<(), Failed>)] = &[
    ("job ", Ok(())),
    ("two", Err(Failed)),
    ("log", Ok(())),
];

#[test]
fn a_sink_keeps_its_pieces(rt: HostRuntime) -> Result<(), Fail> {
    let mut sink = MemSink::new(rt.alloc(), [1].to_vec(rt.alloc())?);
    for (piece, want) in PIECES {
        assert!(rt; sink.put(piece.as_bytes()) == *want);
    }
    assert!(rt; sink.written() == b"job log".as_slice());
    Ok(())
}

#[test]
fn a_writer_keeps_its_pieces(rt: HostRuntime) {
    let mut held = Vec::new(rt.alloc());
    let mut writer = StdSink::new(&mut held);
    for (piece, _) in PIECES {
        assert!(rt; writer.put(piece.as_bytes()) == Ok(()));
    }
    drop(writer);
    assert!(rt; held.as_slice() == b"job twolog".as_slice());
}
