//! What the program answers to words and a deck over a disk. Decks and texts have `;` for a line feed here.

use s38_base::NoMemory;
use s38_disk::MemDisk;
use s38_io::{MemSink, MemSource};
use s38_top::{Gate, Report, plain_top, run_top};
use std::alloc::Global;
use std::sync::Wait;
use std::thread::Threads;

/// How many blocks the disk of a test has.
const BLOCKS: u32 = 4_096;

/// The words, a deck, and the takes of the source and the puts of the sink that fail.
#[derive(Clone, Copy)]
pub struct Asked {
    pub words: &'static [&'static str],
    pub deck: &'static str,
    pub takes: &'static [u32],
    pub puts: &'static [u32],
}

/// What a call came to: its status, the number of entries, the text, and the disk.
#[derive(Drop)]
pub struct Answer {
    pub status: u8,
    pub entries: usize,
    pub text: Vec<u8>,
    pub disk: Option<MemDisk>,
}

/// The bytes of a deck or a text.
fn bytes_of(alloc: Global, lines: &str) -> Result<Vec<u8>, NoMemory> {
    let mut bytes = Vec::new(alloc);
    for byte in lines.bytes() {
        bytes.push(if byte == b';' { b'\n' } else { byte })?;
    }
    Ok(bytes)
}

/// What is asked of a disk.
pub fn run_over(alloc: Global, disk: MemDisk, asked: Asked) -> Result<Answer, NoMemory> {
    let deck = bytes_of(alloc, asked.deck)?;
    let mut source = MemSource::new(deck, Vec::from_slice(alloc, asked.takes)?);
    let mut sink = MemSink::new(alloc, Vec::from_slice(alloc, asked.puts)?);
    let report = plain_top(alloc, asked.words, &mut source, disk, &mut sink);
    Ok(Answer {
        status: report.status,
        entries: report.history.len(),
        text: Vec::from_slice(alloc, sink.written())?,
        disk: report.disk,
    })
}

/// What a call that starts threads came to over a disk, with a gate between them.
pub fn shared_over<R: Threads + Wait + Sync, G: Gate + Sync>(
    rt: &R,
    alloc: Global,
    disk: MemDisk,
    words: &[&str],
    deck: &str,
    gate: &G,
) -> Result<Report<MemDisk>, NoMemory> {
    let deck = bytes_of(alloc, deck)?;
    let mut source = MemSource::new(deck, Vec::new(alloc));
    let mut sink = MemSink::new(alloc, Vec::new(alloc));
    Ok(run_top(rt, alloc, words, &mut source, disk, &mut sink, gate))
}

/// Whether a text was written.
pub fn is_told(alloc: Global, answer: &Answer, text: &str) -> Result<bool, NoMemory> {
    Ok(answer.text.as_slice() == bytes_of(alloc, text)?.as_slice())
}

/// A store that was just installed on a disk of which these calls fail later.
pub fn installed(alloc: Global, failing: &[u64]) -> Result<Option<MemDisk>, NoMemory> {
    let asked = Asked {
        words: &["install"],
        deck: "",
        takes: &[],
        puts: &[],
    };
    let disk = MemDisk::new(alloc, BLOCKS, Vec::from_slice(alloc, failing)?)?;
    Ok(run_over(alloc, disk, asked)?.disk)
}
