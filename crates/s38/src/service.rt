ghost use Rattle.std.specs.Prelude.{◌≡◌, ◌∷◌, IfOk, IfSome, IsSome, map, string_bytes};
ghost use Rattle.s38_command.specs.Commands.{asks_threads, command_of};
ghost use Rattle.s38_top.specs.Outcome.{IsExplained};
ghost use Rattle.s38_top.specs.Outside.{outside};
ghost use Rattle.s38.specs.CommandLine.{EndsSomehow, IsServed};

use crate::refusal::{Refusal, refuse};
use crate::store_files::{StoreFiles, attach};
use s38_command::looks_at_store;
use s38_disk::Disk;
use s38_io::{Sink, Source};
use s38_top::{NoGate, Report, plain_top, run_top, takes_threads};
use std::alloc::{AllocError, Global};
use std::mem;
use std::sync::Wait;
use std::thread::Threads;

/// The texts of some words.
fn texts(alloc: Global, words: &[String]) -> Result<Vec<&str>, AllocError>
    ensures { IfOk result (λ texts. map (λ text. text.now) texts.items ≡ map string_bytes words.now) }
{
    let mut texts = Vec::new(alloc);
    for word in words {
        texts.push(word.as_str())?;
    }
    Ok(texts)
}

/// Serves words over a disk: on threads where their command starts some.
#[tactic(auto, using(s38_command::proofs::CommandLaws::on_its_side))]
fn serve_texts<R: Threads + Wait + Sync, D: Disk + Drop + Send, I: Source, O: Sink>(
    rt: &R,
    alloc: Global,
    threads: bool,
    texts: &[&str],
    deck: &mut I,
    disk: D,
    out: &mut O,
) -> Report<D>
    requires { threads ≡ asks_threads (command_of (map (λ w. w.now) texts.now)) }
    ensures back { IsSome result.disk }
    ensures answered { IfSome result.disk (λ new. IsExplained (command_of (map (λ w. w.now) texts.now)) (outside (I.left deck.old) (I.faults deck.old) (O.written out.old) (O.faults out.old) (D.view disk))
        (outside (I.left deck.new) (I.faults deck.new) (O.written out.new) (O.faults out.new) (D.view new)) result.status result.history.items result.marks.items) }
{
    if threads {
        run_top(rt, alloc, texts, deck, disk, out, &NoGate)
    } else {
        plain_top(alloc, texts, deck, disk, out)
    }
}

/// Serves words over a disk. The program ends after it, and its memory with it: neither the disk, which keeps its file to the end,
/// nor the history is taken apart.
fn serve<R: Threads + Wait + Sync, D: Disk + Drop + Send, I: Source, O: Sink>(
    rt: &R,
    alloc: Global,
    texts: &[&str],
    deck: &mut I,
    disk: D,
    out: &mut O,
) -> u8
    ensures { EndsSomehow (map (λ w. w.now) texts.now) (outside (I.left deck.old) (I.faults deck.old) (O.written out.old) (O.faults out.old) (D.view disk))
        (I.left deck.new) (I.faults deck.new) (O.written out.new) (O.faults out.new) result }
{
    match takes_threads(alloc, texts) {
        Err(_) => refuse(Refusal::NoMemory, out),
        Ok(threads) => {
            let report = serve_texts(rt, alloc, threads, texts, deck, disk, out);
            let status = report.status;
            mem::forget(report);
            status
        }
    }
}

/// Serves words over the file of a path. The words are looked at first, so the file is held only for a command that looks at
/// the store.
fn serve_over<
    R: Threads + Wait + Sync,
    D: Disk + Drop + Send,
    F: StoreFiles<D>,
    I: Source,
    O: Sink,
>(rt: &R, alloc: Global, files: &F, path: &str, texts: &[&str], deck: &mut I, out: &mut O) -> u8
    ensures { IsServed D.view F.is_fresh F.is_of F.is_held F.is_shut F.is_taken (path.now ∷ map (λ w. w.now) texts.now) (I.left deck.old) (I.faults deck.old) (O.written out.old) (O.faults out.old)
        (I.left deck.new) (I.faults deck.new) (O.written out.new) (O.faults out.new) result }
{
    match looks_at_store(alloc, texts) {
        Err(_) => refuse(Refusal::NoMemory, out),
        Ok(looks) => match attach(files, path, looks) {
            None => refuse(Refusal::DiskFault, out),
            Some(disk) => serve(rt, alloc, texts, deck, disk, out),
        },
    }
}

/// Serves the words of a command line: those after the first, which is the path of the store's file, over that file.
pub fn serve_words<
    R: Threads + Wait + Sync,
    D: Disk + Drop + Send,
    F: StoreFiles<D>,
    I: Source,
    O: Sink,
>(rt: &R, alloc: Global, files: &F, words: &[String], deck: &mut I, out: &mut O) -> u8
    ensures { IsServed D.view F.is_fresh F.is_of F.is_held F.is_shut F.is_taken (map string_bytes words.now) (I.left deck.old) (I.faults deck.old) (O.written out.old) (O.faults out.old)
        (I.left deck.new) (I.faults deck.new) (O.written out.new) (O.faults out.new) result }
{
    let [path, after @ ..] = words else {
        return refuse(Refusal::BadWords, out);
    };
    match texts(alloc, after) {
        Err(_) => refuse(Refusal::NoMemory, out),
        Ok(texts) => serve_over(rt, alloc, files, path.as_str(), texts.as_slice(), deck, out),
    }
}
