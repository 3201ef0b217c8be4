//! The machine interface as a program over a store in a file: it makes the store, lists its objects, or reads a deck, and
//! runs its jobs over the store and prints a log for each, or checks its templates and prints a line for each.
#![tactic(auto)]

mod refusal;
mod service;
mod store_files;
mod streams;

use refusal::{refusal_of, refuse};
use s38_io::{StdSink, StdSource};
use service::serve_words;
use std::env::Env;
use std::process::ExitCode;
use std::{env, io};
use store_files::SystemFiles;
use streams::take_places;

/// The words of the command line after the program's own.
fn command_line<R: Env + AllocGlobal>(rt: &R) -> io::Result<Vec<String>> {
    let mut words = Vec::new(rt.alloc());
    for (place, word) in env::args(rt)?.enumerate() {
        if place > 0 {
            words.push(word)?;
        }
    }
    Ok(words)
}

fn main(rt: HostRuntime) -> ExitCode {
    // Before any file is opened.
    let places = take_places(&rt);
    let mut deck = StdSource::new(rt.reader());
    let mut out = StdSink::new(io::writer(&rt));
    let status = match command_line(&rt) {
        Ok(words) => serve_words(
            &rt,
            rt.alloc(),
            &SystemFiles { rt: &rt },
            words.as_slice(),
            &mut deck,
            &mut out,
        ),
        Err(fault) => refuse(refusal_of(fault.kind()), &mut out),
    };
    drop(places);
    ExitCode::from(status)
}
