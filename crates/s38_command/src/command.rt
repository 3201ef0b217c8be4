ghost use Rattle.std.specs.Prelude.{◌≡◌, ◌≤◌, ℕ, IfOk, map, Some};
ghost use Rattle.std.specs.Option.{option_map};
ghost use Rattle.s38_words.specs.Number.{natural_of};
ghost use Rattle.s38_command.specs.declared.turns.Turns.{Turns};
ghost use Rattle.s38_command.specs.Commands.{AreTurnsOn, asks_store, asks_threads, bare_by, command_by, command_in, command_of, command_on, demo_by, demo_of, looks_at_store, pick_of, run_by, same_side, serial_by, served_by, takes_threads, without_others, workers_of};

use crate::said::{Said, said_of};
use crate::turns::Turns;
use s38_base::NoMemory;
use s38_words::natural;
use std::alloc::Global;

/// How many workers there are if nothing is said of them.
const USUAL_WORKERS: u32 = 4;

/// What the program is asked to do.
#[derive(Clone, Copy, PartialEq, Eq, Debug)]
pub enum Command {
    /// The jobs of a deck are run, in these turns.
    Jobs { turns: Turns },
    /// The templates of a deck are checked.
    Check,
    /// The generated deck of so many postings is run.
    Demo { size: u32 },
    /// A store is made.
    Install,
    /// The objects of a store are listed.
    List,
}

/// The jobs of a deck are run on one thread; the picker begins at this number.
fn serial_from(pick: u32) -> Command
    ensures { result ≡ Command.Jobs (Turns.Serial pick) }
{
    Command::Jobs {
        turns: Turns::Serial { pick },
    }
}

/// The jobs of a deck are run on so many threads.
fn on_workers(count: u32) -> Command
    ensures { result ≡ Command.Jobs (Turns.Workers count) }
{
    Command::Jobs {
        turns: Turns::Workers { count },
    }
}

/// The command of a single word.
fn bare_by(word: &[u8]) -> Option<Command>
    ensures { result ≡ bare_by word.now }
{
    if word == b"check".as_slice() {
        Some(Command::Check)
    } else if word == b"install".as_slice() {
        Some(Command::Install)
    } else if word == b"list".as_slice() {
        Some(Command::List)
    } else {
        None
    }
}

/// A number of at most 32 bits, in decimal digits without a leading zero.
#[tactic(auto, using(crate::proofs::CommandLaws::pick_held))]
fn pick_of(number: &[u8]) -> Option<Command>
    ensures { result ≡ pick_of (natural_of number.now) }
{
    match natural(number) {
        None => None,
        Some(pick) => {
            if pick <= u64::from(u32::MAX) {
                Some(serial_from(pick as u32))
            } else {
                None
            }
        }
    }
}

/// How many workers there are: 1 to 64, in decimal digits without a leading zero.
#[tactic(auto, using(crate::proofs::CommandLaws::workers_held))]
fn workers_of(number: &[u8]) -> Option<Command>
    ensures { result ≡ workers_of (natural_of number.now) }
{
    match natural(number) {
        None => None,
        Some(count) => {
            if count <= 64 && 1 <= count {
                Some(on_workers(count as u32))
            } else {
                None
            }
        }
    }
}

/// How many postings the generated deck has: 1 to 200, in decimal digits without a leading zero.
#[tactic(auto, using(crate::proofs::CommandLaws::size_held))]
fn demo_of(number: &[u8]) -> Option<Command>
    ensures { result ≡ demo_of (natural_of number.now) }
{
    match natural(number) {
        None => None,
        Some(size) => {
            if size <= 200 && 1 <= size {
                Some(Command::Demo { size: size as u32 })
            } else {
                None
            }
        }
    }
}

fn serial_by(pick: Option<&str>) -> Option<Command>
    ensures { result ≡ serial_by (option_map (λ w. w.now) pick.entry) }
{
    match pick {
        None => Some(serial_from(0)),
        Some(number) => pick_of(number.as_bytes()),
    }
}

fn run_by(workers: Option<&str>) -> Option<Command>
    ensures { result ≡ run_by (option_map (λ w. w.now) workers.entry) }
{
    match workers {
        None => Some(on_workers(USUAL_WORKERS)),
        Some(number) => workers_of(number.as_bytes()),
    }
}

fn demo_by(size: Option<&str>) -> Option<Command>
    ensures { result ≡ demo_by (option_map (λ w. w.now) size.entry) }
{
    match size {
        None => None,
        Some(number) => demo_of(number.as_bytes()),
    }
}

/// A command where these are missing; none where one of them is there.
fn alone(one: Option<&str>, other: Option<&str>, command: Option<Command>) -> Option<Command>
    ensures { result ≡ without_others (option_map (λ w. w.now) one.entry) (option_map (λ w. w.now) other.entry) command }
{
    match (one, other) {
        (None, None) => command,
        _ => None,
    }
}

/// The command of a word and what was said beside it.
fn command_by(word: &[u8], said: &Said<'_>) -> Option<Command>
    ensures { result ≡ command_by word.now said.now }
{
    if word == b"serial".as_slice() {
        alone(said.rest, said.workers, serial_by(said.pick))
    } else if word == b"run".as_slice() {
        alone(said.rest, said.pick, run_by(said.workers))
    } else if word == b"demo".as_slice() {
        alone(said.pick, said.workers, demo_by(said.rest))
    } else {
        alone(
            said.rest,
            said.pick,
            alone(said.workers, None, bare_by(word)),
        )
    }
}

fn command_in(said: Option<Said<'_>>) -> Option<Command>
    ensures { result ≡ command_in said.entry }
{
    let said = said?;
    let word = said.command?;
    command_by(word.as_bytes(), &said)
}

/// The command that the words are: `install`, `list`, `serial`, `serial --pick n`, `run`, `run --workers n`, `check`,
/// `demo n`, as the simple command reads them.
fn command_of(alloc: Global, words: &[&str]) -> Result<Option<Command>, NoMemory>
    ensures command { IfOk result (λ command. command ≡ command_of (map (λ w. w.now) words.now)) }
    ensures size { IfOk result (λ command. (n : ℕ) → command ≡ Some (Command.Demo n) → (1 ≤ n) × (n ≤ 200)) }
{
    let said = said_of(alloc, words)?;
    Ok(command_in(said))
}

/// Whether a command starts threads.
fn takes(command: Command) -> bool
    ensures { result ≡ takes_threads command }
{
    match command {
        Command::Jobs {
            turns: Turns::Workers { .. },
        } => true,
        _ => false,
    }
}

/// Whether the words are a command that starts threads, which `run_top` serves; `plain_top` serves all others.
pub fn takes_threads(alloc: Global, words: &[&str]) -> Result<bool, NoMemory>
    ensures { IfOk result (λ threads. threads ≡ asks_threads (command_of (map (λ w. w.now) words.now))) }
{
    match command_of(alloc, words)? {
        None => Ok(false),
        Some(command) => Ok(takes(command)),
    }
}

/// Whether a command looks at the store.
fn looks(command: Command) -> bool
    ensures { result ≡ looks_at_store command }
{
    match command {
        Command::Jobs { .. } | Command::Install | Command::List => true,
        Command::Check | Command::Demo { .. } => false,
    }
}

/// Whether the words are a command that looks at the store.
pub fn looks_at_store(alloc: Global, words: &[&str]) -> Result<bool, NoMemory>
    ensures { IfOk result (λ looks. looks ≡ asks_store (command_of (map (λ w. w.now) words.now))) }
{
    match command_of(alloc, words)? {
        None => Ok(false),
        Some(command) => Ok(looks(command)),
    }
}

/// Whether a command is for a call that starts threads, or for one that starts none.
fn same_side(threads: bool, takes: bool) -> bool
    ensures { result ≡ same_side threads takes }
{
    if threads { takes } else { !takes }
}

fn served_by(threads: bool, asked: Option<Command>) -> Option<Command>
    ensures { result ≡ served_by threads asked }
{
    match asked {
        None => None,
        Some(command) => {
            if same_side(threads, takes(command)) {
                Some(command)
            } else {
                None
            }
        }
    }
}

/// The command that the words are to a call that starts threads, or to one that starts none. `NoMemory` where memory was
/// refused.
#[tactic(auto, using(crate::proofs::CommandLaws::turns_on, crate::proofs::CommandLaws::size_on))]
pub fn command_on(alloc: Global, threads: bool, words: &[&str]) -> Result<Option<Command>, NoMemory>
    ensures command { IfOk result (λ command. command ≡ command_on threads (map (λ w. w.now) words.now)) }
    ensures size { IfOk result (λ command. (n : ℕ) → command ≡ Some (Command.Demo n) → (1 ≤ n) × (n ≤ 200)) }
    ensures turns { IfOk result (λ command. (turns : Turns) → command ≡ Some (Command.Jobs turns) → AreTurnsOn threads turns) }
{
    let asked = command_of(alloc, words)?;
    Ok(served_by(threads, asked))
}
