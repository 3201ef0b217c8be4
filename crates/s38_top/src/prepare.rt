//! From the words, the text of a source and a disk up to a run over the store of the disk, or to what they come to without
//! one.
ghost use Rattle.std.specs.Prelude.{◌≡◌, ◌≤◌, ℕ, List, Option, IfErr, IfOk, Some, map};
ghost use Rattle.s38_demo.specs.GeneratedDeck.{deck_of};
ghost use Rattle.s38_disk.specs.Disk.{DiskView};
ghost use Rattle.s38_template.specs.Grammar.{Spells};
ghost use Rattle.s38_command.specs.declared.command.Command.{Command};
ghost use Rattle.s38_command.specs.declared.turns.Turns.{Turns};
ghost use Rattle.s38_command.specs.Commands.{AreTurnsOn, command_on};
ghost use Rattle.s38_store_file.specs.Crashes.{KeepsRestarting};
ghost use Rattle.s38_top.specs.Decks.{checked_of};
ghost use Rattle.s38_top.specs.Ends.{IsDecided, IsReadFrom, IsReady, IsSafeOf, IsSpelled, ReadsFrom};
ghost use Rattle.s38_top.specs.Causes.{OfText};

use crate::outcome::{CheckedDeck, Outcome};
use crate::run::run_deck;
use crate::store::{Decided, of_install, of_list, refused};
use crate::stored::{StoredStart, start_over};
use crate::templates::checked_templates;
use s38_command::{Command, Turns, command_on};
use s38_demo::deck_of;
use s38_disk::Disk;
use s38_io::{ReadFault, Source, read_to_end};
use s38_machine::installed;
use s38_run::NumberPicker;
use s38_store_file::open;
use s38_template::{DeckFault, each_job_has_its_template, read_deck};
use std::alloc::Global;

/// How many bytes of a deck are taken at most: with them the line that passes 4,194,304 bytes is decided.
const MOST: usize = 4_194_560;

/// A run that is to be made: its turns, and the machine over the store that has begun it.
pub struct ReadyRun<D: Disk> {
    pub turns: Turns,
    pub started: StoredStart<D>,
}

/// The deck of a text, and what creation makes of each of its templates; or what a text without one comes to.
fn checked_deck(alloc: Global, text: &[u8]) -> Result<CheckedDeck, Outcome>
    ensures spelled { IfOk result (λ checked. Spells text.now checked.deck) }
    ensures checked { IfOk result (λ checked. checked.templates ≡ checked_of checked.deck) }
    ensures cause { IfErr result (λ outcome. (command : Command) (disk : DiskView) → OfText command text.now disk disk outcome) }
{
    let deck = match read_deck(alloc, text) {
        Err(DeckFault::Bad { line, code }) => return Err(Outcome::BadDeck { line, code }),
        Err(DeckFault::NoMemory) => return Err(Outcome::NoMemory),
        Ok(deck) => deck,
    };
    match checked_templates(alloc, deck.templates.as_slice()) {
        Err(_) => Err(Outcome::NoMemory),
        Ok(templates) => Ok(CheckedDeck { deck, templates }),
    }
}

/// What the demonstration of a deck whose templates were checked comes to: it begins with the objects of a store that
/// was installed, and its picker with the number of the postings.
fn of_demo(alloc: Global, size: u32, text: &[u8], checked: CheckedDeck) -> Outcome
    requires spelled { Spells text.now checked.deck }
    requires checked { checked.templates ≡ checked_of checked.deck }
    ensures { (disk : DiskView) → OfText (Command.Demo size) text.now disk disk result }
{
    let _ = text;
    let Ok(objects) = installed(alloc) else {
        return Outcome::NoMemory;
    };
    each_job_has_its_template();
    let CheckedDeck { deck, templates } = checked;
    let mut picker = NumberPicker::new(u64::from(size));
    match run_deck(alloc, objects, deck, templates, &mut picker) {
        Err(_) => Outcome::NoMemory,
        Ok(whole) => Outcome::Demonstrated { size, whole },
    }
}

/// What the generated deck of so many postings comes to.
fn of_generated(alloc: Global, size: u32) -> Outcome
    requires first { 1 ≤ size }
    requires last { size ≤ 200 }
    ensures { (disk : DiskView) → OfText (Command.Demo size) (deck_of size) disk disk result }
{
    let Ok(text) = deck_of(alloc, size) else {
        return Outcome::NoMemory;
    };
    match checked_deck(alloc, text.as_slice()) {
        Err(outcome) => outcome,
        Ok(checked) => of_demo(alloc, size, text.as_slice(), checked),
    }
}

/// The deck that the text of a source spells, and what creation makes of each of its templates; or what the source comes
/// to without one.
fn deck_of_source<S: Source>(alloc: Global, source: &mut S) -> Result<CheckedDeck, Outcome>
    ensures read { IfOk result (λ checked. IsReadFrom (S.left source.old) (S.left source.new) checked.deck) }
    ensures checked { IfOk result (λ checked. checked.templates ≡ checked_of checked.deck) }
    ensures cause { IfErr result (λ outcome. (command : Command) (disk : DiskView)
        → ReadsFrom command (S.left source.old) (S.left source.new) (S.faults source.old) (S.faults source.new) disk disk outcome) }
{
    match read_to_end(alloc, source, MOST) {
        Err(ReadFault::Failed) => Err(Outcome::DeckFault),
        Err(ReadFault::NoMemory) => Err(Outcome::NoMemory),
        Ok(text) => checked_deck(alloc, text.as_slice()),
    }
}

/// What the templates of the deck of a source come to.
fn of_check<S: Source>(alloc: Global, source: &mut S) -> Outcome
    ensures { (disk : DiskView) → ReadsFrom Command.Check (S.left source.old) (S.left source.new) (S.faults source.old) (S.faults source.new) disk disk result }
{
    match deck_of_source(alloc, source) {
        Err(outcome) => outcome,
        Ok(checked) => Outcome::Checked(checked),
    }
}

/// The run of a deck whose templates were checked over the store of a disk, in these turns; or what they come to without
/// one. The disk comes back.
fn ready_on<D: Disk>(
    alloc: Global,
    turns: Turns,
    checked: CheckedDeck,
    disk: D,
) -> Result<ReadyRun<D>, Decided<D>>
    requires spelled { IsSpelled checked.deck }
    requires checked { checked.templates ≡ checked_of checked.deck }
    ensures turns { IfOk result (λ ready. ready.turns ≡ turns) }
    ensures deck { IfOk result (λ ready. ready.started.deck ≡ checked.deck) }
    ensures ready { IfOk result (λ ready. IsReady (D.view disk) ready.started.deck ready.started.made.items ready.started.machine) }
    ensures cause { IfErr result (λ decided. (text : List ℕ) → OfText (Command.Jobs turns) text (D.view disk) (D.view decided.disk) decided.outcome) }
    ensures safe { IfErr result (λ decided. KeepsRestarting (D.view disk) (D.view decided.disk)) }
{
    let store = match open(alloc, disk) {
        Err((disk, refusal)) => {
            return Err(Decided {
                outcome: refused(refusal),
                disk,
            });
        }
        Ok(store) => store,
    };
    each_job_has_its_template();
    let CheckedDeck { deck, templates } = checked;
    match start_over(alloc, store, deck, templates) {
        Err(disk) => Err(Decided {
            outcome: Outcome::NoMemory,
            disk,
        }),
        Ok(started) => Ok(ReadyRun { turns, started }),
    }
}

/// The run of the deck of a source over the store of a disk, in these turns; or what they come to without one.
fn ready_run<S: Source, D: Disk>(
    alloc: Global,
    turns: Turns,
    source: &mut S,
    disk: D,
) -> Result<ReadyRun<D>, Decided<D>>
    ensures turns { IfOk result (λ ready. ready.turns ≡ turns) }
    ensures read { IfOk result (λ ready. IsReadFrom (S.left source.old) (S.left source.new) ready.started.deck) }
    ensures ready { IfOk result (λ ready. IsReady (D.view disk) ready.started.deck ready.started.made.items ready.started.machine) }
    ensures cause { IfErr result (λ decided. ReadsFrom (Command.Jobs turns) (S.left source.old) (S.left source.new) (S.faults source.old) (S.faults source.new)
        (D.view disk) (D.view decided.disk) decided.outcome) }
    ensures safe { IfErr result (λ decided. KeepsRestarting (D.view disk) (D.view decided.disk)) }
{
    match deck_of_source(alloc, source) {
        Err(outcome) => Err(Decided { outcome, disk }),
        Ok(checked) => ready_on(alloc, turns, checked, disk),
    }
}

/// The command that the words are to a call that starts threads, or to one that starts none; or what they come to without
/// one.
fn asked(alloc: Global, threads: bool, words: &[&str]) -> Result<Command, Outcome>
    ensures command { IfOk result (λ command. command_on threads (map (λ w. w.now) words.now) ≡ Some command) }
    ensures size { IfOk result (λ command. (n : ℕ) → command ≡ Command.Demo n → (1 ≤ n) × (n ≤ 200)) }
    ensures turns { IfOk result (λ command. (turns : Turns) → command ≡ Command.Jobs turns → AreTurnsOn threads turns) }
    ensures cause { IfErr result (λ outcome. (left : Option (List ℕ)) (taken : ℕ) (disk : DiskView)
        → IsDecided (command_on threads (map (λ w. w.now) words.now)) left left taken taken disk disk outcome) }
{
    match command_on(alloc, threads, words) {
        Err(_) => Err(Outcome::NoMemory),
        Ok(None) => Err(Outcome::BadWords),
        Ok(Some(command)) => Ok(command),
    }
}

/// What the words, the text of a source and a disk come to without a run; or the run that is to be made. The words are
/// looked at first, then the text, and then the disk; a command without a deck reads nothing, and `check` and a
/// demonstration leave the disk alone.
pub fn prepare<S: Source, D: Disk>(
    alloc: Global,
    threads: bool,
    words: &[&str],
    source: &mut S,
    disk: D,
) -> Result<ReadyRun<D>, Decided<D>>
    ensures asked { IfOk result (λ ready. command_on threads (map (λ w. w.now) words.now) ≡ Some (Command.Jobs ready.turns)) }
    ensures turns { IfOk result (λ ready. AreTurnsOn threads ready.turns) }
    ensures read { IfOk result (λ ready. IsReadFrom (S.left source.old) (S.left source.new) ready.started.deck) }
    ensures ready { IfOk result (λ ready. IsReady (D.view disk) ready.started.deck ready.started.made.items ready.started.machine) }
    ensures decided { IfErr result (λ decided. IsDecided (command_on threads (map (λ w. w.now) words.now)) (S.left source.old) (S.left source.new) (S.faults source.old) (S.faults source.new)
        (D.view disk) (D.view decided.disk) decided.outcome) }
    ensures safe { IfErr result (λ decided. IsSafeOf (command_on threads (map (λ w. w.now) words.now)) (D.view disk) (D.view decided.disk) decided.outcome) }
{
    let command = match asked(alloc, threads, words) {
        Err(outcome) => return Err(Decided { outcome, disk }),
        Ok(command) => command,
    };
    match command {
        Command::Jobs { turns } => ready_run(alloc, turns, source, disk),
        Command::Check => Err(Decided {
            outcome: of_check(alloc, source),
            disk,
        }),
        Command::Demo { size } => Err(Decided {
            outcome: of_generated(alloc, size),
            disk,
        }),
        Command::Install => Err(of_install(alloc, disk)),
        Command::List => Err(of_list(alloc, disk)),
    }
}
