//! Runs in turns that a list of picks chooses.
ghost use Rattle.s38_template.specs.Grammar.{Spells};

use s38_base::NoMemory;
use s38_code::Deck;
use s38_joblog::log_text;
use s38_machine::general_opening;
use s38_run::ListPicker;
use s38_template::{each_job_has_its_template, read_deck};
use s38_top::{checked_templates, run_deck};
use std::alloc::Global;
use std::test::Fail;

/// Two jobs ask for the same lock.
const DECK: &[u8] =
    b"PROGRAM P\nDCL Q PTR\nRSLVSP Q,*LIST,QUEUE/00/QLOCKED,NONE\nLOCK Q,LENR,WAIT\nUNLOCK Q,LENR\nRTX\nEND\nSTAGE\nJOB A USER QSECOFR RUN P CONTEXTS QGPL\nJOB B USER QSECOFR RUN P CONTEXTS QGPL\n";

/// The log of a deck, in turns of these picks; nothing where memory is wanted.
fn log_of(alloc: Global, text: &[u8], deck: Deck, picks: &[u32]) -> Result<Vec<u8>, NoMemory>
    requires { Spells text.now deck }
{
    let _ = text;
    let templates = checked_templates(alloc, deck.templates.as_slice())?;
    each_job_has_its_template();
    let mut picker = ListPicker::new(Vec::from_slice(alloc, picks)?);
    let whole = run_deck(alloc, general_opening(alloc)?, deck, templates, &mut picker)?;
    log_text(alloc, whole.history.as_slice(), whole.deck.jobs.as_slice())
}

fn is_log(alloc: Global, picks: &[u32], log: &[u8]) -> Result<bool, NoMemory> {
    match read_deck(alloc, DECK) {
        Err(_) => Ok(false),
        Ok(deck) => Ok(log_of(alloc, DECK, deck, picks)?.as_slice() == log),
    }
}

/// Picks, and the log of the deck in these turns.
const TURNS: &[(&[u32], &[u8])] = &[
    (
        &[0, 0, 0, 1, 1, 1],
        b"JOB 1 A USER QSECOFR\n1 START OK\n2 RSLVSP OK S5/00\n3 LOCK OK\n7 UNLOCK OK\n8 FINISH RETURN\nJOB 2 B USER QSECOFR\n4 START OK\n5 RSLVSP OK S5/00\n6 LOCK WAIT\n9 LOCK OK\n10 UNLOCK OK\n11 FINISH RETURN\n",
    ),
    (
        &[],
        b"JOB 1 A USER QSECOFR\n1 START OK\n2 RSLVSP OK S5/00\n3 LOCK OK\n4 UNLOCK OK\n5 FINISH RETURN\nJOB 2 B USER QSECOFR\n6 START OK\n7 RSLVSP OK S5/00\n8 LOCK OK\n9 UNLOCK OK\n10 FINISH RETURN\n",
    ),
    (
        &[3, 2, 1, 0],
        b"JOB 1 A USER QSECOFR\n2 START OK\n4 RSLVSP OK S5/00\n5 LOCK OK\n6 UNLOCK OK\n7 FINISH RETURN\nJOB 2 B USER QSECOFR\n1 START OK\n3 RSLVSP OK S5/00\n8 LOCK OK\n9 UNLOCK OK\n10 FINISH RETURN\n",
    ),
];

#[test]
fn a_list_says_who_goes_next(rt: HostRuntime) -> Result<(), Fail> {
    for (picks, log) in TURNS {
        assert!(rt; is_log(rt.alloc(), picks, log)?);
    }
    Ok(())
}
