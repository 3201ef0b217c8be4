//! What is answered where a take of the source, the put of the text or a call of the disk fails.

use crate::answers::{Answer, Asked, installed, is_told, run_over};
use s38_base::Failed;
use s38_disk::{Disk, MemDisk};
use std::alloc::Global;
use std::test::Fail;

/// An officer and somebody unknown.
const TWO_JOBS: &str =
    "PROGRAM P;RTX;END;STAGE;JOB A USER QSECOFR RUN P;STAGE;JOB B USER NOBODY RUN P;";

/// What is written of their run.
const TWO_LOGS: &str = "JOB 1 A USER QSECOFR;1 START OK;2 FINISH RETURN
JOB 2 B USER NOBODY;3 START 2201 1;4 FINISH START 2201;DONE 4;";

/// The words, a deck, the takes and the puts that fail, the text that is written, the status, and how many entries. By
/// `demo` the source is not asked.
const FAULTS: &[(&[&str], &str, &[u32], &[u32], &str, u8, usize)] = &[
    (&["serial"], TWO_JOBS, &[0], &[], "DECK FAULT;", 5, 0),
    (&["serial"], TWO_JOBS, &[1], &[], "DECK FAULT;", 5, 0),
    (&["serial"], TWO_JOBS, &[0, 1], &[], "DECK FAULT;", 5, 0),
    (&["serial"], TWO_JOBS, &[2], &[], TWO_LOGS, 0, 4),
    (&["serial"], TWO_JOBS, &[], &[0], "", 6, 4),
    (&["check"], TWO_JOBS, &[], &[], "P OK;DONE 1;", 0, 0),
    (&["check"], TWO_JOBS, &[], &[0], "", 6, 0),
    (&["serial"], "STAGE;", &[], &[0], "", 6, 0),
    (&["run"], TWO_JOBS, &[], &[0], "", 6, 0),
    (&["list"], "", &[], &[0], "", 6, 0),
    (&["install"], "", &[], &[0], "", 6, 0),
    (&["nonsense"], "", &[], &[0], "", 6, 0),
    (&["demo", "3"], "", &[0], &[], "JOBS 3;TOTAL 45;", 0, 69),
    (&["demo", "3"], "", &[], &[0], "", 6, 69),
];

/// How many blocks a disk has, its calls that fail, a word, the text that is written, and the status.
const DISKS: &[(u32, &[u64], &[&str], &str, u8)] = &[
    (4_096, &[0], &["list"], "DISK FAULT;", 4),
    (4_095, &[], &["install"], "STORE TOO SMALL 4095;", 3),
    (4_095, &[], &["list"], "STORE TOO SMALL 4095;", 3),
];

/// Objects are made, and one of them is kept.
const KEEPING: &str = "PROGRAM P;DCL C PTR;DCL Q PTR;CRTCTX C,CONTEXT/00/SHOP,NONE
CRTQ Q,C,QUEUE/00/ORDERS,NONE,FIFO,0,8;ENSOBJ Q;ENQ Q,*NONE,'FIRST';RTX;END;STAGE;JOB A USER QSECOFR RUN P;";

/// The first calls of its run that fail one by one: while the store is opened it reads its label and 1,790 homes, and looks
/// at the gate.
const OPENING: &[u64] = &[0, 1, 2, 3];

/// From the last calls of the opening on each call of the run fails; a run makes fewer.
const CALLS: (u64, u64) = (1_790, 3_000);

/// Whether an answer has this text, this status and so many entries.
fn is_answered(
    alloc: Global,
    answer: &Answer,
    text: &str,
    status: u8,
    entries: usize,
) -> Result<bool, Fail> {
    Ok(is_told(alloc, answer, text)? && answer.status == status && answer.entries == entries)
}

/// What is asked of a store that was just installed.
fn asked_of_a_store(alloc: Global, asked: Asked) -> Result<Answer, Fail> {
    match installed(alloc, &[])? {
        Some(disk) => Ok(run_over(alloc, disk, asked)?),
        None => Err(Failed)?,
    }
}

#[test]
fn each_take_and_put_may_fail(rt: HostRuntime) -> Result<(), Fail> {
    for (words, deck, takes, puts, text, status, entries) in FAULTS {
        let asked = Asked {
            words,
            deck,
            takes,
            puts,
        };
        let answer = asked_of_a_store(rt.alloc(), asked)?;
        assert!(rt; is_answered(rt.alloc(), &answer, text, *status, *entries)?);
    }
    Ok(())
}

#[test]
fn a_disk_may_fail_and_may_be_too_small(rt: HostRuntime) -> Result<(), Fail> {
    for (blocks, failing, words, text, status) in DISKS {
        let failing = Vec::from_slice(rt.alloc(), failing)?;
        let disk = MemDisk::new(rt.alloc(), *blocks, failing)?;
        let asked = Asked {
            words,
            deck: "",
            takes: &[],
            puts: &[],
        };
        let answer = run_over(rt.alloc(), disk, asked)?;
        assert!(rt; is_answered(rt.alloc(), &answer, text, *status, 0)?);
    }
    Ok(())
}

/// How many calls of the disk it takes to install a store: the first is a read, which is no moment.
fn calls_of_install(alloc: Global) -> Result<u64, Fail> {
    match installed(alloc, &[])? {
        Some(disk) => Ok(disk.moment().saturating_add(1)),
        None => Err(Failed)?,
    }
}

/// Whether a run of which that call of the disk fails tells it; None where no call fails.
fn tells_fault(alloc: Global, call: u64) -> Result<Option<bool>, Fail> {
    let asked = Asked {
        words: &["serial"],
        deck: KEEPING,
        takes: &[],
        puts: &[],
    };
    let Some(disk) = installed(alloc, &[call])? else {
        return Err(Failed)?;
    };
    let answer = run_over(alloc, disk, asked)?;
    if answer.status == 0 {
        return Ok(None);
    }
    Ok(Some(answer.status == 4 && answer.text.ends_with(b"DISK FAULT\n")))
}

#[test]
fn each_call_of_a_run_may_fail(rt: HostRuntime) -> Result<(), Fail> {
    let begun = calls_of_install(rt.alloc())?;
    for call in OPENING {
        let told = tells_fault(rt.alloc(), begun.saturating_add(*call))?;
        assert_eq!(rt; told, Some(true));
    }
    let (first, limit) = CALLS;
    for call in first..limit {
        match tells_fault(rt.alloc(), begun.saturating_add(call))? {
            Some(told) => assert!(rt; told, "{call}"),
            None => return Ok(()),
        }
    }
    Err(Failed)?;
    Ok(())
}
