//! Details of exceptions that no run has.

use s38_base::{Exception, LockState, Name, NoMemory, Op, Rights, Rule, Seq, Special, exceptions};
use s38_code::{Entry, Event, Job, Operands, Reply, Request};
use s38_joblog::log_text;
use std::alloc::Global;
use std::test::Fail;

/// A rule that an instruction fails, and its log.
const DETAILS: &[(Rule, &str)] = &[
    (
        Rule::Missing { rights: Rights(0) },
        "JOB 1 J USER QUSER\n1 ENQ 0A01 2 NONE\n",
    ),
    (
        Rule::NoSpecial {
            special: Special(0x80),
        },
        "JOB 1 J USER QUSER\n1 ENQ 0A01 2 ALLOBJ\n",
    ),
    (
        Rule::NoSpecial {
            special: Special(0xC0),
        },
        "JOB 1 J USER QUSER\n1 ENQ 0A01 2 ALLOBJ+PROFILE\n",
    ),
    (
        Rule::NoSpecial {
            special: Special(0),
        },
        "JOB 1 J USER QUSER\n1 ENQ 0A01 2 NONE\n",
    ),
    (
        Rule::Held {
            process: 12,
            state: LockState::Lenr,
        },
        "JOB 1 J USER QUSER\n1 ENQ 0A01 2 12 LENR\n",
    ),
];

/// A job J.
fn job(alloc: Global) -> Result<Job, Fail> {
    Ok(Job {
        name: Name::parse(b"J")?,
        user: Name::parse(b"QUSER")?,
        template: Name::parse(b"P")?,
        budget: 1000000,
        contexts: Seq::new(alloc),
        stage: 1,
    })
}

/// An instruction that fails a rule.
fn failed(alloc: Global, rule: Rule) -> Result<Entry, NoMemory> {
    let request = Request {
        op: Op::Enq,
        round: false,
        operands: Operands::new(alloc, Vec::new(alloc))?,
    };
    let (id, operand) = (exceptions::UNAUTHORIZED, 2);
    Ok(Entry {
        process: 1,
        seq: 0,
        event: Event::Act { depth: 1, request },
        reply: Reply::Signal(Exception { id, operand, rule }),
    })
}

/// The log of one entry of a job.
fn log_of(alloc: Global, entry: Entry, job: Job) -> Result<Vec<u8>, NoMemory> {
    let (mut history, mut jobs) = (Vec::new(alloc), Vec::new(alloc));
    history.push(entry)?;
    jobs.push(job)?;
    log_text(alloc, history.as_slice(), jobs.as_slice())
}

#[test]
fn details_are_written(rt: HostRuntime) -> Result<(), Fail> {
    for (rule, want) in DETAILS {
        let entry = failed(rt.alloc(), *rule)?;
        let text = log_of(rt.alloc(), entry, job(rt.alloc())?)?;
        assert!(rt; text.as_slice() == want.as_bytes(), "{want}");
    }
    Ok(())
}
