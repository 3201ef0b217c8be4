//! Rights that were found are used again: how many rows a process's puts visit. What an event comes to is told beforehand.
ghost use Rattle.std.specs.Prelude.{◌≡◌};
ghost use Rattle.s38_rules.specs.step.Legal.{IsProcess, IsSound};

use s38_base::{Attr, Bytes, HeldPointer, Name, ObjNum, Op, Pointer, Rights, Seq};
use s38_code::{Event, Job, Operand, Operands, Reply, Request, Stepper};
use s38_machine::{Machine, general_opening};
use s38_rules::Verdict;
use std::alloc::Global;
use std::test::Fail;

/// The queue of the security officer.
const LOCKED: Pointer = Pointer::System {
    object: ObjNum(5),
    rights: Rights(0),
};

/// A put of one byte into it.
fn put(alloc: Global) -> Result<Event, Fail> {
    put_by(alloc, Some(LOCKED))
}

/// A put of one byte by a pointer, or by one that is not set.
fn put_by(alloc: Global, pointer: Option<Pointer>) -> Result<Event, Fail> {
    let mut operands = Vec::new(alloc);
    operands.push(Operand::Ptr(HeldPointer::of(pointer)))?;
    operands.push(Operand::Nothing)?;
    operands.push(Operand::Value {
        attr: Attr::Chars { len: 1 },
        bytes: Bytes::from_slice(alloc, b"A")?,
    })?;
    let request = Request {
        op: Op::Enq,
        round: false,
        operands: Operands::new(alloc, operands)?,
    };
    Ok(Event::Act { depth: 1, request })
}

/// A job of the security officer.
fn job(alloc: Global, stage: u16) -> Result<Job, Fail> {
    Ok(Job {
        name: Name::parse(b"N")?,
        user: Name::parse(b"QSECOFR")?,
        template: Name::parse(b"N")?,
        budget: 100,
        contexts: Seq::new(alloc),
        stage,
    })
}

/// One job in each of two stages.
fn jobs(alloc: Global) -> Result<Vec<Job>, Fail> {
    let mut jobs = Vec::new(alloc);
    jobs.push(job(alloc, 1)?)?;
    jobs.push(job(alloc, 2)?)?;
    Ok(jobs)
}

/// Whether what process 1 asks is done.
fn is_done(machine: &mut Machine, event: &Event) -> Result<bool, Fail>
    requires sound { IsSound machine.old }
    requires may { IsProcess machine.old.origin 1 }
    ensures sound { IsSound machine.new }
    ensures origin { machine.new.origin ≡ machine.old.origin }
{
    let reply = Stepper::step(machine, 1, event)?;
    Ok(matches!(reply, Reply::Done(_)))
}

/// How many rows the profiles have counted.
fn visits(machine: &Machine) -> u64 {
    machine.world().core.profiles.visits()
}

/// How many of a thousand puts are done.
fn puts_done(alloc: Global, machine: &mut Machine) -> Result<usize, Fail>
    requires sound { IsSound machine.old }
    requires may { IsProcess machine.old.origin 1 }
{
    let put = put(alloc)?;
    let mut done = 0;
    for k in 0..1000 {
        if !is_done(machine, &put)? {
            break;
        }
        done = k + 1;
    }
    Ok(done)
}

/// How many rows the first put visits, how many further puts are done, and how many rows those visit.
fn visited(alloc: Global, machine: &mut Machine) -> Result<(u64, usize, u64), Fail>
    requires sound { IsSound machine.old }
    requires may { IsProcess machine.old.origin 1 }
{
    let put = put(alloc)?;
    let begun = visits(machine);
    let _done = is_done(machine, &put)?;
    let first = visits(machine);
    let done = puts_done(alloc, machine)?;
    let last = visits(machine);
    Ok((
        first.saturating_sub(begun),
        done,
        last.saturating_sub(first),
    ))
}

/// The machine begins, and the job of the first stage starts; what it then counts.
#[tactic(auto, using(s38_rules::proofs::Laws::sound_begun))]
fn counted(alloc: Global) -> Result<(u64, usize, u64), Fail> {
    let jobs = jobs(alloc)?;
    let objects = general_opening(alloc)?;
    let mut machine = Machine::start(alloc, objects, Seq::new(alloc), jobs.as_slice())?;
    if jobs.is_empty() || !is_done(&mut machine, &Event::Start)? {
        return Ok((0, 0, 0));
    }
    visited(alloc, &mut machine)
}

#[test]
fn thousand_puts(rt: HostRuntime) -> Result<(), Fail> {
    assert_eq!(rt; counted(rt.alloc())?, (1, 1000, 0));
    Ok(())
}

/// Whether the start of the second job, before the first has ended, waits.
#[tactic(auto, using(s38_rules::proofs::Laws::sound_begun))]
fn waits(alloc: Global) -> Result<bool, Fail> {
    let jobs = jobs(alloc)?;
    let objects = general_opening(alloc)?;
    let mut machine = Machine::start(alloc, objects, Seq::new(alloc), jobs.as_slice())?;
    if jobs.len() < 2 {
        return Ok(false);
    }
    let reply = Stepper::step(&mut machine, 2, &Event::Start)?;
    Ok(matches!(reply, Reply::MustWait))
}

#[test]
fn a_job_of_a_later_stage_waits(rt: HostRuntime) -> Result<(), Fail> {
    assert!(rt; waits(rt.alloc())?);
    Ok(())
}

/// What the start of the first job, that of the second, and a put by a pointer that is not set would come to.
fn verdicts(alloc: Global) -> Result<(Verdict, Verdict, Verdict), Fail> {
    let jobs = jobs(alloc)?;
    let objects = general_opening(alloc)?;
    let unset = put_by(alloc, None)?;
    let machine = Machine::start(alloc, objects, Seq::new(alloc), jobs.as_slice())?;
    Ok((
        machine.verdict(1, &Event::Start),
        machine.verdict(2, &Event::Start),
        machine.verdict(1, &unset),
    ))
}

#[test]
fn verdicts_are_told_beforehand(rt: HostRuntime) -> Result<(), Fail> {
    let (first, second, unset) = verdicts(rt.alloc())?;
    assert_eq!(rt; first, Verdict::Permit);
    assert_eq!(rt; second, Verdict::Wait);
    assert!(rt; matches!(unset, Verdict::Refuse(_)));
    Ok(())
}
