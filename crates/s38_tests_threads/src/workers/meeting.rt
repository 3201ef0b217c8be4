use crate::Counter;
use crate::workers::given::{ended, jobs_of};
use s38_run::RunEnd;
use s38_workers::{Gate, run_jobs};
use std::hint::spin_loop;
use std::sync::atomic::{AtomicU64, Ordering};
use std::test::Fail;

/// How often a process looks for the other.
const LOOKS: u32 = 10_000_000;

/// Each process shows that it is in a local part, and waits until the other is in one too.
#[derive(Drop)]
struct Meeting {
    flags: [AtomicU64; 2],
    missed: AtomicU64,
}

impl Gate for Meeting {
    fn before(&self, process: u32) {
        let own = (process % 2) as usize;
        self.flags[own].store(1, Ordering::SeqCst);
        for _ in 0..LOOKS {
            if self.flags[1 - own].load(Ordering::SeqCst) == 1 {
                return;
            }
            spin_loop();
        }
        self.missed.store(1, Ordering::SeqCst);
    }
}

/// Two processes are in local parts at once.
#[test]
fn two_processes_meet(rt: HostRuntime) -> Result<(), Fail> {
    let alloc = rt.alloc();
    let gate = Meeting {
        flags: [AtomicU64::new(0), AtomicU64::new(0)],
        missed: AtomicU64::new(0),
    };
    let (jobs, made) = jobs_of(alloc, &[1, 1])?;
    let (machine, end) = run_jobs(
        &rt,
        alloc,
        Counter::new(alloc),
        jobs.as_slice(),
        made.as_slice(),
        2,
        &gate,
    );
    assert!(rt; end == RunEnd::Complete);
    assert!(rt; ended(machine.history()) == 2);
    assert!(rt; gate.missed.load(Ordering::SeqCst) == 0);
    Ok(())
}
