use crate::Counter;
use crate::workers::given::{ended, jobs_of};
use s38_run::RunEnd;
use s38_workers::{NoGate, run_jobs};
use std::test::Fail;

/// How many workers there are.
const WORKERS: [u32; 4] = [1, 2, 3, 64];

/// Each process starts and ends, by any machine.
#[test]
fn any_machine_is_shared(rt: HostRuntime) -> Result<(), Fail> {
    let alloc = rt.alloc();
    for workers in WORKERS {
        let (jobs, made) = jobs_of(alloc, &[1, 1, 1, 1, 1, 1, 1])?;
        let (machine, end) = run_jobs(
            &rt,
            alloc,
            Counter::new(alloc),
            jobs.as_slice(),
            made.as_slice(),
            workers,
            &NoGate,
        );
        assert!(rt; end == RunEnd::Complete);
        assert!(rt; ended(machine.history()) == 7);
    }
    Ok(())
}
