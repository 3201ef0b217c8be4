//! Runs on threads by a gate that says when a process may ask.

use crate::answers::{installed, shared_over};
use s38_base::Failed;
use s38_code::Entry;
use s38_top::{Gate, NoGate};
use std::alloc::Global;
use std::hint::spin_loop;
use std::sync::Wait;
use std::sync::atomic::{AtomicU64, Ordering};
use std::test::Fail;
use std::thread::Threads;

/// The numbers of workers.
const WORKERS: &[&[&str]] = &[
    &["run", "--workers", "2"],
    &["run", "--workers", "8"],
    &["run", "--workers", "64"],
];

/// Two jobs of one stage, each of which starts and ends.
const TWO_JOBS: &str = "PROGRAM P;RTX;END;STAGE;JOB A USER QSECOFR RUN P;JOB B USER QSECOFR RUN P;";

/// Each order of their four events.
const ORDERS: &[[u32; 4]] = &[
    [1, 1, 2, 2],
    [1, 2, 1, 2],
    [1, 2, 2, 1],
    [2, 1, 1, 2],
    [2, 1, 2, 1],
    [2, 2, 1, 1],
];

/// How often a process looks whether it may ask. It asks then all the same.
const LOOKS: u32 = 10_000_000;

/// How often a run is made until its events come in an order: between the gate and the turn others may go first.
const TRIES: u32 = 100;

/// The gate lets processes ask in an order.
#[derive(Drop)]
struct Order {
    order: [u32; 4],
    asked: AtomicU64,
    missed: AtomicU64,
}

impl Gate for Order {
    fn before(&self, process: u32) {
        for _ in 0..LOOKS {
            let asked = self.asked.load(Ordering::SeqCst);
            if self.order.get(asked as usize) == Some(&process) {
                self.asked.store(asked.wrapping_add(1), Ordering::SeqCst);
                return;
            }
            spin_loop();
        }
        self.missed.store(1, Ordering::SeqCst);
    }
}

/// Whether the entries are of these processes.
fn are_of(history: &[Entry], order: &[u32; 4]) -> bool {
    history.len() == order.len()
        && history
            .iter()
            .zip(order)
            .all(|(entry, process)| entry.process == *process)
}

/// Each order of the events of two jobs comes about, and each is served.
#[test]
fn a_gate_brings_about_each_order(rt: HostRuntime) -> Result<(), Fail> {
    for words in WORKERS {
        for order in ORDERS {
            let mut came = false;
            for _ in 0..TRIES {
                let gate = Order {
                    order: *order,
                    asked: AtomicU64::new(0),
                    missed: AtomicU64::new(0),
                };
                let disk = installed(rt.alloc(), &[])?.ok_or(Failed)?;
                let report = shared_over(&rt, rt.alloc(), disk, words, TWO_JOBS, &gate)?;
                assert!(rt; report.status == 0);
                assert!(rt; report.history.len() == 4);
                assert!(rt; gate.missed.load(Ordering::SeqCst) == 0);
                assert!(rt; gate.asked.load(Ordering::SeqCst) == 4);
                came = are_of(report.history.as_slice(), order);
                if came {
                    break;
                }
            }
            assert!(rt; came);
        }
    }
    Ok(())
}

/// Jobs of later stages, and of the first one.
const STAGES: &str =
    "PROGRAM P;RTX;END;STAGE;JOB A USER QSECOFR RUN P;JOB B USER QSECOFR RUN P;STAGE
JOB C USER QSECOFR RUN P;JOB D USER QSECOFR RUN P;STAGE;JOB E USER QSECOFR RUN P;JOB F USER QSECOFR RUN P;";

/// The processes of later stages ask for nothing before those of the earlier ones have ended: each starts and ends, and none
/// is told to wait.
#[test]
fn stages_follow_one_another(rt: HostRuntime) -> Result<(), Fail> {
    for words in WORKERS {
        let disk = installed(rt.alloc(), &[])?.ok_or(Failed)?;
        let report = shared_over(&rt, rt.alloc(), disk, words, STAGES, &NoGate)?;
        assert!(rt; report.status == 0);
        assert!(rt; report.history.len() == 12);
    }
    Ok(())
}

/// A job that does local instructions for long, beside one that asks for something again and again.
const LOCAL: &str =
    "PROGRAM LONG;DCL X PKD:9:0;LABEL AGAIN;ADDN X,X,1;CMPNVB X,60000,LO,AGAIN;RTX;END
PROGRAM ASKS;DCL Q PTR;DCL M CHAR:8;DCL X PKD:9:0;CRTQ Q,*NONE,QUEUE/00/A,NONE,FIFO,0,8
LABEL AGAIN;ENQ Q,*NONE,'TURN';DEQ M,Q,ANY,*NONE,NOWAIT;ADDN X,X,1;CMPNVB X,400,LO,AGAIN;RTX;END
STAGE;JOB A USER QSECOFR RUN LONG;JOB B USER QSECOFR RUN ASKS;";

/// How often the second asks at least while the first does local instructions.
const MEANWHILE: u64 = 100;

/// How often the two are run at most.
const LOCAL_TRIES: u32 = 10;

/// How often the second looks whether the first has asked for its start, and then again until that start is made.
const START_LOOKS: u32 = 20_000;

/// The gate counts how often each process asks, and how often the second has asked when the first asks again.
#[derive(Drop)]
struct Meanwhile {
    asked: [AtomicU64; 2],
    seen: AtomicU64,
}

impl Meanwhile {
    /// Waits until the first process has asked for its start, and then as long again.
    fn wait_for_start(&self) {
        for _ in 0..LOOKS {
            if self.asked[0].load(Ordering::SeqCst) > 0 {
                break;
            }
            spin_loop();
        }
        for _ in 0..START_LOOKS {
            spin_loop();
        }
    }
}

impl Gate for Meanwhile {
    fn before(&self, process: u32) {
        if process == 1 {
            self.seen
                .store(self.asked[1].load(Ordering::SeqCst), Ordering::SeqCst);
            self.asked[0].fetch_add(1, Ordering::SeqCst);
        } else {
            if self.asked[1].load(Ordering::SeqCst) == 0 {
                self.wait_for_start();
            }
            self.asked[1].fetch_add(1, Ordering::SeqCst);
        }
    }
}

/// How often the second job asks while the first does local instructions.
fn seen_meanwhile<R: Threads + Wait + Sync>(
    rt: &R,
    alloc: Global,
    words: &[&str],
) -> Result<u64, Fail> {
    let gate = Meanwhile {
        asked: [AtomicU64::new(0), AtomicU64::new(0)],
        seen: AtomicU64::new(0),
    };
    let disk = installed(alloc, &[])?.ok_or(Failed)?;
    let report = shared_over(rt, alloc, disk, words, LOCAL, &gate)?;
    if report.status == 0 && gate.asked[0].load(Ordering::SeqCst) == 2 {
        Ok(gate.seen.load(Ordering::SeqCst))
    } else {
        Ok(0)
    }
}

/// While a process does local instructions others have their turns: local code never runs under the turn. A try counts for
/// nothing where the second job had no processor meanwhile.
#[test]
fn local_code_keeps_nobody_waiting(rt: HostRuntime) -> Result<(), Fail> {
    for words in WORKERS {
        let mut seen = 0;
        for _ in 0..LOCAL_TRIES {
            if seen < MEANWHILE {
                seen = seen_meanwhile(&rt, rt.alloc(), words)?;
            }
        }
        assert!(rt; seen >= MEANWHILE);
    }
    Ok(())
}
