use crate::turn::counter::Counter;
use crate::turn::working::{CALLS, run};
use s38_turn::Turn;
use std::test::Fail;

/// The entries of each process are in the history in order, and there are no others.
#[test]
fn threads_share_a_machine(rt: HostRuntime) -> Result<(), Fail> {
    for processes in [1, 2, 8] {
        let (turn, seat) = match Turn::new(rt.alloc(), Counter::new(rt.alloc()), processes) {
            Ok(begun) => begun,
            Err((_, fault)) => return Err(Fail::from(fault)),
        };
        let seat = run(&rt, &turn, seat, processes)?;
        let machine = turn.close(seat);
        for process in 1..=processes {
            let mut next = 0u64;
            for entry in machine.history() {
                if entry.process == process {
                    assert!(rt; entry.seq == next);
                    next = next.wrapping_add(1);
                }
            }
            assert!(rt; next == CALLS as u64);
        }
        assert!(rt; machine.history().len() as u64 == processes as u64 * CALLS as u64);
    }
    Ok(())
}
