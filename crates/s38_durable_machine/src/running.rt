//! A machine over a vault makes a run.
use crate::machine::StoredMachine;
use s38_base::NoMemory;
use s38_code::{Asked, Event, Reply, StepFault};
use s38_run::RunMachine;
use s38_vault::Vault;

impl<V: Vault> RunMachine for StoredMachine<V> {
    ghost use Rattle.s38_durable_machine.specs.Seen.{StoredBeginning, beginning_of, run_of, stopped_of};
    ghost use Rattle.s38_durable_machine.specs.Sound.{IsSoundOver};
    ghost use Rattle.s38_durable_machine.specs.declared.ending.Ending.TheVariants.{Going};
    ghost use Rattle.std.specs.Prelude.{◌≡◌};

    ghost Origin = { StoredBeginning V };

    ghost origin = { beginning_of };

    ghost run = { run_of };

    ghost stopped = { stopped_of };

    ghost is_sound = { IsSoundOver V.view V.holds V.leaves };

    ghost is_going = { λ m. m.ending ≡ Going };

    fn ask(&mut self, process: u32, event: Event) -> Result<Asked, StepFault> {
        StoredMachine::ask(self, process, event)
    }

    fn last_reply(&self) -> Option<&Reply> {
        StoredMachine::last_reply(self)
    }

    fn ready_list(&self, into: &mut Vec<u32>) -> Result<(), NoMemory> {
        StoredMachine::ready_list(self, into)
    }

    fn somebody_waits(&self) -> bool {
        StoredMachine::somebody_waits(self)
    }
}
