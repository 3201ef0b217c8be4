ghost use Rattle.std.specs.Prelude.{◌≡◌, ◌≤◌, ◌-◌, ◌<◌, ◌==◌, ◌^◌, ℕ, not, IfOk, IsErrOf, OnErr, OnOk, Option, Some, length};
ghost use Rattle.std.specs.Option.{option_copied};
ghost use Rattle.s38_code.specs.Asking.{last_reply, reply_by};
ghost use Rattle.s38_code.specs.declared.event.Event.{Event};
ghost use Rattle.s38_code.specs.declared.step.StepFault.{StepFault};
ghost use Rattle.s38_rules.specs.step.Legal.{IsProcess, Run, after};
ghost use Rattle.s38_rules.specs.state.State.{ready_list};
ghost use Rattle.s38_rules.specs.step.Step.{step};

use s38_base::NoMemory;
use s38_code::{Asked, Event, Reply, StepFault};
use s38_machine::Machine;

/// A machine that makes a run: it answers events one by one, and may stop in the midst of the run.
pub trait RunMachine {
    /// What never changes of it.
    ghost Origin: { Type 0 };

    ghost origin: { Self → Origin };

    /// The run up to now. Its state says something only while the machine is going.
    ghost run: { Self → Run };

    /// The call that was answered Stopped.
    ghost stopped: { Self → Option (ℕ × Event) };

    /// Holds at all times.
    ghost is_sound: { Self → Type 0 };

    /// It answers.
    ghost is_going: { Self → Type 0 };

    /// Answers one event of a job's process by one step of the run. An error leaves what was entered as it was; after it
    /// the machine may answer no more.
    fn ask(&mut self, process: u32, event: Event) -> Result<Asked, StepFault>
        requires sound { is_sound self.old }
        requires going { is_going self.old }
        requires may { IsProcess (run self.old).origin process }
        ensures sound { is_sound self.new }
        ensures origin { origin self.new ≡ origin self.old }
        ensures moved { OnOk result (run self.new ≡ after (run self.old) (run self.new).moment process event) }
        ensures later { OnOk result ((run self.old).moment ≤ (run self.new).moment) }
        ensures reply { IfOk result (λ asked. reply_by asked (run self.new).history ≡ Some (step (run self.old).state process event).reply) }
        ensures going { OnOk result (is_going self.new) }
        ensures goes_on { OnOk result (stopped self.new ≡ stopped self.old) }
        ensures begun { OnErr result ((run self.new).origin ≡ (run self.old).origin) }
        ensures history { OnErr result ((run self.new).history ≡ (run self.old).history) }
        ensures marks { OnErr result ((run self.new).marks ≡ (run self.old).marks) }
        ensures stopped { IsErrOf result StepFault.Stopped → stopped self.new ≡ Some (process, event) }
        ensures refused { IsErrOf result StepFault.NoMemory → stopped self.new ≡ stopped self.old };

    /// The reply of the last entry of the history.
    fn last_reply(&self) -> Option<&Reply>
        requires sound { is_sound self.now }
        requires going { is_going self.now }
        ensures { option_copied result ≡ last_reply (run self.now).history };

    /// Lists the processes that are ready, in order of their numbers.
    fn ready_list(&self, into: &mut Vec<u32>) -> Result<(), NoMemory>
        requires sound { is_sound self.now }
        requires going { is_going self.now }
        requires few { length (run self.now).state.processes < 2 ^ 32 - 1 }
        ensures { OnOk result (into.new.items ≡ ready_list (run self.now).state) };

    /// Whether some process waits.
    fn somebody_waits(&self) -> bool
        requires sound { is_sound self.now }
        requires going { is_going self.now }
        ensures { result ≡ not (length (run self.now).state.waiting == 0) };
}

impl RunMachine for Machine {
    ghost use Rattle.std.specs.Prelude.{None};
    ghost use Rattle.s38_run.specs.Still.{AlwaysGoes, Beginning, IsStill, beginning};

    ghost Origin = { Beginning };

    ghost origin = { beginning };

    ghost run = { λ m. m };

    ghost stopped = { λ _. None };

    ghost is_sound = { IsStill };

    ghost is_going = { AlwaysGoes };

    fn ask(&mut self, process: u32, event: Event) -> Result<Asked, StepFault> {
        Machine::ask(self, process, event)
    }

    fn last_reply(&self) -> Option<&Reply> {
        Machine::last_reply(self)
    }

    fn ready_list(&self, into: &mut Vec<u32>) -> Result<(), NoMemory> {
        Machine::ready_list(self, into)
    }

    fn somebody_waits(&self) -> bool {
        Machine::somebody_waits(self)
    }
}
