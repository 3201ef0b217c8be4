//! A machine over a vault answers the processes that share it.
ghost use Rattle.std.specs.Prelude.{◌≡◌, ◌≤◌, IfErr, IfOk, Some, length};
ghost use Rattle.std.specs.Option.{option_copied};
ghost use Rattle.s38_code.specs.Asking.{last_reply, reply_by};
ghost use Rattle.s38_code.specs.declared.step.StepFault.{StepFault};
ghost use Rattle.s38_rules.specs.step.Legal.{IsProcess};
ghost use Rattle.s38_durable_machine.specs.Asking.{IsAskedOver};
ghost use Rattle.s38_durable_machine.specs.Seen.{broken_off, run_of};
ghost use Rattle.s38_durable_machine.specs.Sound.{IsSoundOver};
ghost use Rattle.s38_durable_machine.specs.declared.ending.Ending.{Ending};

use crate::ending::Ending;
use crate::laws::durable_laws;
use crate::machine::StoredMachine;
use s38_base::TryClone;
use s38_code::{Asked, Entry, Event, Reply, StepFault, Stepper};
use s38_vault::Vault;

impl<V: Vault> StoredMachine<V> {
    /// Whether the machine goes on.
    pub fn ending(&self) -> Ending
        ensures { result ≡ self.now.ending }
    {
        self.ending
    }

    /// The entries that were answered.
    fn answered(&self) -> &[Entry]
        ensures { result.now ≡ (run_of self.now).history }
    {
        let all = self.machine.history();
        match self.ending {
            Ending::Going => all,
            Ending::Stopped | Ending::Wanting => &all[..all.len().saturating_sub(1)],
        }
    }

    /// The reply of the last entry that was answered.
    pub fn last_reply(&self) -> Option<&Reply>
        ensures { option_copied result ≡ last_reply (run_of self.now).history }
    {
        match self.answered().last() {
            None => None,
            Some(entry) => Some(&entry.reply),
        }
    }

    /// Answers one event as `ask` does, also where the machine goes no more.
    fn ask_any(&mut self, process: u32, event: Event) -> Result<Asked, StepFault>
        requires sound { IsSoundOver V.view V.holds V.leaves self.old }
        requires may { IsProcess self.old.machine.origin process }
        ensures { IsAskedOver V.view V.holds V.leaves self.old self.new process event (λ asked reply. reply_by asked (run_of self.new).history ≡ Some reply) result }
    {
        match self.ending {
            Ending::Stopped => Err(StepFault::Stopped),
            Ending::Wanting => Err(StepFault::NoMemory),
            Ending::Going => self.ask(process, event),
        }
    }

    /// A copy of the reply of the last entry. Where memory is refused the machine answers nothing more, and the entry counts
    /// as that of a call that failed.
    fn copied(&mut self) -> Result<Reply, StepFault>
        requires sound { IsSoundOver V.view V.holds V.leaves self.old }
        requires going { self.old.ending ≡ Ending.Going }
        requires some { 1 ≤ length self.old.machine.history }
        ensures ok { IfOk result (λ reply. (last_reply self.old.machine.history ≡ Some reply) × (self.new ≡ self.old)) }
        ensures err { IfErr result (λ fault. (fault ≡ StepFault.NoMemory) × (self.new ≡ broken_off self.old)) }
    {
        let copy = match self.machine.last_reply() {
            None => unreachable!(),
            Some(reply) => reply.try_clone(self.alloc),
        };
        match copy {
            Ok(reply) => Ok(reply),
            Err(_) => {
                self.ending = Ending::Wanting;
                Err(StepFault::NoMemory)
            }
        }
    }

    /// Answers one event as `ask` does, with a copy of the reply.
    fn step_going(&mut self, process: u32, event: Event) -> Result<Reply, StepFault>
        requires sound { IsSoundOver V.view V.holds V.leaves self.old }
        requires going { self.old.ending ≡ Ending.Going }
        requires may { IsProcess self.old.machine.origin process }
        ensures { IsAskedOver V.view V.holds V.leaves self.old self.new process event (λ answer reply. reply ≡ answer) result }
    {
        durable_laws();
        let before = self.machine.history().len();
        match self.ask(process, event) {
            Err(fault) => Err(fault),
            Ok(_) => {
                if self.machine.history().len() == before {
                    Ok(Reply::MustWait)
                } else {
                    self.copied()
                }
            }
        }
    }

    /// The same, also where the machine goes no more.
    fn step_any(&mut self, process: u32, event: &Event) -> Result<Reply, StepFault>
        requires sound { IsSoundOver V.view V.holds V.leaves self.old }
        requires may { IsProcess self.old.machine.origin process }
        ensures { IsAskedOver V.view V.holds V.leaves self.old self.new process event.now (λ answer reply. reply ≡ answer) result }
    {
        match self.ending {
            Ending::Stopped => Err(StepFault::Stopped),
            Ending::Wanting => Err(StepFault::NoMemory),
            Ending::Going => match event.try_clone(self.alloc) {
                Err(_) => Err(StepFault::NoMemory),
                Ok(own) => self.step_going(process, own),
            },
        }
    }
}

impl<V: Vault> Stepper for StoredMachine<V> {
    ghost use Rattle.s38_durable_machine.specs.Asking.{IsStoredStep, MayAskOver};
    ghost use Rattle.s38_durable_machine.specs.Seen.{StoredBeginning, beginning_of, run_of, stopped_of};
    ghost use Rattle.s38_durable_machine.specs.Sound.{IsSoundOver};

    ghost Origin = { StoredBeginning V };

    ghost origin = { beginning_of };

    ghost history = { λ m. (run_of m).history };

    ghost stopped = { stopped_of };

    ghost is_sound = { IsSoundOver V.view V.holds V.leaves };

    ghost steps = { IsStoredStep };

    ghost may_ask = { MayAskOver };

    fn step(&mut self, process: u32, event: &Event) -> Result<Reply, StepFault> {
        self.step_any(process, event)
    }

    fn ask(&mut self, process: u32, event: Event) -> Result<Asked, StepFault> {
        self.ask_any(process, event)
    }

    fn last_reply(&self) -> Option<&Reply> {
        StoredMachine::last_reply(self)
    }
}
