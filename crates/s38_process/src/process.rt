ghost use Rattle.std.specs.Prelude.{◌≡◌, IfOk, IsTrue, OnErr, OnOk};
ghost use Rattle.s38_code.specs.declared.reply.Reply.{Reply};
ghost use Rattle.s38_odt.specs.Suited.{AreSuited};
ghost use Rattle.s38_process.specs.Asked.{asked};
ghost use Rattle.s38_process.specs.Invocations.{instructions_in, program_rows_in};
ghost use Rattle.s38_process.specs.Lawful.{IsLawful, SuitsReply};
ghost use Rattle.s38_process.specs.Process.{event_of, fresh};
ghost use Rattle.s38_process.specs.AfterReply.{absorbed};
ghost use Rattle.s38_process.specs.LocalRun.{after_local_run};

use crate::next::Next;
use crate::unsettled::Unsettled;
use s38_base::NoMemory;
use s38_code::{CreateResult, Job, Reply};
use s38_requests::Recent;
use std::alloc::Global;
use std::marker::Model;

/// A process of a job. Contracts see it after its local run: before its next shared instruction, or at its end.
#[derive(Drop)]
pub struct Process {
    inner: Unsettled,
    /// Whether its local run is known to be done.
    rests: bool,
    recent: Recent,
}

impl Model for Process {
    ghost use Rattle.std.specs.Prelude.{◌≡◌, IsTrue};
    ghost use Rattle.s38_process.specs.Process.{ProcessState};
    ghost use Rattle.s38_process.specs.LocalRun.{after_local_run};

    ghost Value = { ProcessState };

    ghost view = { λ p. after_local_run p.inner };

    ghost invariant = { λ p. IsTrue p.rests → after_local_run p.inner ≡ p.inner };
}

/// Does the local run, unless it is known to be done.
#[inline(always)]
#[tactic(auto, using(crate::proofs::Alone::settled_again))]
fn settle(inner: &mut Unsettled, rests: &mut bool) -> Result<(), NoMemory>
    requires { IsTrue rests.old → after_local_run inner.old ≡ inner.old }
    ensures ok { OnOk result (inner.new ≡ after_local_run inner.old) }
    ensures same { after_local_run inner.new ≡ after_local_run inner.old }
    ensures rests { IsTrue rests.new → after_local_run inner.new ≡ inner.new }
{
    if *rests {
        return Ok(());
    }
    match inner.run_locally() {
        Ok(()) => {
            *rests = true;
            Ok(())
        }
        Err(fault) => Err(fault),
    }
}

impl Process {
    /// A process that has not started, over what creation made of the job's template.
    #[tactic(auto, using(crate::proofs::Alone::fresh_settled))]
    pub fn begin(alloc: Global, job: &Job, made: CreateResult) -> Result<Process, NoMemory>
        ensures ok { IfOk result (λ process. process ≡ fresh made job.now.budget) }
        ensures lawful { AreSuited (program_rows_in made) (instructions_in made) → IfOk result (λ process. IsLawful process) }
    {
        let inner = Unsettled::begin(alloc, job, made)?;
        Ok(Process {
            inner,
            rests: false,
            recent: Recent::new(),
        })
    }

    /// What the process does next: the same again until it is answered, and Ended exactly after its end.
    pub fn next(&mut self) -> Result<Next, NoMemory>
        ensures asked { IfOk result (λ next. asked next ≡ event_of self.old) }
        ensures same { self.new ≡ self.old }
        ensures lawful { IsLawful self.old → IsLawful self.new }
    {
        match settle(&mut self.inner, &mut self.rests) {
            Ok(()) => {}
            Err(fault) => return Err(fault),
        }
        self.inner.asks(&mut self.recent)
    }

    /// Goes on by the reply to what it asked. MustWait leaves it as it was, and so does an error.
    #[tactic(auto, using(crate::proofs::Alone::absorbed_waits, crate::proofs::Alone::settled_again), unfolding(crate::specs::AfterReply::absorbed))]
    pub fn absorb(&mut self, reply: &Reply) -> Result<(), NoMemory>
        ensures ok { OnOk result (self.new ≡ absorbed self.old reply.now) }
        ensures waits { reply.now ≡ Reply.MustWait → self.new ≡ self.old }
        ensures err { OnErr result (self.new ≡ self.old) }
        ensures lawful { IsLawful self.old → SuitsReply self.old reply.now → IsLawful self.new }
    {
        match settle(&mut self.inner, &mut self.rests) {
            Ok(()) => {}
            Err(fault) => return Err(fault),
        }
        self.rests = false;
        self.inner.answer(reply)
    }
}
