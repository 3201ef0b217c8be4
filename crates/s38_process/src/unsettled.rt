ghost use Rattle.std.specs.Prelude.{◌≡◌, ◌<◌, ◌+◌, IfOk, OnOk, OnErr, Some, length};
ghost use Rattle.s38_process.specs.Asked.{asked, is_acting};
ghost use Rattle.s38_process.specs.declared.status.Status.{Status};
ghost use Rattle.s38_process.specs.Invocations.{instruction_of, instructions_in};
ghost use Rattle.s38_process.specs.Process.{acts, after_signal, event_of, fresh, one_more, returns, runs};
ghost use Rattle.s38_process.specs.AfterReply.{after_act, after_asked, after_end, after_event, after_start, went_by};
ghost use Rattle.s38_process.specs.LocalRun.{after_local_run};

use crate::entering::go_into;
use crate::exceptions::take_signal;
use crate::invocations::Invocations;
use crate::local_run::{is_return, run_locally};
use crate::made::begun_by;
use crate::next::Next;
use crate::progress::Progress;
use crate::status::Status;
use s38_base::NoMemory;
use s38_code::{CreateResult, EndCause, Event, Instruction, Job, Reply, Val};
use s38_requests::Recent;
use std::alloc::Global;
use std::marker::Model;

/// A process somewhere in its local run. Contracts see its state as it is.
#[derive(Drop)]
pub struct Unsettled {
    alloc: Global,
    invocations: Invocations,
    budget: u32,
    progress: Progress,
}

impl Model for Unsettled {
    ghost use Rattle.std.specs.Prelude.{◌≤◌};
    ghost use Rattle.s38_process.specs.Process.{ProcessState};
    ghost use Rattle.s38_process.specs.Progress.{process_state};

    ghost Value = { ProcessState };

    ghost view = { λ p. process_state p.invocations p.budget p.progress };

    ghost invariant = { λ p. p.progress.done ≤ p.budget };
}

impl Unsettled {
    /// A process that has not started, over what creation made of the job's template.
    pub fn begin(alloc: Global, job: &Job, made: CreateResult) -> Result<Unsettled, NoMemory>
        ensures { IfOk result (λ process. process ≡ fresh made job.now.budget) }
    {
        Ok(Unsettled {
            alloc,
            invocations: Invocations::first(alloc, made)?,
            budget: job.budget,
            progress: Progress {
                done: 0,
                status: Status::Fresh,
            },
        })
    }

    /// Does local instructions up to the next shared one, or up to the end.
    pub fn run_locally(&mut self) -> Result<(), NoMemory>
        ensures ok { OnOk result (self.new ≡ after_local_run self.old) }
        ensures same { after_local_run self.new ≡ after_local_run self.old }
    {
        run_locally(
            self.alloc,
            self.budget,
            &mut self.invocations,
            &mut self.progress,
        )
    }

    fn returns(&self) -> Event
        ensures { result ≡ returns self.now }
    {
        let cause = if self.budget - self.progress.done <= 1 {
            EndCause::Budget
        } else {
            EndCause::Return
        };
        Event::Finish { cause }
    }

    fn acts(&self, recent: &mut Recent, instruction: &Instruction) -> Result<Event, NoMemory>
        ensures { IfOk result (λ event. event ≡ acts self.now (Some instruction.now)) }
    {
        if is_return(instruction.op) {
            return Ok(self.returns());
        }
        Ok(Event::Act {
            depth: self.invocations.depth() as u16,
            request: self.invocations.request(self.alloc, recent, instruction)?,
        })
    }

    fn runs(&self, recent: &mut Recent) -> Result<Event, NoMemory>
        ensures { IfOk result (λ event. event ≡ runs self.now) }
    {
        if self.budget <= self.progress.done {
            return Ok(Event::Finish {
                cause: EndCause::Budget,
            });
        }
        match self.invocations.instruction() {
            None => Ok(self.returns()),
            Some(instruction) => self.acts(recent, instruction),
        }
    }

    /// What the process asks in this state.
    #[tactic(auto, unfolding(crate::specs::Process::event_of))]
    pub fn asks(&self, recent: &mut Recent) -> Result<Next, NoMemory>
        ensures { IfOk result (λ next. asked next ≡ event_of self.now) }
    {
        match self.progress.status {
            Status::Fresh => Ok(Next::Step(Event::Start)),
            Status::Running => Ok(Next::Step(self.runs(recent)?)),
            Status::Ending(cause) => Ok(Next::Step(Event::Finish { cause })),
            Status::Ended => Ok(Next::Ended),
        }
    }

    fn go_on_from_start(&mut self, reply: &Reply)
        ensures { self.new ≡ after_start self.old reply.now }
    {
        match reply {
            Reply::Done(_) => self.progress.status = begun_by(self.invocations.made()),
            Reply::Signal(exception) => {
                self.progress.status = Status::Ending(EndCause::Start { id: exception.id });
            }
            Reply::MustWait => {}
        }
    }

    fn go_on_from_end(&mut self, reply: &Reply)
        ensures { self.new ≡ after_end self.old reply.now }
    {
        match reply {
            Reply::Done(_) => self.progress.status = Status::Ended,
            Reply::Signal(_) => self.progress.status = Status::Ended,
            Reply::MustWait => {}
        }
    }

    /// Whether the next instruction asks something of the machine.
    fn is_acting(&self) -> bool
        ensures { result ≡ is_acting self.now }
    {
        if self.budget <= self.progress.done {
            return false;
        }
        match self.invocations.instruction() {
            None => false,
            Some(instruction) => !is_return(instruction.op),
        }
    }

    /// Goes on in a program that came, or after the instruction with the values that came.
    fn take_values(&mut self, given: &[Val]) -> Result<(), NoMemory>
        requires room { self.old.done < self.old.budget }
        requires within { self.old.stack.top.frame.at < length (instructions_in self.old.stack.top.made) }
        ensures ok { OnOk result (self.new ≡ one_more self.old (went_by self.old.stack (instruction_of self.old.stack.top) given.now)) }
        ensures err { OnErr result (self.new ≡ self.old) }
    {
        match go_into(self.alloc, &mut self.invocations, given) {
            Ok(()) => {
                self.progress.done += 1;
                Ok(())
            }
            Err(fault) => Err(fault),
        }
    }

    fn take_signal(&mut self, id: u16)
        requires { self.old.done < self.old.budget }
        ensures { self.new ≡ after_signal self.old id }
    {
        take_signal(
            self.alloc,
            self.budget,
            &mut self.invocations,
            &mut self.progress,
            id,
        );
    }

    fn go_on_from_act(&mut self, reply: &Reply) -> Result<(), NoMemory>
        requires room { self.old.done < self.old.budget }
        requires within { self.old.stack.top.frame.at < length (instructions_in self.old.stack.top.made) }
        ensures ok { OnOk result (self.new ≡ after_act self.old reply.now) }
        ensures err { OnErr result (self.new ≡ self.old) }
    {
        match reply {
            Reply::Done(values) => self.take_values(values.as_slice()),
            Reply::Signal(exception) => {
                self.take_signal(exception.id);
                Ok(())
            }
            Reply::MustWait => Ok(()),
        }
    }

    fn go_on(&mut self, reply: &Reply) -> Result<(), NoMemory>
        ensures ok { OnOk result (self.new ≡ after_event self.old (runs self.old) reply.now) }
        ensures err { OnErr result (self.new ≡ self.old) }
    {
        if self.is_acting() {
            self.go_on_from_act(reply)
        } else {
            self.go_on_from_end(reply);
            Ok(())
        }
    }

    /// Goes on by the reply to what it asks in this state.
    #[tactic(auto, unfolding(crate::specs::Process::event_of))]
    pub fn answer(&mut self, reply: &Reply) -> Result<(), NoMemory>
        ensures ok { OnOk result (self.new ≡ after_asked self.old (event_of self.old) reply.now) }
        ensures err { OnErr result (self.new ≡ self.old) }
    {
        match self.progress.status {
            Status::Fresh => {
                self.go_on_from_start(reply);
                Ok(())
            }
            Status::Running => self.go_on(reply),
            Status::Ending(_) => {
                self.go_on_from_end(reply);
                Ok(())
            }
            Status::Ended => Ok(()),
        }
    }
}
