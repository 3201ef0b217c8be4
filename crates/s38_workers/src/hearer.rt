ghost use Rattle.std.specs.Prelude.{◌≡◌};
ghost use Rattle.s38_workers.specs.Asking.{told};

use s38_base::NoMemory;
use s38_code::{Reply, StepFault};
use s38_process::Process;
use s38_turn::Listener;

/// What a reply was for a process.
#[derive(Clone, Copy)]
pub enum Heard {
    GoesOn,
    Waits,
}

/// A process that goes on by each reply that it hears.
#[derive(Drop)]
pub struct Hearer {
    pub process: Process,
    /// What the last reply was for it.
    pub heard: Result<Heard, NoMemory>,
}

impl Listener for Hearer {
    ghost use Rattle.s38_workers.specs.Hearing.{Hears};

    ghost hears = { Hears };

    fn hear(&mut self, reply: &Reply) {
        self.heard = match self.process.absorb(reply) {
            Err(fault) => Err(fault),
            Ok(()) => Ok(heard_by(reply)),
        };
    }
}

fn heard_by(reply: &Reply) -> Heard {
    match reply {
        Reply::MustWait => Heard::Waits,
        _ => Heard::GoesOn,
    }
}

/// What a call was for a process.
pub fn told(
    call: Result<(), StepFault>,
    heard: Result<Heard, NoMemory>,
) -> Result<Option<Heard>, StepFault>
    ensures { result ≡ told call heard }
{
    match call {
        Err(fault) => Err(fault),
        Ok(()) => match heard {
            Err(_) => Err(StepFault::NoMemory),
            Ok(heard) => Ok(Some(heard)),
        },
    }
}
