ghost use Rattle.std.specs.Prelude.{◌≡◌, IfOk, length};

use s38_base::{Name, Seq};
use s38_code::{CreateResult, Entry, Event, Job};
use std::alloc::Global;
use std::test::Fail;

/// Jobs of these stages. Creation refuses the template of each, so that its process starts, and then ends.
pub fn jobs_of(alloc: Global, stages: &[u16]) -> Result<(Vec<Job>, Vec<CreateResult>), Fail>
    ensures jobs { IfOk result (λ r. length r.0.items ≡ length stages.now) }
    ensures made { IfOk result (λ r. length r.1.items ≡ length stages.now) }
{
    let name = Name::parse(b"J")?;
    let user = Name::parse(b"QUSER")?;
    let mut jobs = Vec::new(alloc);
    let mut made = Vec::new(alloc);
    for stage in stages {
        jobs.push(Job {
            name,
            user,
            template: name,
            budget: 9,
            contexts: Seq::new(alloc),
            stage: *stage,
        })?;
        made.push(CreateResult::Refused { id: 1, number: 1 })?;
    }
    Ok((jobs, made))
}

/// How many processes have ended.
pub fn ended(history: &[Entry]) -> usize {
    history
        .iter()
        .filter(|entry| matches!(entry.event, Event::Finish { .. }))
        .count()
}
