ghost use Rattle.std.specs.Prelude.{◌≡◌, ◌<◌, ◌≤◌, ◌^◌, None, IsTrue, IfOk, OnOk, true};
ghost use Rattle.s38_objects.specs.Lawful.{is_place_of};
ghost use Rattle.s38_rules.specs.state.Held.{found, with_added};
ghost use Rattle.s38_base.specs.NameText.{is_name};
ghost use Rattle.s38_rules.specs.state.Kept.{CanBeKept};
ghost use Rattle.s38_rules.specs.state.Opening.{general_context, held_first, held_installed, locked_queue, machine_context_object, named, officer_object, officer_rows, owned, plain_user, process_entries, state_of};

use s38_base::limits::BODY_LIMIT;
use s38_base::{Id, Kind, Name, NoMemory, ObjNum, Rights, Special, TryClone};
use s38_code::{Checked, Job};
use s38_invoke::{Core, Profiles};
use s38_objects::Objects;
use s38_queues::{Order, Queue};
use s38_rules::{Body, Object, ProcessEntry, RowList};
use std::alloc::Global;

fn named(kind: Kind, name: &[u8]) -> Id
    requires { IsTrue (is_name name.now) }
    ensures { result ≡ named kind name.now }
{
    match Name::parse(name) {
        Ok(name) => Id { kind, sub: 0, name },
        Err(_) => unreachable!(),
    }
}

fn officer_rows(alloc: Global) -> Result<RowList, NoMemory>
    ensures { IfOk result (λ rows. rows ≡ officer_rows) }
{
    RowList::of(alloc, ObjNum(2), Rights(255))
}

fn owned(
    alloc: Global,
    number: u64,
    id: &Id,
    context: u64,
    public: Rights,
    body: Body,
) -> Result<Object, NoMemory>
    ensures { IfOk result (λ object. object ≡ owned number id.now context public.0 body) }
{
    let rows = officer_rows(alloc)?;
    Ok(Object {
        number: ObjNum(number),
        id: *id,
        context: ObjNum(context),
        owner: ObjNum(2),
        public,
        rows,
        on_disk: true,
        body,
    })
}

fn machine_context(alloc: Global) -> Result<Object, NoMemory>
    ensures { IfOk result (λ object. object ≡ machine_context_object) }
{
    let id = named(Kind::Context, b"QMACHINE");
    owned(alloc, 1, &id, 1, Rights(12), Body::Context)
}

fn officer(alloc: Global) -> Result<Object, NoMemory>
    ensures { IfOk result (λ object. object ≡ officer_object) }
{
    let id = named(Kind::Profile, b"QSECOFR");
    let body = Body::Profile {
        special: Special(192),
        limit: 4_294_967_295,
    };
    owned(alloc, 2, &id, 1, Rights(0), body)
}

fn general_context(alloc: Global) -> Result<Object, NoMemory>
    ensures { IfOk result (λ object. object ≡ general_context) }
{
    let id = named(Kind::Context, b"QGPL");
    owned(alloc, 3, &id, 1, Rights(12), Body::Context)
}

fn plain_user(alloc: Global) -> Result<Object, NoMemory>
    ensures { IfOk result (λ object. object ≡ plain_user) }
{
    let id = named(Kind::Profile, b"QUSER");
    let body = Body::Profile {
        special: Special(0),
        limit: 100,
    };
    owned(alloc, 4, &id, 1, Rights(0), body)
}

fn locked_queue(alloc: Global) -> Result<Object, NoMemory>
    ensures { IfOk result (λ object. object ≡ locked_queue) }
{
    let id = named(Kind::Queue, b"QLOCKED");
    let body = Body::Queue(Queue::new(alloc, Order::Fifo, 0, 8));
    owned(alloc, 5, &id, 3, Rights(8), body)
}

fn add(objects: &mut Objects, object: Object) -> Result<(), NoMemory>
    requires unused { objects.old.next ≤ object.number.0 }
    requires small { object.number.0 < 2 ^ 63 }
    requires placed { is_place_of objects.old object ≡ true }
    requires unnamed { found objects.old object.context.0 object.id ≡ None }
    ensures { OnOk result (objects.new ≡ with_added objects.old object) }
{
    match objects.add(object) {
        Ok(_) => Ok(()),
        Err(_) => Err(NoMemory),
    }
}

/// The objects of the general opening: the machine context and the security officer, a context for everybody, a user
/// without special authorities, and a queue that everybody may find and nobody else may use.
#[tactic(auto, using(crate::proofs::OpeningLaws::opening_kept), unfolding(s38_rules::specs::state::Opening::opening, s38_base::specs::Ids::same_id))]
pub fn general_opening(alloc: Global) -> Result<Objects, NoMemory>
    ensures objects { IfOk result (λ objects. objects ≡ held_first) }
    ensures kept { IfOk result (λ objects. CanBeKept objects) }
{
    let mut objects = Objects::new(alloc);
    add(&mut objects, machine_context(alloc)?)?;
    add(&mut objects, officer(alloc)?)?;
    add(&mut objects, general_context(alloc)?)?;
    add(&mut objects, plain_user(alloc)?)?;
    add(&mut objects, locked_queue(alloc)?)?;
    objects.raise(6, 5);
    Ok(objects)
}

/// The objects of a store that was installed: the machine context and the security officer.
#[tactic(auto, using(crate::proofs::OpeningLaws::installed_kept), unfolding(s38_rules::specs::state::Opening::installed, s38_base::specs::Ids::same_id))]
pub fn installed(alloc: Global) -> Result<Objects, NoMemory>
    ensures objects { IfOk result (λ objects. objects ≡ held_installed) }
    ensures kept { IfOk result (λ objects. CanBeKept objects) }
{
    let mut objects = Objects::new(alloc);
    add(&mut objects, machine_context(alloc)?)?;
    add(&mut objects, officer(alloc)?)?;
    objects.raise(3, 2);
    Ok(objects)
}

/// No process has started.
fn process_entries(alloc: Global, jobs: &[Job]) -> Result<Vec<ProcessEntry>, NoMemory>
    ensures { IfOk result (λ made. made.items ≡ process_entries jobs.now) }
{
    let mut made = Vec::new(alloc);
    for job in jobs {
        let entry = ProcessEntry {
            job: job.try_clone(alloc)?,
            started: None,
            ended: false,
        };
        made.push(entry)?;
    }
    Ok(made)
}

/// The state in which the jobs find the machine: its objects, and the deck's templates.
pub fn opened(
    alloc: Global,
    objects: Objects,
    templates: Checked,
    jobs: &[Job],
) -> Result<Core<Objects, Profiles>, NoMemory>
    requires kept { CanBeKept objects }
    ensures { IfOk result (λ core. core ≡ state_of objects templates jobs.now) }
{
    let processes = process_entries(alloc, jobs)?;
    Core::new(alloc, objects, BODY_LIMIT, templates, processes)
}
