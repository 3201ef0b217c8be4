//! Laws about every state of a run.
ghost use Rattle.std.specs.Prelude.{◌≡◌, ◌<◌, ℕ, List, [], length, Option};
ghost use Rattle.s38_code.specs.declared.deck.Job.{Job};
ghost use Rattle.s38_code.specs.declared.entry.Entry.{Entry};
ghost use Rattle.s38_code.specs.declared.event.Event.{Event};
ghost use Rattle.s38_code.specs.declared.made.CheckedTemplate.{CheckedTemplate};
ghost use Rattle.s38_commits.specs.Units.{BlocksRise};
ghost use Rattle.s38_laws_confinement.specs.Confined.{AreRun};
ghost use Rattle.s38_laws_objects.specs.Well.{AreWell};
ghost use Rattle.s38_process.specs.Process.{ProcessState};
ghost use Rattle.s38_laws_images.specs.openings.Opening.{IsOpening};
ghost use Rattle.s38_laws_processes.specs.owners.Beginnings.{state_over};
ghost use Rattle.s38_rules.specs.store.Room.{Room};
ghost use Rattle.s38_rules.specs.state.Held.{Held};
ghost use Rattle.s38_rules.specs.step.Legal.{Leads};
ghost use Rattle.s38_rules.specs.state.State.{State};
ghost use Rattle.s38_rules.specs.step.Step.{step};
ghost use Rattle.s38_laws_state.specs.Later.{IsConfinedFromAny};
ghost use Rattle.s38_laws_state.specs.Order.{AreInOrder};
ghost use Rattle.s38_laws_state.specs.Live.{AreRunByJobs, AreWholeRuns, ComesFrom, HasNothingLeft, IsLive};
ghost use Rattle.s38_rules.specs.step.Histories.{Throughout};

/// A process that has ended leaves nothing: in every state of a run whoever holds a lock or a unit of changes has
/// started and has not ended, and whoever waits has not ended. It is so at the beginning, and each step keeps it
/// whose event comes from a process that may ask it, as in a run by jobs.
pub fn ended_processes_leave_nothing()
    ensures begins { (room : Option Room) (held : Held) (templates : List CheckedTemplate) (jobs : List Job) → IsLive (state_over room held templates jobs) }
    ensures steps { (s : State) (p : ℕ) (e : Event) → IsLive s → BlocksRise s.units → 0 < p → ComesFrom s.processes p e → IsLive (step s p e).state }
    ensures histories { (room : Option Room) (held : Held) (templates : List CheckedTemplate) (jobs : List Job) (history : List Entry) (end : State) → AreRunByJobs jobs history
        → Leads (state_over room held templates jobs) [] history end → Throughout IsLive (state_over room held templates jobs) history × IsLive end }
{}

/// The whole runs of all jobs leave nothing: every process has ended, nothing is locked, no unit of changes is open, and
/// nobody waits.
pub fn whole_runs_leave_nothing()
    ensures { (room : Option Room) (held : Held) (templates : List CheckedTemplate) (jobs : List Job) (history : List Entry) (end : State) → IsOpening held
        → AreWholeRuns jobs history → Leads (state_over room held templates jobs) [] history end → HasNothingLeft end }
{}

/// In every state of a run from an opening the objects are in order: numbers rise and were given, none above the ceiling;
/// no two objects of a context that is there have one identification; each object has an owner who is a user that is
/// there, and lies in a context or in none; bodies keep to their limits. The user of each process that has started and
/// has not ended is there; an object has at most 4,096 locks, and no two of different processes are incompatible. Each step
/// keeps it.
pub fn objects_stay_in_order()
    ensures begins { (room : Option Room) (held : Held) (templates : List CheckedTemplate) (jobs : List Job) → IsOpening held → AreInOrder (state_over room held templates jobs) }
    ensures steps { (s : State) (p : ℕ) (e : Event) → AreWell s → AreInOrder s → AreInOrder (step s p e).state }
    ensures histories { (room : Option Room) (held : Held) (templates : List CheckedTemplate) (jobs : List Job) (history : List Entry) (end : State) → IsOpening held
        → Leads (state_over room held templates jobs) [] history end → Throughout AreInOrder (state_over room held templates jobs) history × AreInOrder end }
{}

/// Confinement from any moment of a run on: wherever its history is parted, if users have no way to a right on an object
/// there, and they alone act from there on, none of the later entries uses the right, and they have no way at the end.
pub fn no_way_opens_from_any_moment()
    ensures { (processes : List ProcessState) (first : State) (history : List Entry) (end : State) → AreWell first → length processes ≡ length first.processes
        → Leads first [] history end → AreRun processes history → IsConfinedFromAny processes first history end }
{}
