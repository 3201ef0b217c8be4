//! What every history promises to those who keep others out, and what most instructions leave as it is.
ghost use Rattle.s38_base.specs.declared.pointer.Pointer.{Pointer};
ghost use Rattle.s38_code.specs.declared.entry.Entry.{Entry};
ghost use Rattle.s38_code.specs.declared.event.EndCause.{EndCause};
ghost use Rattle.s38_code.specs.declared.event.Event.TheVariants.{Finish, Start};
ghost use Rattle.s38_code.specs.declared.event.Request.{Request};
ghost use Rattle.s38_laws_confinement.specs.Confined.{AllWithin, AreRun, BeginsClosed, IsClosedAfter, NeverUsed, StaysClosed};
ghost use Rattle.s38_laws_confinement.specs.OfPointers.{IsClosed, OfObjects, OfOperand};
ghost use Rattle.s38_laws_confinement.specs.Plain.{IsPlain, Passes, asks_plainly};
ghost use Rattle.s38_process.specs.Process.{ProcessState};
ghost use Rattle.s38_rules.specs.step.Effect.{effect, effect_of};
ghost use Rattle.s38_rules.specs.step.Legal.{Leads};
ghost use Rattle.s38_rules.specs.families.Rows.{row};
ghost use Rattle.s38_rules.specs.state.State.{State};
ghost use Rattle.std.specs.Prelude.{◌≡◌, ◌++◌, ℕ, All, Bool, List, [], true};

/// A history of the one-thread machine, made by processes from where no way to a right on an object was open for some
/// users, and in which these users alone act: none of its entries uses the right, and no way is open at its end.
pub fn no_way_opens()
    ensures confined { (processes : List ProcessState) (first : State) (history : List Entry) (end : State) (users : List ℕ) (o : ℕ) (r : ℕ)
        → BeginsClosed processes first users o r → Leads first [] history end → AllWithin users first history → AreRun processes history
        → NeverUsed first history o r × StaysClosed processes history end users o r }
{}

/// The same from any moment on: where no way is open after some entries, and these users alone act from there on, none
/// of the later entries uses the right, and no way is open at the end.
pub fn no_way_opens_later()
    ensures { (processes : List ProcessState) (before : List Entry) (s : State) (after : List Entry) (end : State) (users : List ℕ) (o : ℕ) (r : ℕ)
        → IsClosedAfter processes before s users o r → Leads s before after end → AllWithin users s after → AreRun processes (before ++ after)
        → NeverUsed s after o r × StaysClosed processes (before ++ after) end users o r }
{}

/// The effect of an instruction whose change is plain and which makes no pointer, and that of a start or an end: no
/// object is new, each that is there has the owner and the rights that it had, each that is gone was no user, and no
/// pointer is new, whatever the state is.
pub fn effects_are_plain()
    ensures plain { (test : Pointer → Bool) (s : State) (p : ℕ) (d : ℕ) (t : Request) → asks_plainly s p d t ≡ true → IsClosed (Passes test)
        → OfObjects (Passes test) s.held.objects → All (OfOperand (Passes test)) t.operands → IsPlain test s.held (effect (row t.op) s p d t) }
    ensures starts { (test : Pointer → Bool) (s : State) (p : ℕ) → OfObjects (Passes test) s.held.objects → IsPlain test s.held (effect_of s p Start) }
    ensures ends { (test : Pointer → Bool) (s : State) (p : ℕ) (cause : EndCause) → OfObjects (Passes test) s.held.objects
        → IsPlain test s.held (effect_of s p (Finish cause)) }
{}
