//! Laws about the objects of every state.
ghost use Rattle.std.specs.Prelude.{◌≡◌, ℕ, List, false};
ghost use Rattle.s38_code.specs.declared.deck.Job.{Job};
ghost use Rattle.s38_code.specs.declared.entry.Entry.{Entry};
ghost use Rattle.s38_code.specs.declared.event.Event.{Event};
ghost use Rattle.s38_code.specs.declared.made.CheckedTemplate.{CheckedTemplate};
ghost use Rattle.s38_laws_objects.specs.Outline.{is_forced, outline_at};
ghost use Rattle.s38_laws_objects.specs.Well.{AreWell};
ghost use Rattle.s38_rules.specs.store.Forcing.{must_persist};
ghost use Rattle.s38_rules.specs.step.Legal.{Leads};
ghost use Rattle.s38_rules.specs.state.Opening.{held_first, held_installed, state_of};
ghost use Rattle.s38_rules.specs.state.State.{State};
ghost use Rattle.s38_rules.specs.step.Step.{step};
ghost use Rattle.s38_rules.specs.step.Histories.{Throughout};

/// The machine begins with objects that are well, as it is opened first and as it is installed.
pub fn objects_begin_well()
    ensures first { (templates : List CheckedTemplate) (jobs : List Job) → AreWell (state_of held_first templates jobs) }
    ensures installed { (templates : List CheckedTemplate) (jobs : List Job) → AreWell (state_of held_installed templates jobs) }
{}

/// Where the objects are well, they are well after each step, and so in every state of a history and at its end: each
/// body is of the kind that its object says, no object has too many private rows, and no program has too long a text.
pub fn objects_stay_well()
    ensures steps { (s : State) (p : ℕ) (e : Event) → AreWell s → AreWell (step s p e).state }
    ensures histories { (s : State) (before : List Entry) (history : List Entry) (end : State) → AreWell s → Leads s before history end
        → Throughout AreWell s history × AreWell end }
{}

/// A step of which a store keeps nothing anew of an object leaves what the store keeps of it beside its body: it is on
/// disk as before, with its identification, context, owner, rights, rows, and what is said of a user.
pub fn what_is_not_forced_stays()
    ensures { (s : State) (p : ℕ) (e : Event) (n : ℕ) → is_forced n (must_persist s p e) ≡ false
        → outline_at (step s p e).state.held n ≡ outline_at s.held n }
{}
