//! Laws about programs and profiles in every state of a run.
ghost use Rattle.std.specs.Prelude.{◌≡◌, ◌≤◌, ℕ, All, List, None, Option, []};
ghost use Rattle.s38_base.specs.Limits.{furthest};
ghost use Rattle.s38_base.specs.declared.page.Change.{Change};
ghost use Rattle.s38_code.specs.declared.deck.Job.{Job};
ghost use Rattle.s38_code.specs.declared.entry.Entry.{Entry};
ghost use Rattle.s38_code.specs.declared.event.Event.{Event};
ghost use Rattle.s38_code.specs.declared.made.CheckedTemplate.{CheckedTemplate};
ghost use Rattle.s38_laws_images.specs.form.Forms.{AllHaveForms, HasForms};
ghost use Rattle.s38_restart.specs.catalog.Stores.{first_fault};
ghost use Rattle.s38_laws_processes.specs.owners.Beginnings.{state_over};
ghost use Rattle.s38_laws_images.specs.readable.Forms.{HoldsForm};
ghost use Rattle.s38_laws_images.specs.readable.Templates.{AreMade};
ghost use Rattle.s38_restart.specs.Parts.{AreParts};
ghost use Rattle.s38_restart.specs.Restarted.{restarted};
ghost use Rattle.s38_rules.specs.state.Held.{Held};
ghost use Rattle.s38_rules.specs.step.Legal.{Leads};
ghost use Rattle.s38_rules.specs.state.Opening.{held_first, held_installed};
ghost use Rattle.s38_rules.specs.store.Room.{Room};
ghost use Rattle.s38_rules.specs.state.State.{State};
ghost use Rattle.s38_rules.specs.step.Step.{step};

/// Programs and profiles have their form at first: in a machine that was not stored before, in a store that has just been
/// installed, and in what a restart gives of a store without a fault.
pub fn bodies_begin_in_form()
    ensures first { All HoldsForm held_first.objects }
    ensures installed { All HoldsForm held_installed.objects }
    ensures restarted { (limit : ℕ) (parts : List Change) → limit ≤ furthest → AreParts parts → first_fault limit parts ≡ None → All HoldsForm (restarted limit parts).objects }
{}

/// In every state of a run each program is the one that is created of its template, and no profile has other special
/// authorities than there are, if it was so at first and the deck's templates make such programs. Each step keeps it.
pub fn bodies_keep_their_form()
    ensures steps { (s : State) (p : ℕ) (e : Event) → HasForms s → HasForms (step s p e).state }
    ensures histories { (room : Option Room) (held : Held) (templates : List CheckedTemplate) (jobs : List Job) (history : List Entry) (end : State) → All HoldsForm held.objects → AreMade templates
        → Leads (state_over room held templates jobs) [] history end → AllHaveForms (state_over room held templates jobs) history × HasForms end }
{}
