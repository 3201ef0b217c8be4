//! Laws about openings.
ghost use Rattle.std.specs.Prelude.{◌≡◌, ◌≤◌, ◌<◌, ◌^◌, ℕ, List, [], None, Option};
ghost use Rattle.s38_base.specs.Limits.{body_limit};
ghost use Rattle.s38_base.specs.declared.page.Change.{Change};
ghost use Rattle.s38_code.specs.declared.deck.Job.{Job};
ghost use Rattle.s38_code.specs.declared.entry.Entry.{Entry};
ghost use Rattle.s38_code.specs.declared.made.CheckedTemplate.{CheckedTemplate};
ghost use Rattle.s38_laws_units.specs.Right.{IsRight};
ghost use Rattle.s38_restart.specs.catalog.Stores.{first_fault};
ghost use Rattle.s38_laws_objects.specs.Well.{AreWell};
ghost use Rattle.s38_objects.specs.Lawful.{IsObjectMap};
ghost use Rattle.s38_laws_images.specs.openings.Charges.{total_charge};
ghost use Rattle.s38_laws_images.specs.openings.Closing.{CanClose};
ghost use Rattle.s38_laws_images.specs.openings.Opening.{IsOpening};
ghost use Rattle.s38_restart.specs.Parts.{AreParts};
ghost use Rattle.s38_restart.specs.Restarted.{restarted};
ghost use Rattle.s38_laws_processes.specs.owners.Beginnings.{IsSoundStart, state_over};
ghost use Rattle.s38_rules.specs.store.Room.{Room};
ghost use Rattle.s38_rules.specs.state.Held.{Held};
ghost use Rattle.s38_rules.specs.state.Kept.{CanBeKept};
ghost use Rattle.s38_rules.specs.step.Legal.{Leads};
ghost use Rattle.s38_rules.specs.state.Opening.{held_first, held_installed};
ghost use Rattle.s38_rules.specs.state.State.{State};
ghost use Rattle.s38_rules.specs.step.Histories.{Throughout};

/// A machine that was not stored before begins with an opening, and so does one that was just installed.
pub fn the_first_stores_are_openings()
    ensures first { IsOpening held_first }
    ensures installed { IsOpening held_installed }
{}

/// A store without a fault is restarted to an opening: each of its parts is of an object and has a whole page, and they
/// rise in their keys.
pub fn a_store_restarts_to_an_opening()
    ensures { (limit : ℕ) (parts : List Change) → limit ≤ body_limit → AreParts parts → first_fault limit parts ≡ None → IsOpening (restarted limit parts) }
{}

/// What is kept of users can be kept of an opening, where all that they pay for can be counted.
pub fn what_users_pay_can_be_kept()
    ensures { (held : Held) → IsOpening held → total_charge held < 2 ^ 64 → CanBeKept held }
{}

/// The objects of an opening are well, and so they are in each state of a run that begins with it.
pub fn an_opening_is_well()
    ensures begins { (room : Option Room) (held : Held) (templates : List CheckedTemplate) (jobs : List Job) → IsOpening held → AreWell (state_over room held templates jobs) }
    ensures histories { (room : Option Room) (held : Held) (templates : List CheckedTemplate) (jobs : List Job) (history : List Entry) (end : State) → IsOpening held
        → Leads (state_over room held templates jobs) [] history end → Throughout AreWell (state_over room held templates jobs) history × AreWell end }
{}

/// An opening has no unit of changes, and its data spaces are in order; so units are right in each state of a run that
/// begins with it.
pub fn an_opening_is_right()
    ensures begins { (room : Option Room) (held : Held) (templates : List CheckedTemplate) (jobs : List Job) → IsOpening held → IsRight (state_over room held templates jobs) }
    ensures histories { (room : Option Room) (held : Held) (templates : List CheckedTemplate) (jobs : List Job) (history : List Entry) (end : State) → IsOpening held
        → Leads (state_over room held templates jobs) [] history end → Throughout IsRight (state_over room held templates jobs) history × IsRight end }
{}

/// A store can keep all that a run leaves, if the run began with an opening: each object, with every change that is not
/// committed taken back, and the ceiling of numbers.
pub fn an_end_can_be_closed()
    ensures { (room : Option Room) (held : Held) (templates : List CheckedTemplate) (jobs : List Job) (history : List Entry) (end : State) → IsOpening held
        → Leads (state_over room held templates jobs) [] history end → IsObjectMap end.held → CanClose end }
{}

/// The objects of an opening have numbers that were given, and its programs are those that creation makes.
pub fn an_opening_is_in_order()
    ensures { (held : Held) → IsOpening held → IsSoundStart held }
{}
