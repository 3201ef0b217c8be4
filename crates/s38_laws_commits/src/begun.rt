//! With what a machine begins.
ghost use Rattle.std.specs.Prelude.{◌≡◌, ◌≤◌, ℕ, List, []};
ghost use Rattle.s38_base.specs.Limits.{body_limit};
ghost use Rattle.s38_base.specs.declared.page.Change.{Change};
ghost use Rattle.s38_laws_units.specs.Right.{IsRight};
ghost use Rattle.s38_laws_commits.specs.Begun.{IsInOrder};
ghost use Rattle.s38_laws_commits.specs.Found.{AreSound, restart_of};
ghost use Rattle.s38_durable_state.specs.Durable.{Durable};
ghost use Rattle.s38_restart.specs.catalog.Stores.{ceiling_of, objects_stored_in};
ghost use Rattle.s38_laws_objects.specs.Well.{AreWell};
ghost use Rattle.s38_restart.specs.Restarted.{restarted};
ghost use Rattle.s38_rules.specs.state.State.{State};

/// A machine that begins with the restart of what is durable, in order, without a unit, and with the limit of a body or a
/// lower one, begins with a state that is sound with it.
pub fn a_restart_begins_sound()
    ensures { (s : State) (d : Durable) → s.held ≡ restart_of d → s.units ≡ [] → s.limit ≤ body_limit → IsRight s → AreWell s → IsInOrder d → AreSound s d }
{}

/// A store whose parts hold what is durable is restarted to what the restart of what is durable is.
pub fn a_store_restarts_to_what_is_durable()
    ensures { (limit : ℕ) (parts : List Change) (d : Durable) → objects_stored_in limit parts ≡ d.objects → ceiling_of parts ≡ d.ceiling → restarted limit parts ≡ restart_of d }
{}
