//! What every world promises: places stay right, and counts rise by what changes authority.
ghost use Rattle.s38_base.specs.declared.id.ObjNum.{ObjNum};
ghost use Rattle.s38_base.specs.declared.op.Op.{Op};
ghost use Rattle.s38_code.specs.declared.event.Event.{Event};
ghost use Rattle.s38_code.specs.declared.event.Request.{Request};
ghost use Rattle.s38_rules.specs.step.Effect.{effect_of};
ghost use Rattle.s38_rules.specs.families.Rows.{row};
ghost use Rattle.s38_rules.specs.state.State.{State};
ghost use Rattle.s38_rules.specs.step.Step.{awake, awake_verdict};
ghost use Rattle.s38_rules.specs.store.Storing.{stored};
ghost use Rattle.s38_rules.specs.declared.verdict.Verdict.{Verdict};
ghost use Rattle.s38_rights_cache.specs.Following.{changes_authority, changes_frames, is_of_authority, is_of_frames, world_after_event};
ghost use Rattle.s38_rights_cache.specs.Places.{AreOwned, IsSteady, NobodyLives, all_found, found_now, is_live};
ghost use Rattle.s38_rights_cache.specs.Worlds.{WorldState, begun_world, place_of};
ghost use Rattle.std.specs.Prelude.{◌≡◌, ◌≢◌, ◌-◌, ◌++◌, ◌∷◌, ℕ, [], List, Some, true};

/// Places are right where a world begins whose objects and owners have numbers that were given. They stay right after each
/// event that the rules permit, with the counts, frame numbers and places that follow it.
pub fn places_stay_right()
    ensures begins { (s : State) → AreOwned s.held → NobodyLives s → IsSteady (begun_world s) }
    ensures events { (w : WorldState) (p : ℕ) (e : Event) → awake_verdict w.state p e ≡ Verdict.Permit → IsSteady w
        → IsSteady (world_after_event w p e (awake (stored w.state p e (effect_of w.state p e).state))) }
{}

/// The count of authority changes follows exactly five instructions, and frames are stored by two.
pub fn counts_follow()
    ensures authority { (op : Op) (s : State) (p : ℕ) (d : ℕ) (r : Request) → changes_authority ((row op).changes s p d r) ≡ is_of_authority op }
    ensures frames { (op : Op) (s : State) (p : ℕ) (d : ℕ) (r : Request) → changes_frames ((row op).changes s p d r) ≡ is_of_frames op }
{}

/// After checks of objects, one after another, the place of their process has what the last found, if there was one; the
/// places of other processes stay.
pub fn checks_leave_the_last()
    ensures last { (w : WorldState) (p : ℕ) (d : ℕ) (objects : List ObjNum) (o : ObjNum) → IsSteady w → is_live w.state p ≡ true
        → place_of (all_found w p d (objects ++ o ∷ [])) p ≡ Some (found_now w p d o) }
    ensures others { (w : WorldState) (p : ℕ) (d : ℕ) (q : ℕ) (objects : List ObjNum) → q - 1 ≢ p - 1 → place_of (all_found w p d objects) q ≡ place_of w q }
{}
