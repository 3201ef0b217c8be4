//! What a step must persist can be read again.
ghost use Rattle.std.specs.Prelude.{◌≡◌, ℕ, All, List, Some, true};
ghost use Rattle.s38_base.specs.Limits.{body_limit};
ghost use Rattle.s38_image_writer.specs.Parts.{CanSettle};
ghost use Rattle.s38_laws_flush.specs.durable.Kept.{AreReadable};
ghost use Rattle.s38_laws_objects.specs.Outline.{is_forced};
ghost use Rattle.s38_laws_images.specs.openings.Bodies.{HoldsBody};
ghost use Rattle.s38_laws_images.specs.readable.Readable.{IsAgain};
ghost use Rattle.s38_rules.specs.store.Forcing.{Forced};
ghost use Rattle.s38_rules.specs.state.Held.{object};
ghost use Rattle.s38_rules.specs.state.State.{State};
ghost use Rattle.s38_rules.specs.declared.object.Object.{Object};

/// What a step must persist can be read again, if each object of which it speaks can, bodies keep to their limits, and
/// uncommitted changes can be taken back.
pub fn what_is_forced_is_read_again()
    ensures { (all : List Forced) (s : State) → All (HoldsBody body_limit) s.held.objects → All (λ o. CanSettle s.units o.number.0 o.body) s.held.objects
        → ((n : ℕ) (o : Object) → is_forced n all ≡ true → object s.held n ≡ Some o → IsAgain o) → AreReadable all s }
{}
