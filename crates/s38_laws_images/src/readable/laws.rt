//! What is true of decks and states, whatever holds them.
ghost use Rattle.std.specs.Prelude.{ℕ, All, List};
ghost use Rattle.s38_base.specs.Limits.{body_limit};
ghost use Rattle.s38_code.specs.declared.deck.Deck.{Deck};
ghost use Rattle.s38_create.specs.Checked.{made_of};
ghost use Rattle.s38_durable_state.specs.Durable.{whole_object};
ghost use Rattle.s38_image.specs.Fitting.{IsImage};
ghost use Rattle.s38_image_writer.specs.Parts.{CanSettle};
ghost use Rattle.s38_laws_images.specs.openings.Bodies.{HoldsBody};
ghost use Rattle.s38_laws_images.specs.readable.Readable.{IsReadable};
ghost use Rattle.s38_laws_images.specs.readable.Templates.{IsMade};
ghost use Rattle.s38_rules.specs.state.State.{State};
ghost use Rattle.s38_rules.specs.declared.object.Object.{Object};
ghost use Rattle.s38_template.specs.Grammar.{Spells};

/// Programs that are created of the templates of a deck are read again.
pub fn created_programs_are_read_again()
    ensures { (text : List ℕ) (deck : Deck) → Spells text deck → All (λ t. IsMade (made_of t)) deck.templates }
{}

/// What is kept whole of an object in a state is an image, if the object is read again and the bodies keep to their limits.
pub fn what_is_kept_whole_is_an_image()
    ensures { (s : State) (o : Object) → All (HoldsBody body_limit) s.held.objects → CanSettle s.units o.number.0 o.body → IsReadable o → IsImage body_limit (whole_object s o) }
{}
