//! What is true of images, whatever holds them.
ghost use Rattle.std.specs.Prelude.{◌≡◌, ℕ, List, Ok};
ghost use Rattle.s38_base.specs.declared.page.Change.{Change};
ghost use Rattle.s38_image.specs.Fitting.{AreFine, IsImage};
ghost use Rattle.s38_image.specs.Images.{image_parts, object_of_parts};
ghost use Rattle.s38_image.specs.declared.stored.Stored.{Stored};

/// The parts of an object are read as that object.
pub fn an_image_is_read_again()
    ensures { (limit : ℕ) (s : Stored) → IsImage limit s → object_of_parts limit s.object.number.0 (image_parts s) ≡ Ok s }
{}

/// Parts that are read as an object are the parts of that object, which fits its format.
pub fn parts_are_those_of_their_object()
    ensures { (limit number : ℕ) (parts : List Change) (s : Stored) → AreFine parts → object_of_parts limit number parts ≡ Ok s
        → (parts ≡ image_parts s) × (s.object.number.0 ≡ number) × IsImage limit s }
{}
