ghost use Rattle.std.specs.Prelude.{◌≡◌, IsTrue, Some, length};
ghost use Rattle.s38_base.specs.Scalar.{fits, scalar_image, value_of};
ghost use Rattle.s38_base.specs.Attributes.{length_of};

use s38_base::Attr;

/// What is written of a number that fits is read again, and has the attribute's length.
#[tactic(auto, using(crate::proofs::ImageLaws::images))]
pub fn written_is_read(attr: Attr, units: i128)
    requires { IsTrue (fits attr units) }
    ensures value { value_of attr (scalar_image attr units) ≡ Some units }
    ensures long { length (scalar_image attr units) ≡ length_of attr }
{}
