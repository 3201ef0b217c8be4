//! Objects are read again.
ghost use Rattle.s38_laws_images.specs.readable.Readable.{IsFit, IsFront, IsReadable};

use crate::readable::bodies::body_is_readable;
use crate::readable::fronts::front_is_readable;
use s38_image_writer::image_len;
use s38_rules::Object;

/// What a store keeps of a current object can be read again, and so can what it keeps beside a body.
pub fn object_is_readable(object: &Object)
    requires { IsFit object.now }
    ensures whole { IsReadable object.now }
    ensures front { IsFront object.now }
{
    front_is_readable(object);
    body_is_readable(&object.body);
    let _len = image_len(&object.body);
}
