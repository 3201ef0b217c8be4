ghost use Rattle.std.specs.Prelude.{IsTrue};
ghost use Rattle.s38_base.specs.Scalar.{fits};

use s38_base::Attr;
use thiserror::Error;

/// A number that its attribute holds, in units of the last digit.
#[derive(Clone, Copy, Debug)]
pub struct Dec {
    pub units: i128,
    pub attr: Attr,
    pub ghost fits: { IsTrue (fits attr units) },
}

/// What receives a result, and whether it rounds: halves go away from zero. Otherwise digits are cut.
#[derive(Clone, Copy, PartialEq, Eq, Debug)]
pub struct Target {
    pub attr: Attr,
    pub round: bool,
}

/// Why there is no number.
#[derive(Clone, Copy, PartialEq, Eq, Debug, Error)]
pub enum DecimalFault {
    /// The bytes have no numeric value.
    #[error("no numeric value")]
    DecimalData,
    /// The receiver's attribute doesn't hold the result.
    #[error("the result doesn't fit")]
    Size,
    /// The divisor is zero.
    #[error("the divisor is zero")]
    ZeroDivide,
}
