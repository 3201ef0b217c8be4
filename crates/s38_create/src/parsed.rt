ghost use Rattle.std.specs.Prelude.{◌≡◌};
ghost use Rattle.s38_create.specs.Parsed.{arg_of, is_declared, is_placed};

use s38_code::Arg;

/// What a word says at an operand's place.
#[derive(Drop, Debug)]
pub enum ParsedOperand {
    /// An item; None where the name is not declared.
    Item(Option<u16>),
    /// A place in the code; None where the label is missing.
    Label(Option<u32>),
    /// An operand that needs no name.
    Given(Arg),
}

/// A name that is said is declared.
pub fn is_declared(operand: &ParsedOperand) -> bool
    ensures { result ≡ is_declared operand.now }
{
    match operand {
        ParsedOperand::Item(item) => item.is_some(),
        _ => true,
    }
}

/// A label that is said is there.
pub fn is_placed(operand: &ParsedOperand) -> bool
    ensures { result ≡ is_placed operand.now }
{
    match operand {
        ParsedOperand::Label(at) => at.is_some(),
        _ => true,
    }
}

/// The operand that is said; the first item or place is taken for a name that has none.
pub fn arg_of(operand: ParsedOperand) -> Arg
    ensures { result ≡ arg_of operand }
{
    match operand {
        ParsedOperand::Item(Some(item)) => Arg::Item(item),
        ParsedOperand::Item(None) => Arg::Item(0),
        ParsedOperand::Label(Some(at)) => Arg::Jump(at),
        ParsedOperand::Label(None) => Arg::Jump(0),
        ParsedOperand::Given(arg) => arg,
    }
}
