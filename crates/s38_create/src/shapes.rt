ghost use Rattle.std.specs.Prelude.{◌≡◌};
ghost use Rattle.std.specs.List.{list_all};
ghost use Rattle.s38_odt.specs.Suits.{are_field_attrs, attrs_suit, have_room, is_id, is_jump, is_list_word, is_machine_word, is_name_argument, is_natural_to, is_nothing, is_one_scalar, is_power, is_scalar, is_size, is_word_argument, is_word_to};

use s38_base::Attr;
use s38_code::Arg;

/// The greatest whole literal where a row gives no range.
const GREATEST_SIZE: u32 = 4_294_967_295;

/// The most fields of an entry.
const MOST_FIELDS: usize = 256;

/// The most bytes of an entry.
const MOST_BYTES: u16 = 4096;

pub fn is_nothing(arg: &Arg) -> bool
    ensures { result ≡ is_nothing arg.now }
{
    matches!(arg, Arg::Nothing)
}

pub fn is_machine(arg: &Arg) -> bool
    ensures { result ≡ is_machine_word arg.now }
{
    matches!(arg, Arg::MachineContext)
}

pub fn is_list(arg: &Arg) -> bool
    ensures { result ≡ is_list_word arg.now }
{
    matches!(arg, Arg::ContextList)
}

pub fn is_id(arg: &Arg) -> bool
    ensures { result ≡ is_id arg.now }
{
    matches!(arg, Arg::Ident(_))
}

pub fn is_name(arg: &Arg) -> bool
    ensures { result ≡ is_name_argument arg.now }
{
    matches!(arg, Arg::Text(_))
}

pub fn is_jump(arg: &Arg) -> bool
    ensures { result ≡ is_jump arg.now }
{
    matches!(arg, Arg::Jump(_))
}

pub fn is_word(arg: &Arg) -> bool
    ensures { result ≡ is_word_argument arg.now }
{
    matches!(arg, Arg::Word(_))
}

/// A word whose number is at most this.
pub fn is_word_to(most: u32, arg: &Arg) -> bool
    ensures { result ≡ is_word_to most arg.now }
{
    match arg {
        Arg::Word(word) => *word <= most,
        _ => false,
    }
}

/// From 0 to this number.
pub fn is_natural_to(most: u32, number: i64) -> bool
    ensures { result ≡ is_natural_to most number }
{
    0 <= number && number <= i64::from(most)
}

pub fn is_size(arg: &Arg) -> bool
    ensures { result ≡ is_size arg.now }
{
    match arg {
        Arg::Whole(number) => is_natural_to(GREATEST_SIZE, *number),
        _ => false,
    }
}

pub fn is_power(arg: &Arg) -> bool
    ensures { result ≡ is_power arg.now }
{
    match arg {
        Arg::Whole(number) => number.unsigned_abs() <= 31,
        _ => false,
    }
}

/// A scalar within its bounds.
fn is_scalar(attr: Attr) -> bool
    ensures { result ≡ is_scalar attr }
{
    attr.is_bounded() && !attr.is_pointer()
}

/// The bytes of these attributes have this room.
fn have_room(room: u16, attrs: &[Attr]) -> bool
    ensures { result ≡ have_room room attrs.now }
{
    match attrs {
        [] => true,
        [attr, more @ ..] => {
            let length = attr.length();
            length <= room && have_room(room - length, more)
        }
    }
}

fn are_scalars(attrs: &[Attr]) -> bool
    ensures { result ≡ list_all is_scalar attrs.now }
{
    attrs.iter().all(|attr| is_scalar(*attr))
}

fn are_fields(attrs: &[Attr]) -> bool
    ensures { result ≡ are_field_attrs attrs.now }
{
    1 <= attrs.len()
        && attrs.len() <= MOST_FIELDS
        && are_scalars(attrs)
        && have_room(MOST_BYTES, attrs)
}

/// One scalar.
pub fn is_attribute(arg: &Arg) -> bool
    ensures { result ≡ attrs_suit is_one_scalar arg.now }
{
    match arg {
        Arg::Attrs(attrs) => match attrs.as_slice() {
            [attr] => is_scalar(*attr),
            _ => false,
        },
        _ => false,
    }
}

/// 1 to 256 scalars of 4,096 bytes at most.
pub fn is_fields(arg: &Arg) -> bool
    ensures { result ≡ attrs_suit are_field_attrs arg.now }
{
    match arg {
        Arg::Attrs(attrs) => are_fields(attrs.as_slice()),
        _ => false,
    }
}
