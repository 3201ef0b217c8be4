ghost use Rattle.std.specs.Prelude.{◌≡◌, IfSome};
ghost use Rattle.std.specs.Option.{option_copied, option_map};
ghost use Rattle.s38_local.specs.Local.{argument_number, argument_whole, argument_word, operand, receiver_of};
ghost use Rattle.s38_local.specs.Variables.{argument_attr, argument_bytes, argument_pointer, attr_in, attr_of_form, form_in, held_at, item_place, value_at, value_bytes, value_of_item, value_pointer};

use s38_base::{Attr, HeldPointer, Pointer};
use s38_code::{Arg, Form, Row, Val};
use s38_decimal::{Dec, read_scalar};

/// What a name is declared as.
pub fn form_in(row: Option<&Row>) -> Option<&Form>
    ensures { option_copied result ≡ form_in (option_copied row.entry) }
{
    match row {
        None => None,
        Some(row) => Some(&row.form),
    }
}

#[inline(always)]
fn attr_of_form(form: &Form) -> Attr
    ensures { result ≡ attr_of_form form.now }
{
    match form {
        Form::Local { attr, .. } => *attr,
        Form::Parm { attr, .. } => *attr,
        Form::Based { attr, .. } => *attr,
        Form::Handler { .. } => Attr::Pointer,
    }
}

#[inline(always)]
fn attr_in(row: Option<&Row>) -> Attr
    ensures { result ≡ attr_in (option_copied row.entry) }
{
    match row {
        None => Attr::Pointer,
        Some(row) => attr_of_form(&row.form),
    }
}

/// The operand at a place from 1 on.
pub fn operand(args: &[Arg], k: usize) -> Option<&Arg>
    ensures { option_copied result ≡ operand args.now k }
{
    args.get(k.saturating_sub(1))
}

/// The attribute of an item or a literal.
pub fn attr_of(rows: &[Row], arg: Option<&Arg>) -> Attr
    ensures { result ≡ argument_attr rows.now (option_copied arg.entry) }
{
    match arg {
        Some(Arg::Item(item)) => attr_in(rows.get(*item as usize)),
        Some(Arg::Literal { attr, .. }) => *attr,
        _ => Attr::Pointer,
    }
}

/// The bytes of a variable.
pub fn value_bytes(value: Option<&Val>) -> &[u8]
    ensures { result.now ≡ value_bytes (option_copied value.entry) }
{
    match value {
        Some(Val::Bytes(bytes)) => bytes.as_slice(),
        _ => &[],
    }
}

/// The pointer of a variable.
pub fn value_pointer(value: Option<&Val>) -> HeldPointer
    ensures { result ≡ value_pointer (option_copied value.entry) }
{
    match value {
        Some(Val::Ptr(pointer)) => *pointer,
        _ => HeldPointer::of(None),
    }
}

/// The place of an item among all variables; other operands have none.
pub fn place_of(homes: &[usize], arg: Option<&Arg>) -> Option<usize>
    ensures { result ≡ item_place homes.now (option_copied arg.entry) }
{
    match arg {
        Some(Arg::Item(item)) => homes.get(*item as usize).copied(),
        _ => None,
    }
}

/// The variable at a place.
pub fn value_at(values: &[Val], place: Option<usize>) -> Option<&Val>
    ensures { option_copied result ≡ value_at values.now place }
{
    match place {
        Some(at) => values.get(at),
        None => None,
    }
}

/// What an item holds.
pub fn value_of_item<'a>(homes: &[usize], values: &'a [Val], item: usize) -> Option<&'a Val>
    ensures { option_copied result ≡ value_of_item homes.now values.now item }
{
    value_at(values, homes.get(item).copied())
}

/// The bytes of an item or a literal.
pub fn bytes_of<'a>(homes: &[usize], values: &'a [Val], arg: Option<&'a Arg>) -> &'a [u8]
    ensures { result.now ≡ argument_bytes homes.now values.now (option_copied arg.entry) }
{
    match arg {
        Some(Arg::Item(item)) => value_bytes(value_of_item(homes, values, *item as usize)),
        Some(Arg::Literal { bytes, .. }) => bytes.as_slice(),
        _ => &[],
    }
}

/// The pointer of an item.
pub fn pointer_of(homes: &[usize], values: &[Val], arg: Option<&Arg>) -> Option<Pointer>
    ensures { result ≡ argument_pointer homes.now values.now (option_copied arg.entry) }
{
    match arg {
        Some(Arg::Item(item)) => value_pointer(value_of_item(homes, values, *item as usize)).get(),
        _ => None,
    }
}

/// The attribute and the bytes of an item or a literal.
#[inline(always)]
fn scalar_of<'a>(
    rows: &[Row],
    homes: &[usize],
    values: &'a [Val],
    arg: Option<&'a Arg>,
) -> (Attr, &'a [u8])
    ensures attr { result.0 ≡ argument_attr rows.now (option_copied arg.entry) }
    ensures bytes { result.1.now ≡ argument_bytes homes.now values.now (option_copied arg.entry) }
{
    match arg {
        Some(Arg::Item(item)) => (
            attr_in(rows.get(*item as usize)),
            value_bytes(value_of_item(homes, values, *item as usize)),
        ),
        Some(Arg::Literal { attr, bytes }) => (*attr, bytes.as_slice()),
        _ => (Attr::Pointer, &[]),
    }
}

/// The number of an item or a literal; None where its bytes have no value.
#[inline(always)]
pub fn number_of(rows: &[Row], homes: &[usize], values: &[Val], arg: Option<&Arg>) -> Option<Dec>
    ensures units { option_map (λ d. d.units) result ≡ argument_number rows.now homes.now values.now (option_copied arg.entry) }
    ensures attr { IfSome result (λ d. d.attr ≡ argument_attr rows.now (option_copied arg.entry)) }
{
    let (attr, bytes) = scalar_of(rows, homes, values, arg);
    read_scalar(attr, bytes).ok()
}

/// The attribute of an item or a literal, and the place of an item.
#[inline(always)]
pub fn target_of(rows: &[Row], homes: &[usize], arg: Option<&Arg>) -> (Attr, Option<usize>)
    ensures attr { result.0 ≡ argument_attr rows.now (option_copied arg.entry) }
    ensures place { result.1 ≡ item_place homes.now (option_copied arg.entry) }
{
    match arg {
        Some(Arg::Item(item)) => {
            let k = *item as usize;
            (attr_in(rows.get(k)), homes.get(k).copied())
        }
        Some(Arg::Literal { attr, .. }) => (*attr, None),
        _ => (Attr::Pointer, None),
    }
}

/// The place of the receiver, which is operand 1.
pub fn receiver_of(homes: &[usize], args: &[Arg]) -> Option<usize>
    ensures { result ≡ receiver_of homes.now args.now }
{
    place_of(homes, operand(args, 1))
}

/// The bytes that are at a place.
pub fn held_at(values: &[Val], place: Option<usize>) -> &[u8]
    ensures { result.now ≡ held_at values.now place }
{
    value_bytes(value_at(values, place))
}

/// A word of the row: a relation, or a kind of pointer.
pub fn word_of(arg: Option<&Arg>) -> u32
    ensures { result ≡ argument_word (option_copied arg.entry) }
{
    match arg {
        Some(Arg::Word(word)) => *word,
        _ => 0,
    }
}

/// A whole literal.
pub fn whole_of(arg: Option<&Arg>) -> i64
    ensures { result ≡ argument_whole (option_copied arg.entry) }
{
    match arg {
        Some(Arg::Whole(number)) => *number,
        _ => 0,
    }
}
