ghost use Rattle.std.specs.Prelude.{◌≡◌, drop, slice_get};
ghost use Rattle.std.specs.List.{list_all};
ghost use Rattle.s38_odt.specs.Suits.{item_suits};
ghost use Rattle.s38_odt.specs.OperandRules.{argument_attr_at, argument_length_at, argument_whole_at, argument_word_at, at_suits, attr_length, has_length, is_from_one_to, is_key_length, is_short_binary, is_two_local_bytes, keeps_rule, names_kind, operands_fit};
ghost use Rattle.s38_odt.specs.Table.{is_parameter};

use crate::attributes::operand_attr;
use crate::items::{item_is_parameter, item_is_two_local_bytes};
use crate::shapes::is_natural_to;
use crate::suits::all_suit;
use s38_base::{Attr, Kind, Op};
use s38_code::{Arg, OperandRule, Row, classes, made_kind, operand_rule};

/// The number of KEYED among the orders of a queue.
const KEYED: u32 = 2;

/// The longest key and the longest entry of an index.
const LONGEST_KEY: u32 = 120;

/// The longest message.
const LONGEST_MESSAGE: u32 = 4096;

/// The attribute of the operand at a place from 0 on.
pub fn attr_at(rows: &[Row], args: &[Arg], k: usize) -> Option<Attr>
    ensures { result ≡ argument_attr_at rows.now args.now k }
{
    match args.get(k) {
        Some(arg) => operand_attr(rows, arg),
        None => None,
    }
}

fn attr_length(attr: Option<Attr>) -> u16
    ensures { result ≡ attr_length attr }
{
    match attr {
        Some(attr) => attr.length(),
        None => 0,
    }
}

fn length_at(rows: &[Row], args: &[Arg], k: usize) -> u16
    ensures { result ≡ argument_length_at rows.now args.now k }
{
    attr_length(attr_at(rows, args, k))
}

/// The number of the word at a place, and 0 for no word.
pub fn word_at(args: &[Arg], k: usize) -> u32
    ensures { result ≡ argument_word_at args.now k }
{
    match args.get(k) {
        Some(Arg::Word(word)) => *word,
        _ => 0,
    }
}

/// The whole number at a place, and 0 for no whole number.
pub fn whole_at(args: &[Arg], k: usize) -> i64
    ensures { result ≡ argument_whole_at args.now k }
{
    match args.get(k) {
        Some(Arg::Whole(number)) => *number,
        _ => 0,
    }
}

fn have_length(rows: &[Row], length: u16, args: &[Arg]) -> bool
    ensures { result ≡ list_all (has_length rows.now length) args.now }
{
    args.iter()
        .all(|arg| attr_length(operand_attr(rows, arg)) == length)
}

fn is_local_at_front(rows: &[Row], args: &[Arg]) -> bool
    ensures { result ≡ at_suits is_two_local_bytes rows.now (slice_get args.now 0) }
{
    match args.get(0) {
        Some(arg) => item_is_two_local_bytes(rows, arg),
        None => false,
    }
}

fn is_short_binary(attr: Option<Attr>) -> bool
    ensures { result ≡ is_short_binary attr }
{
    match attr {
        Some(Attr::Binary { size }) => size == 2,
        _ => false,
    }
}

fn are_parameters(rows: &[Row], args: &[Arg]) -> bool
    ensures { result ≡ list_all (item_suits is_parameter rows.now) args.now }
{
    args.iter().all(|arg| item_is_parameter(rows, arg))
}

/// The operands after the first are parameters.
fn passes_parameters(rows: &[Row], args: &[Arg]) -> bool
    ensures { result ≡ list_all (item_suits is_parameter rows.now) (drop 1 args.now) }
{
    args.is_empty() || are_parameters(rows, &args[1..])
}

fn is_from_one_to(most: u32, number: i64) -> bool
    ensures { result ≡ is_from_one_to most number }
{
    is_natural_to(most, number) && 1 <= number.unsigned_abs()
}

/// The length of a queue's key: queues that are not keyed have none.
fn is_key_length(order: u32, number: i64) -> bool
    ensures { result ≡ is_key_length order number }
{
    if order == KEYED {
        is_from_one_to(LONGEST_KEY, number)
    } else {
        is_natural_to(0, number)
    }
}

/// The operands are tied so.
#[inline(never)]
#[tactic(auto, unfolding(s38_odt::specs::OperandRules::keeps_rule))]
fn are_tied(rows: &[Row], rule: OperandRule, args: &[Arg]) -> bool
    ensures { result ≡ keeps_rule rows.now rule args.now }
{
    match rule {
        OperandRule::Free => true,
        OperandRule::EqualLengths => have_length(rows, length_at(rows, args, 0), args),
        OperandRule::EqualTables => length_at(rows, args, 2) == length_at(rows, args, 3),
        OperandRule::OneByte => length_at(rows, args, 2) == 1,
        OperandRule::TwiceTheSource => {
            u32::from(length_at(rows, args, 0)) == 2 * u32::from(length_at(rows, args, 1))
        }
        OperandRule::TwiceTheReceiver => {
            u32::from(length_at(rows, args, 1)) == 2 * u32::from(length_at(rows, args, 0))
        }
        OperandRule::TwoLocalBytes => is_local_at_front(rows, args),
        OperandRule::ShortBinary => is_short_binary(attr_at(rows, args, 0)),
        OperandRule::Parameters => passes_parameters(rows, args),
        OperandRule::QueueLengths => {
            is_key_length(word_at(args, 4), whole_at(args, 5))
                && is_from_one_to(LONGEST_MESSAGE, whole_at(args, 6))
        }
        OperandRule::EntryLength => is_from_one_to(LONGEST_KEY, whole_at(args, 4)),
    }
}

/// The same, with no look at operands that are not tied.
#[tactic(auto, unfolding(s38_odt::specs::OperandRules::keeps_rule))]
fn keeps_rule(rows: &[Row], rule: OperandRule, args: &[Arg]) -> bool
    ensures { result ≡ keeps_rule rows.now rule args.now }
{
    match rule {
        OperandRule::Free => true,
        tied => are_tied(rows, tied, args),
    }
}

/// In a row that makes an object, an identification is of that kind.
fn is_of_kind(kind: Option<Kind>, arg: &Arg) -> bool
    ensures { result ≡ names_kind kind arg.now }
{
    match kind {
        Some(kind) => match arg {
            Arg::Ident(id) => kind.code() == id.kind.code(),
            _ => true,
        },
        None => true,
    }
}

fn are_of_kind(kind: Option<Kind>, args: &[Arg]) -> bool
    ensures { result ≡ list_all (names_kind kind) args.now }
{
    args.iter().all(|arg| is_of_kind(kind, arg))
}

/// The operands are the row's: each suits its class, an identification is of the kind that is made, and they
/// are tied as the row says.
#[tactic(auto, unfolding(s38_odt::specs::OperandRules::operands_fit))]
pub fn fits(rows: &[Row], op: Op, args: &[Arg]) -> bool
    ensures { result ≡ operands_fit rows.now op args.now }
{
    all_suit(rows, classes(op), args)
        && are_of_kind(made_kind(op), args)
        && keeps_rule(rows, operand_rule(op), args)
}
