ghost use Rattle.std.specs.Prelude.{◌≡◌};
ghost use Rattle.std.specs.Option.{option_map};
ghost use Rattle.s38_words.specs.ProgramLine.{act_from, act_line_of, adoption, head_after_word, head_of, label_spelled, rounds_right};
ghost use Rattle.s38_words.specs.Views.{act_in};

use crate::names::declared_name;
use crate::operations::operation;
use crate::texts::{after_byte, before, is_word, parted, rest_after};
use s38_base::{Name, Op};
use s38_code::may_round;

/// What the head of a template says.
#[derive(Clone, Copy, Debug)]
pub struct Head {
    pub name: Name,
    /// The rights of the program's owner are added to those of the process.
    pub adopts: bool,
    /// That reaches the programs that it calls.
    pub propagates: bool,
}

/// An instruction's line: its operation, whether `(R)` follows the mnemonic, and the words of its operands.
#[derive(Clone, Copy, Debug)]
pub struct InstructionLine<'a> {
    pub op: Op,
    pub round: bool,
    pub operands: Option<&'a [u8]>,
}

/// ADOPT, PROPAGATE, both in this order, or nothing.
fn adoption(text: Option<&[u8]>) -> Option<(bool, bool)>
    ensures { result ≡ adoption (option_map (λ t. t.now) text.entry) }
{
    let Some(text) = text else {
        return Some((false, false));
    };
    if is_word(b"ADOPT", text) {
        Some((true, false))
    } else if is_word(b"PROPAGATE", text) {
        Some((false, true))
    } else if is_word(b"ADOPT PROPAGATE", text) {
        Some((true, true))
    } else {
        None
    }
}

fn head_after_word(text: &[u8]) -> Option<Head>
    ensures { result ≡ head_after_word text.now }
{
    let name = declared_name(before(b' ', text))?;
    let (adopts, propagates) = adoption(after_byte(b' ', text))?;
    Some(Head {
        name,
        adopts,
        propagates,
    })
}

/// What a line `PROGRAM name` and its further words say; None for every other line.
#[tactic(auto, unfolding(crate::specs::ProgramLine::head_of))]
pub fn program_head(line: &[u8]) -> Option<Head>
    ensures { result ≡ head_of line.now }
{
    match rest_after(b"PROGRAM ", line) {
        Some(text) => head_after_word(text),
        None => None,
    }
}

/// The name in a line `LABEL name`; None for every other line.
#[tactic(auto, unfolding(crate::specs::ProgramLine::label_spelled))]
#[inline(always)]
pub fn label(line: &[u8]) -> Option<Name>
    ensures { result ≡ label_spelled line.now }
{
    match rest_after(b"LABEL ", line) {
        Some(text) => declared_name(text),
        None => None,
    }
}

/// The words after a mnemonic, and the suffix before them.
#[inline(always)]
fn act_from(op: Op, text: Option<&[u8]>) -> InstructionLine<'_>
    ensures { act_in result ≡ act_from op (option_map (λ t. t.now) text.entry) }
{
    let Some(text) = text else {
        return InstructionLine {
            op,
            round: false,
            operands: None,
        };
    };
    if is_word(b"(R)", text) {
        return InstructionLine {
            op,
            round: true,
            operands: None,
        };
    }
    match rest_after(b"(R) ", text) {
        Some(operands) => InstructionLine {
            op,
            round: true,
            operands: Some(operands),
        },
        None => InstructionLine {
            op,
            round: false,
            operands: Some(text),
        },
    }
}

/// The instruction of a line that begins with a mnemonic; None for every other line.
#[tactic(auto, unfolding(crate::specs::ProgramLine::act_line_of))]
#[inline(always)]
pub fn instruction(line: &[u8]) -> Option<InstructionLine<'_>>
    ensures { option_map act_in result ≡ act_line_of line.now }
{
    let (word, rest) = parted(b' ', line);
    match operation(word) {
        Some(op) => Some(act_from(op, rest)),
        None => None,
    }
}

/// `(R)` is allowed only where a result may be rounded.
pub fn rounds_right(round: bool, op: Op) -> bool
    ensures { result ≡ rounds_right round op }
{
    !round || may_round(op)
}
