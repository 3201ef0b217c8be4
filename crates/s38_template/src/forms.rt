ghost use Rattle.std.specs.Prelude.{◌≡◌, IfOk, IsTrue, Some, is_some};
ghost use Rattle.std.specs.Option.{option_map};
ghost use Rattle.s38_words.specs.DeclarationLine.{after_dcl, declaration_of};
ghost use Rattle.s38_words.specs.Views.{act_in};
ghost use Rattle.s38_words.specs.ProgramLine.{head_of};
ghost use Rattle.s38_template.specs.Lines.{are_formed, are_operands, declare, end_line, is_act, is_instruction, line_of, line_of_head, line_said_by, rest_said, stage_line};
ghost use Rattle.s38_template.specs.declared.said.Line.{Line};

use crate::job_line::job_in;
use crate::said::{JobLine, Line};
use s38_base::NoMemory;
use s38_words::{
    InstructionLine, before, declaration, has_form, instruction, is_declaration, is_in_range,
    is_word, label, program_head, rounds_right,
};
use std::alloc::Global;

/// Whether a text is words of operands, parted by one comma.
#[tactic(auto, unfolding(crate::specs::Lines::are_operands))]
#[inline(never)]
fn are_operands(text: &[u8]) -> bool
    ensures { result ≡ are_operands text.now }
{
    text.split(|byte| *byte == b',').all(|word| has_form(word))
}

fn are_formed(text: Option<&[u8]>) -> bool
    ensures { result ≡ are_formed (option_map (λ operands. operands.now) text.entry) }
{
    match text {
        None => true,
        Some(operands) => are_operands(operands),
    }
}

/// Whether `(R)` is only where it may be, and each word has the form of some operand.
fn is_act(act: InstructionLine<'_>) -> bool
    ensures { result ≡ is_act (act_in act.entry) }
{
    rounds_right(act.round, act.op) && are_formed(act.operands)
}

/// Whether a line has the form of an instruction: a mnemonic, and words of operands.
#[tactic(auto, unfolding(crate::specs::Lines::is_instruction))]
#[inline(always)]
fn is_instruction(line: &[u8]) -> bool
    ensures { result ≡ is_instruction line.now }
{
    match instruction(line) {
        None => false,
        Some(act) => is_act(act),
    }
}

/// Whether a line is an instruction, which then says no more than that; declarations are told apart by their first
/// word, so that it isn't sought among the mnemonics.
#[tactic(auto, using(crate::proofs::Acts::act_said))]
pub fn says_act(line: &[u8]) -> bool
    ensures { IsTrue result → line_of line.now ≡ Some Line.Act }
{
    !is_declaration(line) && is_instruction(line)
}

fn rest_said(line: &[u8]) -> Option<Line>
    ensures { result ≡ rest_said line.now }
{
    if is_word(b"END", line) {
        Some(Line::End)
    } else if is_word(b"STAGE", line) {
        Some(Line::Stage)
    } else if is_instruction(line) {
        Some(Line::Act)
    } else {
        None
    }
}

#[inline(never)]
fn declared(line: &[u8]) -> Option<Line>
    ensures { result ≡ option_map declare (declaration_of line.now) }
{
    let said = declaration(line)?;
    Some(Line::Declare(is_in_range(&said.declares)))
}

/// Whether the numbers of a line that begins as a declaration are in their ranges; None exactly where it has no form.
#[inline(always)]
#[tactic(auto, using(crate::proofs::Declarations::declaration_said))]
pub fn declared_range(line: &[u8]) -> Option<bool>
    requires { IsTrue (is_some (after_dcl line.now)) }
    ensures { option_map (λ in_range. Line.Declare in_range) result ≡ line_of line.now }
{
    let said = declaration(line)?;
    Some(is_in_range(&said.declares))
}

/// The head of a template.
#[inline(never)]
fn headed(line: &[u8]) -> Option<Line>
    ensures { result ≡ option_map line_of_head (head_of line.now) }
{
    Some(Line::Program(program_head(line)?.name))
}

#[tactic(auto, unfolding(crate::specs::Lines::line_said_by))]
fn said_by(word: &[u8], line: &[u8]) -> Option<Line>
    ensures { result ≡ line_said_by word.now line.now }
{
    if is_word(b"PROGRAM", word) {
        return headed(line);
    }
    if is_word(b"DCL", word) {
        return declared(line);
    }
    if is_word(b"LABEL", word) {
        return Some(Line::Label(label(line)?));
    }
    rest_said(line)
}

/// What a line says; None exactly where it has no form.
#[tactic(auto, unfolding(crate::specs::Lines::line_of))]
pub fn line_of(alloc: Global, line: &[u8]) -> Result<Option<Line>, NoMemory>
    ensures { IfOk result (λ said. said ≡ line_of line.now) }
{
    let word = before(b' ', line);
    if !is_word(b"JOB", word) {
        return Ok(said_by(word, line));
    }
    let Some(said) = job_in(alloc, line)? else {
        return Ok(None);
    };
    Ok(Some(Line::Job(JobLine::new(alloc, said)?)))
}
