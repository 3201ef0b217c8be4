ghost use Rattle.std.specs.Prelude.{◌≡◌, Some};
ghost use Rattle.s38_code.specs.Operations.{mnemonic};
ghost use Rattle.s38_words.specs.Operation.{beginning_with, first_op, op_of};

use s38_base::Op;
use s38_code::mnemonic;

/// The operations whose mnemonics begin with a letter.
#[tactic(auto, unfolding(crate::specs::Operation::beginning_with))]
fn beginning_with(letter: u8) -> &'static [Op]
    ensures { result.now ≡ beginning_with letter }
{
    match letter {
        b'A' => &[Op::Addn, Op::And, Op::Addspp],
        b'B' => &[Op::B],
        b'C' => &[
            Op::Cmpnvb,
            Op::Cpybla,
            Op::Cpynv,
            Op::Callx,
            Op::Cpybra,
            Op::Cpyblap,
            Op::Cat,
            Op::Cvthc,
            Op::Cvtch,
            Op::Cmpblab,
            Op::Calli,
            Op::Cmpptrt,
            Op::Cpybwp,
            Op::Crtctx,
            Op::Crtup,
            Op::Crtpg,
            Op::Crts,
            Op::Crtq,
            Op::Crtinx,
            Op::Crtds,
            Op::Crtcr,
            Op::Crtjs,
            Op::Crtjp,
            Op::Crtcb,
            Op::Commit,
        ],
        b'D' => &[
            Op::Deq,
            Op::Div,
            Op::Deldsen,
            Op::Decommit,
            Op::Desctx,
            Op::Desup,
            Op::Despg,
            Op::Dess,
            Op::Desq,
            Op::Desinx,
            Op::Desds,
            Op::Descr,
            Op::Desjs,
            Op::Desjp,
            Op::Descb,
        ],
        b'E' => &[Op::Enq, Op::Ensobj],
        b'F' => &[Op::Fndinxen],
        b'G' => &[Op::Grant],
        b'I' => &[Op::Insinxen, Op::Insdsen],
        b'J' => &[Op::Jrnlobj],
        b'L' => &[Op::Lock],
        b'M' => &[
            Op::Mult,
            Op::Modexcpd,
            Op::Modadr,
            Op::Matctx,
            Op::Modup,
            Op::Matau,
            Op::Matauobj,
            Op::Matobjlk,
            Op::Mods,
        ],
        b'N' => &[Op::Neg, Op::Not],
        b'O' => &[Op::Or],
        b'R' => &[
            Op::Rtx,
            Op::Rslvsp,
            Op::Rem,
            Op::Retexcpd,
            Op::Rename,
            Op::Retract,
            Op::Rmvinxen,
            Op::Retdsen,
            Op::Retjent,
        ],
        b'S' => &[
            Op::Subn,
            Op::Scale,
            Op::Sigexcp,
            Op::Subspp,
            Op::Setsppfp,
            Op::Setspfp,
            Op::Setdp,
            Op::Setcr,
        ],
        b'T' => &[Op::Testau],
        b'U' => &[Op::Unlock, Op::Updsen],
        b'X' => &[Op::Xlate, Op::Xor, Op::Xfro, Op::Xctl, Op::Xfrlock],
        _ => &[],
    }
}

/// The first of these that a word is the mnemonic of.
#[inline(always)]
fn first_op(ops: &[Op], word: &[u8]) -> Option<Op>
    ensures { result ≡ first_op ops.now word.now }
{
    for op in ops {
        if word == mnemonic(*op) {
            return Some(*op);
        }
    }
    None
}

/// The operation that a word is the mnemonic of.
#[tactic(auto, using(crate::proofs::MnemonicLaws::found, crate::proofs::MnemonicLaws::none_empty))]
#[inline(always)]
pub fn operation(word: &[u8]) -> Option<Op>
    ensures { result ≡ op_of word.now }
{
    match word {
        [] => None,
        [letter, ..] => first_op(beginning_with(*letter), word),
    }
}

/// Each operation's mnemonic is read as that operation.
pub fn operations_are_read(op: Op)
    ensures { op_of (mnemonic op) ≡ Some op }
{}
