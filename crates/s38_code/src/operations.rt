//! The one table of operations, column by column.

ghost use Rattle.std.specs.Prelude.{◌≡◌};
ghost use Rattle.s38_code.specs.Operations.{classes, family_of, made_kind, may_round, mnemonic, operand_rule};

use crate::class::Class;
use crate::class::Constant::{
    Attribute, Attributes, ExceptionCode, Identification, JobName, Label, Power, TemplateName,
    Whole,
};
use crate::class::Keyword::{
    Comparison, LockState, Order, PointerKind, Relation, Rights, Seek, Specials, Switch, Wait,
};
use crate::family::Family;
use crate::rule::OperandRule;
use s38_base::{Kind, Op};

/// The mnemonic of an operation, as decks and job logs write it.
#[tactic(auto, unfolding(crate::specs::Operations::mnemonic))]
#[inline(always)]
pub fn mnemonic(op: Op) -> &'static [u8]
    ensures { result.now ≡ mnemonic op }
{
    match op {
        Op::Addn => b"ADDN",
        Op::Subn => b"SUBN",
        Op::Mult => b"MULT",
        Op::Div => b"DIV",
        Op::Rem => b"REM",
        Op::Neg => b"NEG",
        Op::Cpynv => b"CPYNV",
        Op::Scale => b"SCALE",
        Op::Cmpnvb => b"CMPNVB",
        Op::Cpybla => b"CPYBLA",
        Op::Cpybra => b"CPYBRA",
        Op::Cpyblap => b"CPYBLAP",
        Op::Cat => b"CAT",
        Op::Xlate => b"XLATE",
        Op::Cvthc => b"CVTHC",
        Op::Cvtch => b"CVTCH",
        Op::And => b"AND",
        Op::Or => b"OR",
        Op::Xor => b"XOR",
        Op::Not => b"NOT",
        Op::Cmpblab => b"CMPBLAB",
        Op::B => b"B",
        Op::Calli => b"CALLI",
        Op::Rtx => b"RTX",
        Op::Sigexcp => b"SIGEXCP",
        Op::Retexcpd => b"RETEXCPD",
        Op::Modexcpd => b"MODEXCPD",
        Op::Cmpptrt => b"CMPPTRT",
        Op::Addspp => b"ADDSPP",
        Op::Subspp => b"SUBSPP",
        Op::Rslvsp => b"RSLVSP",
        Op::Setsppfp => b"SETSPPFP",
        Op::Setspfp => b"SETSPFP",
        Op::Setdp => b"SETDP",
        Op::Cpybwp => b"CPYBWP",
        Op::Crtctx => b"CRTCTX",
        Op::Modadr => b"MODADR",
        Op::Rename => b"RENAME",
        Op::Matctx => b"MATCTX",
        Op::Crtup => b"CRTUP",
        Op::Modup => b"MODUP",
        Op::Grant => b"GRANT",
        Op::Retract => b"RETRACT",
        Op::Xfro => b"XFRO",
        Op::Testau => b"TESTAU",
        Op::Matau => b"MATAU",
        Op::Matauobj => b"MATAUOBJ",
        Op::Crtpg => b"CRTPG",
        Op::Callx => b"CALLX",
        Op::Xctl => b"XCTL",
        Op::Lock => b"LOCK",
        Op::Unlock => b"UNLOCK",
        Op::Xfrlock => b"XFRLOCK",
        Op::Matobjlk => b"MATOBJLK",
        Op::Crts => b"CRTS",
        Op::Mods => b"MODS",
        Op::Crtq => b"CRTQ",
        Op::Enq => b"ENQ",
        Op::Deq => b"DEQ",
        Op::Crtinx => b"CRTINX",
        Op::Insinxen => b"INSINXEN",
        Op::Fndinxen => b"FNDINXEN",
        Op::Rmvinxen => b"RMVINXEN",
        Op::Crtds => b"CRTDS",
        Op::Crtcr => b"CRTCR",
        Op::Setcr => b"SETCR",
        Op::Insdsen => b"INSDSEN",
        Op::Retdsen => b"RETDSEN",
        Op::Updsen => b"UPDSEN",
        Op::Deldsen => b"DELDSEN",
        Op::Crtjs => b"CRTJS",
        Op::Crtjp => b"CRTJP",
        Op::Jrnlobj => b"JRNLOBJ",
        Op::Retjent => b"RETJENT",
        Op::Crtcb => b"CRTCB",
        Op::Commit => b"COMMIT",
        Op::Decommit => b"DECOMMIT",
        Op::Ensobj => b"ENSOBJ",
        Op::Desctx => b"DESCTX",
        Op::Desup => b"DESUP",
        Op::Despg => b"DESPG",
        Op::Dess => b"DESS",
        Op::Desq => b"DESQ",
        Op::Desinx => b"DESINX",
        Op::Desds => b"DESDS",
        Op::Descr => b"DESCR",
        Op::Desjs => b"DESJS",
        Op::Desjp => b"DESJP",
        Op::Descb => b"DESCB",
    }
}

/// What is at each place of an instruction, in order.
#[tactic(auto, unfolding(crate::specs::Operations::classes))]
pub fn classes(op: Op) -> &'static [Class]
    ensures { result.now ≡ classes op }
{
    match op {
        Op::Addn | Op::Subn | Op::Mult | Op::Div | Op::Rem => &[
            Class::NumberReceiver,
            Class::NumberSource,
            Class::NumberSource,
        ],
        Op::Neg | Op::Cpynv => &[Class::NumberReceiver, Class::NumberSource],
        Op::Scale => &[
            Class::NumberReceiver,
            Class::NumberSource,
            Class::Constant(Power),
        ],
        Op::Cmpnvb => &[
            Class::NumberSource,
            Class::NumberSource,
            Class::Keyword(Comparison),
            Class::Constant(Label),
        ],
        Op::Cpybla | Op::Cpybra | Op::Cvthc | Op::Cvtch | Op::Not => {
            &[Class::BytesReceiver, Class::BytesSource]
        }
        Op::Cpyblap | Op::Cat | Op::And | Op::Or | Op::Xor => &[
            Class::BytesReceiver,
            Class::BytesSource,
            Class::BytesSource,
        ],
        Op::Xlate => &[
            Class::BytesReceiver,
            Class::BytesSource,
            Class::BytesSource,
            Class::BytesSource,
        ],
        Op::Cmpblab => &[
            Class::BytesSource,
            Class::BytesSource,
            Class::Keyword(Comparison),
            Class::Constant(Label),
        ],
        Op::B | Op::Calli => &[Class::Constant(Label)],
        Op::Rtx => &[],
        Op::Sigexcp => &[Class::Constant(ExceptionCode)],
        Op::Retexcpd => &[Class::BytesReceiver],
        Op::Modexcpd => &[Class::Handler, Class::Keyword(Switch)],
        Op::Cmpptrt => &[
            Class::PointerSource,
            Class::Keyword(PointerKind),
            Class::Constant(Label),
        ],
        Op::Addspp | Op::Subspp => &[
            Class::PointerReceiver,
            Class::PointerSource,
            Class::NumberSource,
        ],
        Op::Rslvsp => &[
            Class::PointerReceiver,
            Class::ContextOrList,
            Class::Constant(Identification),
            Class::Keyword(Rights),
        ],
        Op::Setsppfp | Op::Setspfp => &[Class::PointerReceiver, Class::PointerSource],
        Op::Setdp => &[
            Class::PointerReceiver,
            Class::PointerSource,
            Class::Constant(Attribute),
        ],
        Op::Cpybwp => &[Class::CellsReceiver, Class::CellsSource],
        Op::Crtctx => &[
            Class::PointerReceiver,
            Class::Constant(Identification),
            Class::Keyword(Rights),
        ],
        Op::Modadr => &[Class::PointerSource, Class::PointerOrNone],
        Op::Rename => &[Class::PointerSource, Class::Constant(Identification)],
        Op::Matctx => &[Class::BytesReceiver, Class::Context],
        Op::Crtup => &[
            Class::PointerReceiver,
            Class::Constant(Identification),
            Class::Keyword(Specials),
            Class::Constant(Whole),
        ],
        Op::Modup => &[
            Class::PointerSource,
            Class::Keyword(Specials),
            Class::Constant(Whole),
        ],
        Op::Grant | Op::Retract => &[
            Class::PointerSource,
            Class::UserOrPublic,
            Class::Keyword(Rights),
        ],
        Op::Xfro | Op::Jrnlobj => &[Class::PointerSource, Class::PointerSource],
        Op::Testau => &[
            Class::NumberReceiver,
            Class::PointerSource,
            Class::Keyword(Rights),
        ],
        Op::Matau => &[
            Class::BytesReceiver,
            Class::PointerSource,
            Class::UserOrPublic,
        ],
        Op::Matauobj | Op::Matobjlk | Op::Retdsen => {
            &[Class::BytesReceiver, Class::PointerSource]
        }
        Op::Crtpg => &[
            Class::PointerReceiver,
            Class::PointerOrNone,
            Class::Constant(Identification),
            Class::Keyword(Rights),
            Class::Constant(TemplateName),
        ],
        Op::Callx | Op::Xctl => &[
            Class::PointerSource,
            Class::Argument,
            Class::Argument,
            Class::Argument,
            Class::Argument,
            Class::Argument,
            Class::Argument,
            Class::Argument,
            Class::Argument,
            Class::Argument,
            Class::Argument,
            Class::Argument,
            Class::Argument,
            Class::Argument,
            Class::Argument,
            Class::Argument,
            Class::Argument,
        ],
        Op::Lock => &[
            Class::PointerSource,
            Class::Keyword(LockState),
            Class::Keyword(Wait),
        ],
        Op::Unlock => &[Class::PointerSource, Class::Keyword(LockState)],
        Op::Xfrlock => &[
            Class::PointerSource,
            Class::Keyword(LockState),
            Class::Constant(JobName),
        ],
        Op::Crts => &[
            Class::PointerReceiver,
            Class::PointerOrNone,
            Class::Constant(Identification),
            Class::Keyword(Rights),
            Class::NumberSource,
        ],
        Op::Mods => &[Class::PointerSource, Class::NumberSource],
        Op::Crtq => &[
            Class::PointerReceiver,
            Class::PointerOrNone,
            Class::Constant(Identification),
            Class::Keyword(Rights),
            Class::Keyword(Order),
            Class::Constant(Whole),
            Class::Constant(Whole),
        ],
        Op::Enq => &[Class::PointerSource, Class::BytesOrNone, Class::BytesSource],
        Op::Deq => &[
            Class::BytesReceiver,
            Class::PointerSource,
            Class::Keyword(Relation),
            Class::BytesOrNone,
            Class::Keyword(Wait),
        ],
        Op::Crtinx => &[
            Class::PointerReceiver,
            Class::PointerOrNone,
            Class::Constant(Identification),
            Class::Keyword(Rights),
            Class::Constant(Whole),
        ],
        Op::Insinxen | Op::Rmvinxen | Op::Insdsen | Op::Updsen => {
            &[Class::PointerSource, Class::BytesSource]
        }
        Op::Fndinxen => &[
            Class::BytesReceiver,
            Class::PointerSource,
            Class::Keyword(Relation),
            Class::BytesSource,
        ],
        Op::Crtds => &[
            Class::PointerReceiver,
            Class::PointerOrNone,
            Class::Constant(Identification),
            Class::Keyword(Rights),
            Class::Constant(Attributes),
        ],
        Op::Crtcr => &[
            Class::PointerReceiver,
            Class::PointerOrNone,
            Class::Constant(Identification),
            Class::Keyword(Rights),
            Class::PointerSource,
            Class::PointerOrNone,
        ],
        Op::Setcr => &[
            Class::PointerSource,
            Class::Keyword(Seek),
            Class::NumberSource,
        ],
        Op::Crtjs => &[
            Class::PointerReceiver,
            Class::PointerOrNone,
            Class::Constant(Identification),
            Class::Keyword(Rights),
        ],
        Op::Crtjp | Op::Crtcb => &[
            Class::PointerReceiver,
            Class::PointerOrNone,
            Class::Constant(Identification),
            Class::Keyword(Rights),
            Class::PointerSource,
        ],
        Op::Retjent => &[
            Class::BytesReceiver,
            Class::PointerSource,
            Class::NumberSource,
        ],
        Op::Deldsen
        | Op::Commit
        | Op::Decommit
        | Op::Ensobj
        | Op::Desctx
        | Op::Desup
        | Op::Despg
        | Op::Dess
        | Op::Desq
        | Op::Desinx
        | Op::Desds
        | Op::Descr
        | Op::Desjs
        | Op::Desjp
        | Op::Descb => &[Class::PointerSource],
    }
}

/// What an operation asks of its operands together.
#[tactic(auto, unfolding(crate::specs::Operations::operand_rule))]
pub fn operand_rule(op: Op) -> OperandRule
    ensures { result ≡ operand_rule op }
{
    match op {
        Op::And | Op::Or | Op::Xor | Op::Not | Op::Cpybwp => OperandRule::EqualLengths,
        Op::Xlate => OperandRule::EqualTables,
        Op::Cpyblap => OperandRule::OneByte,
        Op::Cvthc => OperandRule::TwiceTheSource,
        Op::Cvtch => OperandRule::TwiceTheReceiver,
        Op::Retexcpd => OperandRule::TwoLocalBytes,
        Op::Testau => OperandRule::ShortBinary,
        Op::Xctl => OperandRule::Parameters,
        Op::Crtq => OperandRule::QueueLengths,
        Op::Crtinx => OperandRule::EntryLength,
        _ => OperandRule::Free,
    }
}

/// The kind of the object that an operation makes; None where it makes none.
#[tactic(auto, unfolding(crate::specs::Operations::made_kind))]
pub fn made_kind(op: Op) -> Option<Kind>
    ensures { result ≡ made_kind op }
{
    match op {
        Op::Crtctx => Some(Kind::Context),
        Op::Crtpg => Some(Kind::Program),
        Op::Crtup => Some(Kind::Profile),
        Op::Crts => Some(Kind::Space),
        Op::Crtq => Some(Kind::Queue),
        Op::Crtinx => Some(Kind::Index),
        Op::Crtds => Some(Kind::DataSpace),
        Op::Crtcr => Some(Kind::Cursor),
        Op::Crtjp => Some(Kind::Port),
        Op::Crtjs => Some(Kind::Journal),
        Op::Crtcb => Some(Kind::Block),
        _ => None,
    }
}

/// Whether `(R)` may follow the mnemonic.
#[tactic(auto, unfolding(crate::specs::Operations::may_round))]
#[inline(always)]
pub fn may_round(op: Op) -> bool
    ensures { result ≡ may_round op }
{
    matches!(
        op,
        Op::Addn | Op::Subn | Op::Mult | Op::Div | Op::Rem | Op::Neg | Op::Cpynv
    )
}

/// The part of the machine that does an operation.
#[tactic(auto, unfolding(crate::specs::Operations::family_of))]
pub fn family_of(op: Op) -> Family
    ensures { result ≡ family_of op }
{
    match op {
        Op::Addn
        | Op::Subn
        | Op::Mult
        | Op::Div
        | Op::Rem
        | Op::Neg
        | Op::Cpynv
        | Op::Scale
        | Op::Cmpnvb
        | Op::Cpybla
        | Op::Cpybra
        | Op::Cpyblap
        | Op::Cat
        | Op::Xlate
        | Op::Cvthc
        | Op::Cvtch
        | Op::And
        | Op::Or
        | Op::Xor
        | Op::Not
        | Op::Cmpblab
        | Op::Cmpptrt
        | Op::Addspp
        | Op::Subspp => Family::Computing,
        Op::B | Op::Calli | Op::Rtx | Op::Sigexcp | Op::Retexcpd | Op::Modexcpd =>
            Family::Branching,
        Op::Rslvsp | Op::Setspfp => Family::Resolving,
        Op::Crtctx | Op::Modadr | Op::Rename | Op::Matctx | Op::Desctx => Family::Contexts,
        Op::Crtup | Op::Modup | Op::Desup => Family::Profiles,
        Op::Grant | Op::Retract | Op::Xfro | Op::Testau | Op::Matau | Op::Matauobj =>
            Family::Grants,
        Op::Crtpg | Op::Callx | Op::Xctl | Op::Despg => Family::Programs,
        Op::Lock | Op::Unlock | Op::Xfrlock | Op::Matobjlk => Family::Locks,
        Op::Setsppfp | Op::Setdp | Op::Cpybwp | Op::Crts | Op::Mods | Op::Dess => Family::Spaces,
        Op::Crtq | Op::Enq | Op::Deq | Op::Desq => Family::Queues,
        Op::Crtinx | Op::Insinxen | Op::Fndinxen | Op::Rmvinxen | Op::Desinx => Family::Indexes,
        Op::Crtds
        | Op::Crtcr
        | Op::Setcr
        | Op::Insdsen
        | Op::Retdsen
        | Op::Updsen
        | Op::Deldsen
        | Op::Desds
        | Op::Descr => Family::DataSpaces,
        Op::Crtjs
        | Op::Crtjp
        | Op::Jrnlobj
        | Op::Retjent
        | Op::Crtcb
        | Op::Commit
        | Op::Decommit
        | Op::Ensobj
        | Op::Desjs
        | Op::Desjp
        | Op::Descb => Family::Journals,
    }
}
