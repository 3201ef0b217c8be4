ghost use Rattle.std.specs.Prelude.{◌≡◌};
ghost use Rattle.s38_compute.specs.Computed.{computes_number, computes_string, is_branch, moves_pointer};
ghost use Rattle.s38_local.specs.Local.{is_control, is_local_op};
ghost use Rattle.s38_local.specs.Ways.{by_branch, by_control, by_number, by_pointer, by_string, is_own};

use s38_base::Op;

/// In which way an instruction is done.
#[derive(Clone, Copy)]
pub enum Way {
    /// It computes a number.
    Number,
    /// It branches by a comparison.
    Branch,
    /// It computes a string.
    Text,
    /// It moves a pointer.
    Pointer,
    /// It goes on elsewhere, or looks at the descriptions of exceptions.
    Control,
    /// The machine does it.
    Shared,
}

/// In which way an instruction of an operation is done.
#[inline(always)]
#[tactic(auto, unfolding(crate::specs::Local::is_local_op))]
pub fn way_of(op: Op) -> Way
    ensures number { computes_number op ≡ by_number result }
    ensures branch { is_branch op ≡ by_branch result }
    ensures string { computes_string op ≡ by_string result }
    ensures pointer { moves_pointer op ≡ by_pointer result }
    ensures control { is_control op ≡ by_control result }
    ensures own { is_local_op op ≡ is_own result }
{
    match op {
        Op::Addn | Op::Subn | Op::Mult | Op::Div | Op::Rem => Way::Number,
        Op::Neg | Op::Cpynv | Op::Scale => Way::Number,
        Op::Cmpnvb | Op::Cmpblab | Op::Cmpptrt => Way::Branch,
        Op::Cpybla | Op::Cpybra | Op::Cpyblap | Op::Cat | Op::Xlate => Way::Text,
        Op::Cvthc | Op::Cvtch | Op::And | Op::Or | Op::Xor | Op::Not => Way::Text,
        Op::Addspp | Op::Subspp => Way::Pointer,
        Op::B | Op::Calli | Op::Rtx | Op::Sigexcp | Op::Retexcpd | Op::Modexcpd => Way::Control,
        _ => Way::Shared,
    }
}
