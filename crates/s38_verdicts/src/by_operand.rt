//! Rules that go operand by operand: one of the operand itself, then one of each need that speaks of it; needs of
//! objects that no operand names come last.
ghost use Rattle.std.specs.Prelude.{◌≡◌, ◌+◌, ◌<◌, ◌^◌, length};
ghost use Rattle.s38_verdicts.specs.Resolved.{Each, needs_of};
ghost use Rattle.s38_rules.specs.ask.AddressRules.{by_operand, needs_rule};

use crate::resolved::Resolved;
use s38_base::Exception;
use s38_code::Operand;

/// A rule of an operand, and one of a need.
pub trait OperandRules {
    ghost use Rattle.std.specs.Prelude.{◌≡◌, ℕ, Option};
    ghost use Rattle.s38_base.specs.declared.exception.Exception.{Exception};
    ghost use Rattle.s38_code.specs.declared.operand.Operand.{Operand};
    ghost use Rattle.s38_verdicts.specs.declared.resolved.Resolved.{Resolved};
    ghost use Rattle.s38_rules.specs.declared.need.Need.{Need};

    ghost of_item: { Self → ℕ → Operand → Option Exception };

    ghost of_need: { Self → Need → Option Exception };

    /// Whether a need is resolved over what these rules are of.
    ghost Suits: { Self → Resolved → Type 0 };

    /// What fails at an operand of a number.
    fn item(&self, k: u8, operand: &Operand) -> Option<Exception>
        ensures { result ≡ of_item self.now k operand.now };

    /// What fails of a need.
    fn need(&self, need: &Resolved) -> Option<Exception>
        requires { Suits self.now need.now }
        ensures { result ≡ of_need self.now need.now.need };
}

/// The needs at one place.
fn needs_rule<R: OperandRules>(rules: &R, needs: &[Resolved], k: u8) -> Option<Exception>
    requires { Each (R.Suits rules.now) needs.now }
    ensures { result ≡ needs_rule (R.of_need rules.now) (needs_of needs.now) k }
{
    match needs {
        [] => None,
        [need, more @ ..] => {
            if need.need.place == k {
                if let Some(failure) = rules.need(need) {
                    return Some(failure);
                }
            }
            needs_rule(rules, more, k)
        }
    }
}

/// The first rule that fails, from the operand of a number on.
pub fn by_operand<R: OperandRules>(
    rules: &R,
    needs: &[Resolved],
    k: u64,
    rest: &[Operand],
) -> Option<Exception>
    requires numbers { k + length rest.now < 2 ^ 64 }
    requires needs { Each (R.Suits rules.now) needs.now }
    ensures { result ≡ by_operand (R.of_item rules.now) (R.of_need rules.now) (needs_of needs.now) k rest.now }
{
    let mut number = k;
    for operand in rest {
        let place = number.min(255) as u8;
        if let Some(failure) = rules.item(place, operand) {
            return Some(failure);
        }
        if let Some(failure) = needs_rule(rules, needs, place) {
            return Some(failure);
        }
        number += 1;
    }
    needs_rule(rules, needs, 0)
}
