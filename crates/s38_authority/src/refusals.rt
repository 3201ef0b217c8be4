//! The exceptions of users who lack authority.
ghost use Rattle.std.specs.Prelude.{◌≡◌, map};
ghost use Rattle.s38_rules.specs.ask.Authority.{lacks_special, missing};

use crate::rights::{Missing, missing_in};
use crate::users::is_special;
use s38_base::exceptions::{SPECIAL_REQUIRED, UNAUTHORIZED};
use s38_base::{Exception, Rights, Rule, Special, UserNum};
use s38_invoke::Core;
use s38_rules::{Table, UserMaps};

/// The exception that says which needed rights are missing, where some are.
pub fn missing(operand: u8, needed: Rights, there: Rights) -> Option<Exception>
    ensures { result ≡ missing operand needed.0 there.0 }
{
    match missing_in(needed, there) {
        Ok(()) => None,
        Err(Missing(rights)) => Some(Exception {
            id: UNAUTHORIZED,
            operand,
            rule: Rule::Missing { rights },
        }),
    }
}

/// The exception of an instruction that needs a special authority, where no acting user has it.
#[tactic(auto, unfolding(s38_rules::specs::ask::Authority::lacks_special))]
pub fn lacks_special<T: Table, P: UserMaps>(
    world: &Core<T, P>,
    users: &[UserNum],
    special: Special,
) -> Option<Exception>
    ensures { result ≡ lacks_special world.now.held (map (λ u. u.0) users.now) special.0 }
{
    if special.0 == 0 || is_special(world, users, special) {
        return None;
    }
    Some(Exception {
        id: SPECIAL_REQUIRED,
        operand: 0,
        rule: Rule::NoSpecial { special },
    })
}
