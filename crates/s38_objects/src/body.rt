ghost use Rattle.std.specs.Prelude.{◌≡◌};
ghost use Rattle.s38_rules.specs.state.Held.{pages_of};
ghost use Rattle.s38_rules.specs.state.Parts.{over_body, profile_part};

use s38_base::Special;
use s38_rules::Body;

/// The pages that an object with this body takes.
pub fn pages(body: &Body) -> u64
    ensures { result ≡ pages_of body.now }
{
    match body {
        Body::Space(cells) => 1 + (cells.len() as u64 + 511) / 512,
        _ => 1,
    }
}

/// Other special authorities of a user, and another limit. Nothing changes where the body is none of a user.
pub fn set_profile(body: &mut Body, new_special: Special, new_limit: u32)
    ensures { body.new ≡ over_body profile_part (λ _. (new_special, new_limit)) body.old }
{
    if let Body::Profile { special, limit } = body {
        *special = new_special;
        *limit = new_limit;
    }
}
