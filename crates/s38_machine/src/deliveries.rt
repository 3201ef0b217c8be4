//! How the value of an instruction comes to its receiver: to a variable with the reply, into a space at once.
ghost use Rattle.std.specs.Prelude.{◌≡◌, ◌∷◌, ℕ, [], IfOk};
ghost use Rattle.std.specs.Option.{option_copied};
ghost use Rattle.s38_rules.specs.state.State.{State};
ghost use Rattle.s38_rules.specs.ask.Receivers.{delivered};

use s38_base::{NoMemory, Pointer, Seq};
use s38_changes::put_value;
use s38_code::{Operand, Val, Vals};
use s38_invoke::{Core, Profiles};
use s38_objects::Objects;
use s38_operands::is_in_space;
use std::alloc::Global;

fn one(alloc: Global, value: Val) -> Result<Vals, NoMemory>
    ensures { IfOk result (λ made. made ≡ value ∷ []) }
{
    let mut made = Vec::with_capacity(alloc, 1)?;
    made.push(value)?;
    Ok(Seq::from_vec(made))
}

/// The values of the reply, and what is left to be put into a space.
pub fn parted(
    alloc: Global,
    receiver: Option<&Operand>,
    value: Option<Val>,
) -> Result<(Vals, Option<Val>), NoMemory>
    ensures values { IfOk result (λ parts. (s : State) (shift : ℕ) → parts.0 ≡ (delivered s shift (option_copied receiver.entry) value).values) }
    ensures kept { IfOk result (λ parts. (s : State) (shift : ℕ) → (delivered s shift (option_copied receiver.entry) parts.1).state ≡ (delivered s shift (option_copied receiver.entry) value).state) }
{
    match value {
        None => Ok((Seq::new(alloc), None)),
        Some(value) => {
            if is_in_space(receiver) {
                return Ok((Seq::new(alloc), Some(value)));
            }
            Ok((one(alloc, value)?, None))
        }
    }
}

/// A value goes into the space of its receiver, so many bytes past its beginning; it takes no memory.
pub fn put(
    world: &mut Core<Objects, Profiles>,
    shift: u16,
    receiver: Option<&Operand>,
    value: Option<Val>,
)
    ensures { world.new ≡ (delivered world.old shift (option_copied receiver.entry) value).state }
{
    match value {
        None => {}
        Some(value) => match receiver {
            Some(Operand::InSpace { base, offset, .. }) => {
                let at = Pointer::start(base.get(), *offset) + u64::from(shift);
                put_value(world, Pointer::target(base.get()), at, &value);
            }
            _ => {}
        },
    }
}
