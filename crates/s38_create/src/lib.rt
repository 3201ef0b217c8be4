//! Makes checked programs of templates, or finds the first place at which a template is bad.
#![tactic(auto)]

mod attributes;
mod by_class;
mod causes;
mod check;
mod creation;
mod digits;
mod forms;
mod frame;
mod instruction;
mod items;
mod operand_rules;
mod operands;
mod parsed;
mod said;
mod scope;
mod shapes;
mod suits;

pub use check::checked;
pub use creation::{create, refusals_have_a_place};
