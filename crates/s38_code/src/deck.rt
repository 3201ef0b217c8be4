ghost use Rattle.std.specs.Prelude.{◌≡◌, IfOk};

use crate::lines::{Lines, TextLines};
use s38_base::{Name, NoMemory, Seq, TryClone};
use std::alloc::Global;
use std::marker::Model;
use std::sync::Arc;

/// The lines of a program's text, from PROGRAM to END, without their line feeds; a second one shares them.
/// Contracts see it as the list of the lines.
#[derive(Drop, Debug)]
pub struct Template {
    held: Arc<TextLines>,
}

impl Model for Template {
    ghost use Rattle.std.specs.Prelude.{List, ℕ};

    ghost Value = { List (List ℕ) };

    ghost view = { λ t. t.held.value };
}

impl Template {
    /// The template of these lines; where memory is refused they are dropped.
    pub fn new(alloc: Global, lines: TextLines) -> Result<Template, NoMemory>
        ensures { IfOk result (λ template. template ≡ lines) }
    {
        match Arc::new(alloc, lines) {
            Ok(held) => Ok(Template { held }),
            Err(_) => Err(NoMemory),
        }
    }

    /// The lines, in order.
    pub fn lines(&self) -> Lines<'_>
        ensures { result ≡ self.now }
    {
        self.held.lines()
    }
}

impl TryClone for Template {
    fn try_clone(&self, _: Global) -> Result<Self, NoMemory> {
        match Arc::try_clone(&self.held) {
            Ok(held) => Ok(Template { held }),
            Err(_) => Err(NoMemory),
        }
    }
}

/// Names, in order.
pub type Names = Seq<Name>;

/// The templates of a deck, in order.
pub type Templates = Seq<Template>;

/// The jobs of a deck, in order.
pub type Jobs = Seq<Job>;

/// A job: who runs which template, and where its names are looked for.
#[derive(Drop, Debug)]
pub struct Job {
    pub name: Name,
    pub user: Name,
    pub template: Name,
    /// How many instructions it may do.
    pub budget: u32,
    /// The contexts of its list, by name.
    pub contexts: Names,
    /// The number of its stage, from 1 on.
    pub stage: u16,
}

/// Program templates, and then jobs.
#[derive(Drop, Debug)]
pub struct Deck {
    pub templates: Templates,
    pub jobs: Jobs,
}

impl TryClone for Job {
    fn try_clone(&self, alloc: Global) -> Result<Self, NoMemory> {
        Ok(Job {
            name: self.name,
            user: self.user,
            template: self.template,
            budget: self.budget,
            contexts: Seq::from_slice(alloc, self.contexts.as_slice())?,
            stage: self.stage,
        })
    }
}
