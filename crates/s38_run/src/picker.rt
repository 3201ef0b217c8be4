ghost use Rattle.std.specs.Prelude.{◌≡◌, ◌<◌, ◌^◌};
ghost use Rattle.s38_run.specs.Pickers.{number_after};

use std::marker::Model;

/// Who goes next, as numbers. What it answers, and how it goes on, is a function of its state.
pub trait Picker {
    ghost use Rattle.std.specs.Prelude.{ℕ};

    ghost answer: { Self → ℕ };

    ghost after: { Self → Self };

    /// The next number.
    fn pick(&mut self) -> u32
        ensures answer { result ≡ answer self.old }
        ensures after { self.new ≡ after self.old };
}

/// Numbers by a number: contracts see its state.
#[derive(Drop)]
pub struct NumberPicker {
    state: u64,
}

impl Model for NumberPicker {
    ghost use Rattle.std.specs.Prelude.{ℕ};

    ghost Value = { ℕ };

    ghost view = { λ p. p.state };
}

/// The state after another.
fn next_state(state: u64) -> u64
    ensures { result ≡ number_after state }
{
    state
        .wrapping_mul(6_364_136_223_846_793_005)
        .wrapping_add(1_442_695_040_888_963_407)
}

impl NumberPicker {
    /// The picker that begins at a number.
    pub fn new(n: u64) -> NumberPicker
        ensures { result ≡ n }
    {
        NumberPicker { state: n }
    }
}

impl Picker for NumberPicker {
    ghost use Rattle.s38_run.specs.Pickers.{number_after, number_answer};

    ghost answer = { number_answer };

    ghost after = { number_after };

    fn pick(&mut self) -> u32 {
        self.state = next_state(self.state);
        (self.state >> 33) as u32
    }
}

/// The numbers of a list, and 0 after its end: contracts see those that are left.
#[derive(Drop)]
pub struct ListPicker {
    numbers: Vec<u32>,
    at: usize,
}

impl Model for ListPicker {
    ghost use Rattle.std.specs.Prelude.{ℕ, List, drop};

    ghost Value = { List ℕ };

    ghost view = { λ p. drop p.at p.numbers.items };
}

impl ListPicker {
    /// The picker of a list.
    pub fn new(list: Vec<u32>) -> ListPicker
        ensures { result ≡ list.items }
    {
        ListPicker {
            numbers: list,
            at: 0,
        }
    }
}

impl Picker for ListPicker {
    ghost use Rattle.s38_run.specs.Pickers.{list_after, list_answer};

    ghost answer = { list_answer };

    ghost after = { list_after };

    fn pick(&mut self) -> u32 {
        if self.at < self.numbers.len() {
            let number = self.numbers[self.at];
            self.at += 1;
            number
        } else {
            0
        }
    }
}
