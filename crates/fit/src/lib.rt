// Which values fit a datainfo in the table's bytes.
#![tactic(auto)]

ghost use Rattle.std.specs.Prelude.{true, ◌≡◌};
ghost use Rattle.fit.specs.Theorems.{OneComparison};

pub mod fit;
pub mod member;
pub mod object;
pub mod walk;

// Why a value doesn't fit, each worse than the one before.
#[derive(Clone, Copy, PartialEq, Eq, PartialOrd, Ord)]
pub enum Misfit {
    RangeError,
    WrongType,
    BadJson,
}

// One exact comparison judges the numbers of doubles, ints and scaled: nothing is run, the promise is the theorem.
pub fn one_comparison() -> bool
    ensures { (result ≡ true) × OneComparison }
{
    true
}
