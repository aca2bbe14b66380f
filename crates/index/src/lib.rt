// An index beside a table: 128 bytes. Filling it, and what a filled one is good for.
#![tactic(auto)]

pub mod fill;

ghost use Rattle.std.specs.Prelude.{true, ◌≡◌};
ghost use Rattle.index.specs.Accepted.{ParametersAreAccessibles, CommandsAreAccessibles, AnswersStand, StepsAreFew, PresentNamesAreQuick};
ghost use Rattle.index.specs.Theorems.{FilledIndexesAreGood, FillingNeverOverflows};

// The functions here promise theorems about the definitions. Nothing is run.

// Up to 128 accessibles fill an index in which each is met from its place on.
pub fn filled_indexes_are_good() -> bool
    ensures { (result ≡ true) × FilledIndexesAreGood }
{
    true
}

// No number is ever written over another.
pub fn filling_never_overflows() -> bool
    ensures { (result ≡ true) × FillingNeverOverflows }
{
    true
}

// A parameter of two names is the accessible of these names, if that is a parameter.
pub fn parameters_are_accessibles() -> bool
    ensures { (result ≡ true) × ParametersAreAccessibles }
{
    true
}

// The same of a command.
pub fn commands_are_accessibles() -> bool
    ensures { (result ≡ true) × CommandsAreAccessibles }
{
    true
}

// A stale or scribbled index alters no answer.
pub fn answers_stand() -> bool
    ensures { (result ≡ true) × AnswersStand }
{
    true
}

// At most 192 steps always.
pub fn steps_are_few() -> bool
    ensures { (result ≡ true) × StepsAreFew }
{
    true
}

// At most 64 steps, with no walk, for a present name and an index that was filled from the table.
pub fn present_names_are_quick() -> bool
    ensures { (result ≡ true) × PresentNamesAreQuick }
{
    true
}
