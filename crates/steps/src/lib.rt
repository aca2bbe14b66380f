// What an index beside the table alters (request M-105): the steps, and nothing else.
#![tactic(auto)]

ghost use Rattle.std.specs.Prelude.{true, ◌≡◌};
ghost use Rattle.steps.specs.Theorems.{IndexesAlterNoAnswer, StepsAreFew, NothingElseIsSought, ModulesAreFoundFirst, PresentNamesAreQuick};

// Each function here promises a theorem about the definitions. Nothing is run.

// A stale or scribbled index, or none, alters no answer but its steps, and nothing that is set.
pub fn indexes_alter_no_answer() -> bool
    ensures { (result ≡ true) × IndexesAlterNoAnswer }
{
    true
}

// No call takes more than 192 steps.
pub fn steps_are_few() -> bool
    ensures { (result ≡ true) × StepsAreFew }
{
    true
}

// A call that names no accessible takes none.
pub fn nothing_else_is_sought() -> bool
    ensures { (result ≡ true) × NothingElseIsSought }
{
    true
}

// Nor does one whose module is not there.
pub fn modules_are_found_first() -> bool
    ensures { (result ≡ true) × ModulesAreFoundFirst }
{
    true
}

// A line that names an accessible which is there takes at most 64, with no walk, if the index was filled from the table.
pub fn present_names_are_quick() -> bool
    ensures { (result ≡ true) × PresentNamesAreQuick }
{
    true
}
