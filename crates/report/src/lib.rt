// What the structure report tells: the table that is enforced, optional members of a struct (M-113), scaled and blob (M-104) among it. Notes
// (M-109) and the edition (M-107) are not told.
#![tactic(auto)]

ghost use Rattle.std.specs.Prelude.{true, ◌≡◌};
ghost use Rattle.report.specs.Theorems.{ReportsTell, ReportsTellVerdicts};
ghost use Rattle.report.specs.Notes.{NotesAreGone};

// Each function here promises a theorem about the definitions. Nothing is run.

// Accepted tables with the same structure report are the same, but for editions, notes, initial values and their places, and flags that
// enforce nothing.
pub fn reports_tell() -> bool
    ensures { (result ≡ true) × ReportsTell }
{
    true
}

// So they find the same parameters and commands by name, and come to the same verdict on every value, and to the same verdict and stored form of every text
// and every change.
pub fn reports_tell_verdicts() -> bool
    ensures { (result ≡ true) × ReportsTellVerdicts }
{
    true
}

// The report is what it was for the table without its notes; it is never longer than with them, so a table that was accepted still is.
pub fn notes_are_gone() -> bool
    ensures { (result ≡ true) × NotesAreGone }
{
    true
}
