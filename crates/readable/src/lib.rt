// What the node writes as JSON is read by its own reader, as the value that it was written from.
#![tactic(auto)]

ghost use Rattle.std.specs.Prelude.{true, ◌≡◌};
ghost use Rattle.readable.specs.Theorems.{StructureReportsAreRead, FewerAreTooFew, DataReportsAreRead, HeldReportsAreRead, RecordsAreRead};

// Each function here promises a theorem about the definitions. Nothing is run.

// The structure report of every accepted table is JSON of at most fourteen levels.
pub fn structure_reports_are_read() -> bool
    ensures { (result ≡ true) × StructureReportsAreRead }
{
    true
}

// Thirteen are too few.
pub fn fewer_are_too_few() -> bool
    ensures { (result ≡ true) × FewerAreTooFew }
{
    true
}

// Data reports and error reports are JSON by the rule for what a client sends.
pub fn data_reports_are_read() -> bool
    ensures { (result ≡ true) × DataReportsAreRead }
{
    true
}

// So is, in every history, the report of what each parameter holds.
pub fn held_reports_are_read() -> bool
    ensures { (result ≡ true) × HeldReportsAreRead }
{
    true
}

// And each report in each reply and each update that the plain node sends.
pub fn records_are_read() -> bool
    ensures { (result ≡ true) × RecordsAreRead }
{
    true
}
