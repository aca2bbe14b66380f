#![tactic(auto)]

ghost use Rattle.std.specs.Prelude.{true, ◌≡◌};
ghost use Rattle.examples.specs.Theorems.{ExamplesAreRight, OutboxExample, BrokenSensor, WhoTalks, WholeReport, NotedReport, TablesAreGood};
ghost use Rattle.examples.specs.Theorems.{FiveMilliseconds, ExchangesAreRight, HistoriesAreAsDue, Ramps, NextEdition};
ghost use Rattle.examples.specs.Theorems.{PartOfAStruct};

// Each function here promises a theorem about the definitions. Nothing is run.

// E1 to E12 of document 01.
pub fn examples_are_right() -> bool
    ensures { (result ≡ true) × ExamplesAreRight }
{
    true
}

// Document 01's outbox example, byte for byte.
pub fn outbox_example() -> bool
    ensures { (result ≡ true) × OutboxExample }
{
    true
}

// A sensor breaks, its clients are told, and the next reading clears it.
pub fn broken_sensor() -> bool
    ensures { (result ≡ true) × BrokenSensor }
{
    true
}

// Busy before changed, and a status that doesn't admit it, byte for byte.
pub fn ramps() -> bool
    ensures { (result ≡ true) × Ramps }
{
    true
}

// Two clients ask how much they talk.
pub fn who_talks() -> bool
    ensures { (result ≡ true) × WhoTalks }
{
    true
}

// Document 01's whole structure report, byte for byte.
pub fn whole_report() -> bool
    ensures { (result ≡ true) × WholeReport }
{
    true
}

// The same report of a table with a note, which is left out; and as it was before.
pub fn noted_report() -> bool
    ensures { (result ≡ true) × NotedReport }
{
    true
}

// The tables of the examples are accepted.
pub fn tables_are_good() -> bool
    ensures { (result ≡ true) × TablesAreGood }
{
    true
}

// 5 milliseconds are written as 0.005.
pub fn five_milliseconds() -> bool
    ensures { (result ≡ true) × FiveMilliseconds }
{
    true
}

// A table with an `ED` record and one without answer the same lines, each by its edition.
pub fn next_edition() -> bool
    ensures { (result ≡ true) × NextEdition }
{
    true
}

// Two of five settings are checked and changed, one is required, and in error nothing may be left out, byte for byte.
pub fn part_of_a_struct() -> bool
    ensures { (result ≡ true) × PartOfAStruct }
{
    true
}

// Exchanges of SECoP 1.0, with document 01's texts.
pub fn exchanges_are_right() -> bool
    ensures { (result ≡ true) × ExchangesAreRight }
{
    true
}

// Histories that the reference program generated are answered as it answers them.
pub fn histories_are_as_due() -> bool
    ensures { (result ≡ true) × HistoriesAreAsDue }
{
    true
}
