// The plain node: definitions, and theorems about them.
#![tactic(auto)]

ghost use Rattle.std.specs.Prelude.{true, ◌≡◌};
ghost use Rattle.plain.specs.Notes.{LinesAreAsBefore};
ghost use Rattle.plain.specs.Editions.{FirstEditionStays};

// Lines are answered as they were when the structure report told notes, but for the text of a describing reply. Nothing is run, the promise is the
// theorem.
pub fn lines_are_as_before() -> bool
    ensures { (result ≡ true) × LinesAreAsBefore }
{
    true
}

// Of a table without an `ED` record, every line is answered as document 01 has it: one identification, and no `check`. Nothing is run, the promise is
// the theorem.
pub fn first_edition_stays() -> bool
    ensures { (result ≡ true) × FirstEditionStays }
{
    true
}
