#![tactic(auto)]

ghost use Rattle.std.specs.Prelude.{true, ◌≡◌};
ghost use Rattle.encode.specs.Examples.{ExamplesAreEncoded, RepeatedNamesAreReadAlike};
ghost use Rattle.encode.specs.Theorems.{EncodedTablesAreReadBack, AcceptedBytesAreEncoded, TablesHaveOneLayout};

// Each function here promises a theorem about the definitions. Nothing is run.

// Reading an encoded table gives it back, for every table that the rules accept.
pub fn encoded_tables_are_read_back() -> bool
    ensures { (result ≡ true) × EncodedTablesAreReadBack }
{
    true
}

// The bytes of every table that is accepted are the encoding of the table that they are read as.
pub fn accepted_bytes_are_encoded() -> bool
    ensures { (result ≡ true) × AcceptedBytesAreEncoded }
{
    true
}

// So no two tables' bytes are read as one accepted table.
pub fn tables_have_one_layout() -> bool
    ensures { (result ≡ true) × TablesHaveOneLayout }
{
    true
}

// Two tables, with all types between them, whose bytes were worked out by hand.
pub fn examples_are_encoded() -> bool
    ensures { (result ≡ true) × ExamplesAreEncoded }
{
    true
}

// Why the rules matter: other bytes may be read as one table, if a name in it is repeated.
pub fn repeated_names_are_read_alike() -> bool
    ensures { (result ≡ true) × RepeatedNamesAreReadAlike }
{
    true
}
