#![tactic(auto)]

ghost use Rattle.std.specs.Prelude.{true, ◌≡◌};
ghost use Rattle.sound.specs.Theorems.{DatainfosInTable, AlwaysSound, WritesAreShort, WritesAreWellFormed, CallsKeepSound};

// Each function here promises a theorem about the definitions. Nothing is run.

// The plain node only ever holds values in stored form that fit, times within the limit, lines within theirs, modules that are there.
pub fn always_sound() -> bool
    ensures { (result ≡ true) × AlwaysSound }
{
    true
}

// Every datainfo of an accepted table is one of which the theorems of stored forms speak.
pub fn datainfos_in_table() -> bool
    ensures { (result ≡ true) × DatainfosInTable }
{
    true
}

// No call writes more than 32,019 bytes.
pub fn writes_are_short() -> bool
    ensures { (result ≡ true) × WritesAreShort }
{
    true
}

// Every record that is written is well formed, so that equal bytes are equal records.
pub fn writes_are_well_formed() -> bool
    ensures { (result ≡ true) × WritesAreWellFormed }
{
    true
}

// The same of one call on any sound node.
pub fn calls_keep_sound() -> bool
    ensures { (result ≡ true) × CallsKeepSound }
{
    true
}
