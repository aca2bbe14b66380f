// JSON texts over the bytes 32 to 126.
#![tactic(auto)]

ghost use Rattle.std.specs.Prelude.{◌≡◌, true};
ghost use Rattle.json_text.specs.Theorems.{CompactIsReadBack, CountsNeverCut, ReadableTrees, TextsArePrintable};

pub mod characters;
pub mod read;

// The compact text of a value that was read is read as the same value: nothing is run, the promise is the theorem.
pub fn compact_is_read_back() -> bool
    ensures { (result ≡ true) × CompactIsReadBack }
{
    true
}

// What is read is a readable tree, and the compact text of every readable tree is read as that tree.
pub fn readable_trees() -> bool
    ensures { (result ≡ true) × ReadableTrees }
{
    true
}

// The counts by which the definitions read strings, items and members never cut a text short.
pub fn counts_never_cut() -> bool
    ensures { (result ≡ true) × CountsNeverCut }
{
    true
}

// A text that is JSON has no byte outside 32 to 126.
pub fn texts_are_printable() -> bool
    ensures { (result ≡ true) × TextsArePrintable }
{
    true
}
