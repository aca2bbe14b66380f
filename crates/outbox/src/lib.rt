// Outbox records: their bytes can be read back, are written into a lent buffer, and are counted there.
#![tactic(auto)]

pub mod tally;
pub mod write;

ghost use Rattle.std.specs.Prelude.{◌≡◌, true};
ghost use Rattle.outbox.specs.Theorems.{EncodingIsReadBack};

// Equal bytes, equal records: nothing is run, the promise is the theorem.
pub fn encoding_is_read_back() -> bool
    ensures { (result ≡ true) × EncodingIsReadBack }
{
    true
}
