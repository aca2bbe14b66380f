// Demand 3 and requests M-108 and M-112 about the code, as promises: nothing is run.
#![tactic(auto)]

ghost use Rattle.std.specs.Prelude.{true, ◌≡◌};
ghost use Rattle.history.specs.Demand.{Demand3, BytesAreRead};
ghost use Rattle.history.specs.Lines.{LinesAreSent};
ghost use Rattle.history.specs.Chatter.{ChatterDoesNotReachTheCode};
ghost use Rattle.history.specs.Counts.{CodeCountsAreTrue};

// In every history, answers and end are the plain node's; after an accepted start every second history sends the same bytes and ends equal.
pub fn demand_3() -> bool
    ensures { (result ≡ true) × Demand3 }
{
    true
}

// The records that anyone reads off the bytes of a history are the plain node's.
pub fn bytes_are_read() -> bool
    ensures { (result ≡ true) × BytesAreRead }
{
    true
}

// Each final reply and each update is one line: bytes 32 to 126, and its line feed.
pub fn lines_are_sent() -> bool
    ensures { (result ≡ true) × LinesAreSent }
{
    true
}

// With other clients' lines left out that are not accepted changes, what is read off the bytes for a client is the same, and so are all values,
// errors and its counts; the driver's orders are the same less the left-out commands.
pub fn chatter_does_not_reach() -> bool
    ensures { (result ≡ true) × ChatterDoesNotReachTheCode }
{
    true
}

// The counts of a client, in the state that the calls leave, are those of its used line feeds and of the records read off the bytes since its open.
pub fn counts_are_true() -> bool
    ensures { (result ≡ true) × CodeCountsAreTrue }
{
    true
}
