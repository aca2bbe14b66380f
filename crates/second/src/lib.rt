// Demand 3's second half, and that counts are true of a history, as promises: nothing is run.
#![tactic(auto)]

ghost use Rattle.std.specs.Prelude.{true, ◌≡◌};
ghost use Rattle.second.specs.Theorems.{HistoriesAreTheirItems, SecondHistoriesAreAlike, AcceptedCallsAreSecond, CallsMayChangePlaces};
ghost use Rattle.second.specs.Theorems.{PiecesMayBeMingled, PiecesMayBeCut, UnusedMayBeOffered};
ghost use Rattle.second.specs.Counts.{CountsAreTrue};

// A history leaves and sends what the items that its accepted calls used leave and send.
pub fn histories_are_their_items() -> bool
    ensures { (result ≡ true) × HistoriesAreTheirItems }
{
    true
}

// After an accepted start, a second history's calls are accepted, the same bytes are sent in the same order, and the ends are equal.
pub fn second_histories_are_alike() -> bool
    ensures { (result ≡ true) × SecondHistoriesAreAlike }
{
    true
}

// There are second histories: of each history, its accepted calls.
pub fn accepted_calls_are_second() -> bool
    ensures { (result ≡ true) × AcceptedCallsAreSecond }
{
    true
}

// Neighbouring calls of a second history may change places where no client's items and no marks are reordered.
pub fn calls_may_change_places() -> bool
    ensures { (result ≡ true) × CallsMayChangePlaces }
{
    true
}

// A piece without a line feed may change places with any call that is not its client's.
pub fn pieces_may_be_mingled() -> bool
    ensures { (result ≡ true) × PiecesMayBeMingled }
{
    true
}

// A piece may be cut in two anywhere before its line feed, and two such pieces may be joined.
pub fn pieces_may_be_cut() -> bool
    ensures { (result ≡ true) × PiecesMayBeCut }
{
    true
}

// What stands after a piece's line feed is not used, and may be anything.
pub fn unused_may_be_offered() -> bool
    ensures { (result ≡ true) × UnusedMayBeOffered }
{
    true
}

// A client's counts are the numbers of its used line feeds, of the errors replied to it and of the updates sent to it since its open, up to where
// they stop.
pub fn counts_are_true() -> bool
    ensures { (result ≡ true) × CountsAreTrue }
{
    true
}
