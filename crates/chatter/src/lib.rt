// Request M-112, "Chatter doesn't reach me", as promises: nothing is run.
#![tactic(auto)]

ghost use Rattle.std.specs.Prelude.{true, ◌≡◌};
ghost use Rattle.chatter.specs.Theorems.{ChatterDoesNotReach, LinesCanBeLeftOut, Worked};

// With other clients' lines left out that are not accepted changes, a client is sent the same, values, errors and its counts are the same, and the
// driver's orders are the same less the left-out commands.
pub fn chatter_does_not_reach() -> bool
    ensures { (result ≡ true) × ChatterDoesNotReach }
{
    true
}

// Any lines can be left out of a history: what stays is a history, and all of it is accepted.
pub fn lines_can_be_left_out() -> bool
    ensures { (result ≡ true) × LinesCanBeLeftOut }
{
    true
}

// What is left out, worked out.
pub fn worked() -> bool
    ensures { (result ≡ true) × Worked }
{
    true
}
