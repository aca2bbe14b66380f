// What is counted of the clients. Any number is fit.
ghost use Rattle.std.specs.Prelude.{◌≡◌, List, ◌<◌, ◌≤◌};
ghost use Rattle.counter.specs.Counts.{all_counted};
ghost use Rattle.outbox.specs.Outbox.{Record};
ghost use Rattle.outbox.specs.Clauses.Tallied.{Holds};
ghost use Rattle.state.specs.View.{counts_at};
ghost use Rattle.state.specs.Clauses.Counted.{with_sent, Cleared, LineCounted, SentCounted};

use crate::{Bare, State};
use counter::{Counts, counted};
use limits::CLIENTS;
use outbox::tally::sent_to;

// "open set them to 0": client c's.
pub fn cleared(s: State, c: usize) -> State
    requires { c < 8 }
    ensures { Cleared s c result }
{
    let mut counts = s.counts;
    counts[c] = Counts {
        lines: 0,
        errors: 0,
        updates: 0,
    };
    State { counts, ..s }
}

// "lines completed": one more of client c.
pub fn line_counted(s: Bare, c: usize) -> Bare
    requires { c < 8 }
    ensures { LineCounted s c result }
{
    let mut counts = s.counts;
    counts[c] = counted(counts[c], 1, 0, 0);
    Bare { counts, ..s }
}

// Client c's counts, after what an outbox has for it.
fn with_sent(one: Counts, out: &[u8], written: usize, client: u8) -> Counts
    requires { written ≤ 65536 }
    ensures { (rs : List Record) → Holds out.now written rs → result ≡ with_sent one rs client }
{
    let t = sent_to(out, written, client);
    counted(one, 0, t.errors, t.updates)
}

// "errors replied", "updates sent": of each client, by the records in the first `written` bytes of an outbox.
pub fn sent_counted(s: Bare, out: &[u8], written: usize) -> Bare
    requires { written ≤ 65536 }
    ensures { SentCounted s out.now written result }
{
    let mut counts = s.counts;
    for c in 0..CLIENTS {
        counts[c] = with_sent(counts[c], out, written, c as u8);
    }
    Bare { counts, ..s }
}

// A count of 32 bits is at most where it stops.
fn stopped(one: Counts) -> Counts
    ensures { result ≡ all_counted one 0 0 0 }
{
    one
}

// Client c's counts.
pub fn counts_of(s: Bare, c: usize) -> Counts
    requires { c < 8 }
    ensures { result ≡ counts_at s.counts c }
{
    let counts = s.counts;
    stopped(counts[c])
}
