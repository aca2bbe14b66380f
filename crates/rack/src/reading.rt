// A reading, where all that is lent is good.
ghost use Rattle.plain.specs.Calls.{Reading};
ghost use Rattle.state.specs.Clauses.Bare.{unlined};
ghost use Rattle.rack.specs.Clauses.Rack.{Lending, ReadsBare};

use crate::judge::bare_quiet;
use accepted::readings::take_reading;
use fit::Misfit;
use form::verdict;
use limits::{LAST_PARAMETER, LATEST};
use promise::BareDone;
use search::find::parameter_by_number;
use state::Bare;

// "a driver's value for a parameter, numbered from 0 ..". A table has 64 parameters at most. Number 10: "time above the limit"; 14: "no such parameter
// number"; 15: "reading refused by the value rules". The updates are written to the front of the outbox, or of the part of one, that it is lent. No line
// of a client is looked at, or changed.
pub fn read_one(
    table: &[u8],
    values: &mut [u8],
    outbox: &mut [u8],
    state: Bare,
    parameter: u64,
    time: u64,
    bytes: &[u8],
) -> BareDone
    requires { Lending table.now (unlined state) values.old outbox.old }
    ensures { ReadsBare table.now state values.old outbox.old (Reading parameter bytes.now time) result
        values.new outbox.new }
{
    if time > LATEST {
        return bare_quiet(10, state);
    }
    if parameter > LAST_PARAMETER {
        return bare_quiet(14, state);
    }
    let k = parameter as usize;
    let Some((p, home)) = parameter_by_number(table, k) else {
        return bare_quiet(14, state);
    };
    let Ok(()) = verdict(table, p.info, bytes) else {
        return bare_quiet(15, state);
    };
    take_reading(table, values, outbox, state, k, time, bytes, p, home)
}
