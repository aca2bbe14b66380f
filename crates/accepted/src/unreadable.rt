// A parameter that can't be read.
ghost use Rattle.std.specs.Prelude.{ℕ, List, ◌≡◌, Some};
ghost use Rattle.message.specs.Error.{fault_of};
ghost use Rattle.message.specs.Clauses.Said.{fault_as};
ghost use Rattle.plain.specs.Calls.{Unreadable};
ghost use Rattle.state.specs.Clauses.Bare.{lined};
ghost use Rattle.promise.specs.Clauses.Answer.{done_by};
ghost use Rattle.accepted.specs.Clauses.Fitting.{Tellable, Standing, Taken};

use message::say::{Fault, Sensor, fault_number};
use promise::BareDone;
use search::cursor::Cursor;
use state::Bare;
use state::count::sent_counted;
use state::setting::failed;
use table::layout::ParameterAt;
use update::{bytes_of, put_updates_to};

// "Each parameter's record then holds .. such an error, with its time": of parameter k, of which p has the positions; `home` is the cursor after it,
// in its module. The updates are written to the front of the outbox, or of the part of one, that it is lent. What the values area and
// the state's lines have doesn't matter.
pub fn take_unreadable(
    table: &[u8],
    outbox: &mut [u8],
    state: Bare,
    k: usize,
    time: u64,
    fault: Fault,
    p: ParameterAt,
    home: Cursor,
) -> BareDone
    requires { Tellable table.now outbox.old k time p home }
    ensures { (lines values : List ℕ) (class : ℕ) → Standing table.now (lined state lines) values → fault_of class ≡ Some (fault_as fault)
        → Taken table.now (lined state lines) values outbox.old (Unreadable k class time) (done_by result lines) values
        outbox.new }
{
    let module = bytes_of(table, home.name);
    let name = bytes_of(table, p.name);
    let written = put_updates_to(
        outbox,
        0,
        state.clients,
        home.modules - 1,
        module,
        name,
        Sensor::Fails(fault),
        b"",
        time,
    );
    let settings = failed(state.settings, k, fault_number(fault), time);
    let told = Bare { settings, ..state };
    BareDone {
        number: 0,
        used: 0,
        written,
        steps: 0,
        state: sent_counted(told, outbox, written),
    }
}
