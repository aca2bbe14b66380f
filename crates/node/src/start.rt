// The start of a node.
ghost use Rattle.std.specs.Prelude.{◌≡◌};
ghost use Rattle.promise.specs.Promise as Promise;
ghost use Rattle.promise.specs.Promise.{Begins};

use counter::Counts;
use describe::judge::table_number;
use limits::{ACCESSIBLES, CLIENTS, LATEST, LINE, VALUES};
use promise::Done;
use rack::judge::quiet;
use state::{Clients, Settings, State};

// A state with no client open and no value set, with the same time for every parameter, and all counts 0.
fn blank(time: u64) -> State
    ensures { result ≡ Promise.blank time }
{
    State {
        clients: Clients {
            open: [0; CLIENTS],
            overlong: [0; CLIENTS],
            active: [0; CLIENTS],
            length: [0; CLIENTS],
            lines: [0; CLIENTS * LINE],
        },
        settings: Settings {
            length: [0; ACCESSIBLES],
            error: [0; ACCESSIBLES],
            time: [time; ACCESSIBLES],
        },
        counts: [Counts {
            lines: 0,
            errors: 0,
            updates: 0,
        }; CLIENTS],
    }
}

// "All parameters show their initial value ..": nothing is stored, and every time is the start's.
pub fn jihfasul_start(table: &[u8], values: &[u8], time: u64) -> Done
    ensures { Begins table.now values.now time result }
{
    let number = table_number(table);
    if number != 0 {
        return quiet(number, blank(0));
    }
    if values.len() < VALUES {
        return quiet(8, blank(0));
    }
    if time > LATEST {
        return quiet(10, blank(0));
    }
    quiet(0, blank(time))
}
