// The value that a parameter shows, or the error in its place.
ghost use Rattle.std.specs.Prelude.{◌≤◌, ◌<◌, ◌≡◌};
ghost use Rattle.promise.specs.Shown.{not_shown, Shows};
ghost use Rattle.node.specs.Clauses.Part.{part_shown, held_shown};

use limits::{LAST_PARAMETER, PLACE};
use promise::Shown;
use rack::judge::lent_number;
use search::find::parameter_by_number;
use state::{Settings, State};
use table::layout::Part;

// A refusal.
fn not_shown(number: u8) -> Shown
    ensures { result ≡ not_shown number }
{
    Shown {
        number,
        stored: 0,
        error: 0,
        from: 0,
        size: 0,
        time: 0,
    }
}

// "Length 0 means never set ..": where the value that parameter k shows lies, in the table or in the values area.
fn part_shown(settings: Settings, k: usize, initial: Part) -> Shown
    requires { (k < 64) × (initial.from ≤ initial.to) }
    ensures { result ≡ part_shown settings k initial }
{
    let size = settings.length[k] as usize;
    let time = settings.time[k];
    if size == 0 {
        return Shown {
            number: 0,
            stored: 0,
            error: 0,
            from: initial.from,
            size: initial.to - initial.from,
            time,
        };
    }
    Shown {
        number: 0,
        stored: 1,
        error: 0,
        from: PLACE * k,
        size,
        time,
    }
}

// Of a parameter that can't be read, the class of its error in the place of a part.
fn held_shown(settings: Settings, k: usize, initial: Part) -> Shown
    requires { (k < 64) × (initial.from ≤ initial.to) }
    ensures { result ≡ held_shown settings k initial }
{
    let errors = settings.error;
    let error = errors[k];
    if error == 0 {
        return part_shown(settings, k, initial);
    }
    let times = settings.time;
    Shown {
        number: 0,
        stored: 0,
        error,
        from: 0,
        size: 0,
        time: times[k],
    }
}

// A parameter's number is "from 0 in table order over parameters only"; a table has 64 at most. Number 14: "no such parameter number".
pub fn jihfasul_value(table: &[u8], values: &[u8], state: State, parameter: u64) -> Shown
    ensures { Shows table.now values.now state parameter result }
{
    let number = lent_number(table, values, false, b"", state, 0);
    if number != 0 {
        return not_shown(number);
    }
    if parameter > LAST_PARAMETER {
        return not_shown(14);
    }
    let k = parameter as usize;
    let Some((p, _)) = parameter_by_number(table, k) else {
        return not_shown(14);
    };
    held_shown(state.settings, k, p.initial)
}
