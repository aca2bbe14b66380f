// Whether a state is unfit for a table and a values area: number 9.
#![tactic(auto)]

ghost use Rattle.std.specs.Prelude.{◌≡◌, ◌≤◌, ◌<◌, length, drop};
ghost use Rattle.datainfo.specs.Layout.{datainfo_at, ReadableAt};
ghost use Rattle.table.specs.Layout.{table_of};
ghost use Rattle.table.specs.Search.{parameters};
ghost use Rattle.report.specs.Judge.{table_number};
ghost use Rattle.state.specs.Clauses.Bare.{lined};
ghost use Rattle.state.specs.Fit.{is_unfit, settings_unfit};
ghost use Rattle.fitness.specs.Clauses.Unfit.{TellsUnfit};

use form::is_stored;
use limits::{ACCESSIBLES, LATEST, PLACE};
use search::cursor::{first_cursor, next_parameter};
use search::find::module_count;
use state::client::clients_unfit;
use state::{Bare, Settings};

// "a stored length is over 256 ..": see `state/Fit.setting_unfit`. The value is judged where one is stored.
fn setting_unfit(table: &[u8], values: &[u8], settings: Settings, k: usize, info: usize) -> bool
    requires { ReadableAt table.now info 4 × ((k < 64) × (16384 ≤ length values.now)) }
    ensures { TellsUnfit settings values.now k (datainfo_at (drop info table.now)) result }
{
    let lengths = settings.length;
    let times = settings.time;
    let errors = settings.error;
    let size = lengths[k] as usize;
    if size > PLACE {
        return true;
    }
    if times[k] > LATEST {
        return true;
    }
    if errors[k] > 4 {
        return true;
    }
    if size == 0 {
        return false;
    }
    let at = PLACE * k;
    !is_stored(table, info, &values[at..at + size])
}

// "Places past the last parameter are not looked at." An accepted table has at most 64 accessibles.
fn settings_unfit(table: &[u8], values: &[u8], settings: Settings) -> bool
    requires { (table_number table.now ≡ 0) × (16384 ≤ length values.now) }
    ensures { result ≡ settings_unfit settings values.now 0 (parameters (table_of table.now)) }
{
    let mut cursor = first_cursor(table);
    for k in 0..ACCESSIBLES {
        let Some((p, next)) = next_parameter(table, cursor) else {
            return false;
        };
        if setting_unfit(table, values, settings, k, p.info) {
            return true;
        }
        cursor = next;
    }
    false
}

// "State is unfit if, for this table: ..": a client is at fault, or a stored value is. The state's lines are lent beside it.
pub fn is_unfit(table: &[u8], values: &[u8], state: Bare, lines: &[u8]) -> bool
    requires { (table_number table.now ≡ 0) × ((16384 ≤ length values.now) × (length lines.now ≡ 8192)) }
    ensures { result ≡ is_unfit (table_of table.now) (lined state lines.now) values.now }
{
    clients_unfit(state.clients, lines, module_count(table))
        || settings_unfit(table, values, state.settings)
}
