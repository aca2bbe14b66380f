// The status that a change of `target` sets first (M-100): which one it is, its place in the values area, and its updates. The text that it is set
// to is handed in.
ghost use Rattle.std.specs.Prelude.{◌+◌, ◌≤◌, ◌≡◌, [], length, drop};
ghost use Rattle.ascii.specs.Clauses.Writer.{Puts};
ghost use Rattle.datainfo.specs.Layout.{datainfo_at, ReadableAt};
ghost use Rattle.outbox.specs.Outbox.{encode_all};
ghost use Rattle.report.specs.Judge.{table_number};
ghost use Rattle.plain.specs.Answer.{busy};
ghost use Rattle.state.specs.Clauses.Bare.{with_lines};
ghost use Rattle.access.specs.Clauses.Busy.{StatusLow, Admits, FindsStatus, with_status, status_updates};

use ascii::names::same;
use ascii::write::put;
use fit::fit::is_fit;
use form::verdict;
use limits::PLACE;
use message::say::Sensor;
use search::find::find_parameter;
use state::Brief;
use table::layout::ParameterAt;
use update::put_updates_to;

// "If the status's datainfo doesn't admit that value, status stays as it is."
fn admitted(
    table: &[u8],
    k: usize,
    home: usize,
    q: ParameterAt,
    text: &[u8],
) -> Option<(usize, usize)>
    requires { ReadableAt table.now q.info 4 }
    ensures { Admits (datainfo_at (drop q.info table.now)) text.now k home result }
{
    is_fit(verdict(table, q.info, text)).then_some((k, home))
}

// "a parameter named `target`, in a module with a parameter named `status`": what a change of the parameter of these names sets first
pub(crate) fn status_of(
    table: &[u8],
    module: &[u8],
    name: &[u8],
    text: &[u8],
) -> Option<(usize, usize)>
    requires { (table_number table.now ≡ 0) × (text.now ≡ busy) }
    ensures { FindsStatus table.now «module».now name.now result }
{
    if !same(name, b"target") {
        return None;
    }
    let (k, home, q) = find_parameter(table, module, b"status")?;
    admitted(table, k, home, q, text)
}

// "shall first store `[300,"target changed"]` there ..": at the front of its place in the values area
pub(crate) fn store_status(values: &mut [u8], status: Option<(usize, usize)>, text: &[u8])
    requires { StatusLow status × ((16384 ≤ length values.old) × (length text.now ≤ 256)) }
    ensures { values.new ≡ with_status values.old status text.now }
{
    if let Some((k, _)) = status {
        put(values, PLACE * k, text);
    }
}

// ".. with the same time, send its updates ..": to all clients that have its module active
pub(crate) fn put_status(
    out: &mut [u8],
    at: usize,
    clients: Brief,
    status: Option<(usize, usize)>,
    module: &[u8],
    text: &[u8],
    time: u64,
) -> usize
    requires { StatusLow status × ((at + length (encode_all (status_updates (with_lines clients []) status «module».now text.now time)) ≤ length out.old)
        × (length «module».now + 6 + length text.now ≤ 1024)) }
    ensures { Puts out.old at (encode_all (status_updates (with_lines clients []) status «module».now text.now time))
        out.new result }
{
    match status {
        None => at,
        Some((_, home)) => put_updates_to(
            out,
            at,
            clients,
            home,
            module,
            b"status",
            Sensor::Works,
            text,
            time,
        ),
    }
}
