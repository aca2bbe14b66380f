// What a change would store is told.
ghost use Rattle.std.specs.Prelude.{◌≤◌, length, drop};
ghost use Rattle.datainfo.specs.Layout.{datainfo_in};
ghost use Rattle.form.specs.Clauses.Formed.{FitsAt};
ghost use Rattle.access.specs.Clauses.Argument.{Reported};
ghost use Rattle.access.specs.Clauses.Told.{PutsChecked};

use form::put_form;
use limits::PLACE;
use outbox::write::{Told, put_final_report};

// "`checked M:P [value,{"t":now}]` with the stored form": it is written to bytes of its own, and not to the values area.
pub(crate) fn put_checked(
    table: &[u8],
    info: usize,
    out: &mut [u8],
    client: u8,
    time: u64,
    module: &[u8],
    name: &[u8],
    text: &[u8],
) -> usize
    requires { (32768 ≤ length out.old) × (Reported «module».now name.now time × FitsAt table.now info text.now) }
    ensures { PutsChecked (datainfo_in 4 (drop info table.now)) client «module».now name.now text.now time
        out.old out.new result }
{
    let mut form = [0u8; PLACE];
    let size = put_form(table, info, &mut form, 0, text);
    put_final_report(
        out,
        0,
        client,
        Told::Checked,
        module,
        name,
        &form[..size],
        time,
    )
}
