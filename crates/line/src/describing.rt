// `describe`: the structure report, written after the start of its record.
ghost use Rattle.std.specs.Prelude.{ℕ};
ghost use Rattle.message.specs.Request as R;
ghost use Rattle.outcome.specs.Clauses.Ready.{Lent};
ghost use Rattle.outcome.specs.Clauses.Outcome.{ComesAtAny};

use ascii::write::put_byte;
use describe::structure::{put_report, report_length};
use outbox::write::put_describing_start;
use outcome::Outcome;

// "`describing . ` and the report"
pub(crate) fn describe(table: &[u8], out: &mut [u8], client: u8) -> Outcome
    requires { Lent table.now out.old client }
    ensures { (t : ℕ) → ComesAtAny table.now out.old client t result out.new R.describe }
{
    let size = report_length(table);
    let start = put_describing_start(out, 0, client, size);
    let end = put_report(out, start, table);
    Outcome::Sent(put_byte(out, end, 10))
}
