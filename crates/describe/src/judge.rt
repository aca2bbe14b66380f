// The number that a table is answered with.
ghost use Rattle.std.specs.Prelude.{◌≡◌};
ghost use Rattle.report.specs.Judge.{table_number};

use crate::structure::report_length;
use limits::REPORT;
use table::judge::number_below_6;

// The lowest of the numbers 1 to 6 that are the table's, or 0.
pub fn table_number(s: &[u8]) -> u8
    ensures { result ≡ table_number s.now }
{
    let n = number_below_6(s);
    if n != 0 {
        return n;
    }
    if REPORT < report_length(s) {
        return 6;
    }
    0
}
