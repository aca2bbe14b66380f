// The search that a request needs, with an index or without one.
ghost use Rattle.std.specs.Prelude.{◌≡◌};
ghost use Rattle.message.specs.Clauses.Parsed.{Inside};
ghost use Rattle.report.specs.Judge.{table_number};
ghost use Rattle.line.specs.Clauses.Names.{names_of, SoughtFor};

use crate::conclude::bytes_of;
use crate::named::is_built;
use message::line::{Part, Request, Verb};
use search::locate::Located;
use seek::locate::{Placed, locate};

fn names_of(asked: Request) -> Option<(Verb, Part, Part)>
    ensures { result ≡ names_of asked }
{
    match asked {
        Request::Identify => None,
        Request::Describe => None,
        Request::Ping => None,
        Request::All(_) => None,
        Request::Scoped(_, _) => None,
        Request::Named(verb, m, a) => Some((verb, m, a)),
        Request::Count => None,
        Request::Malformed => None,
    }
}

// "only a line's `M:P` or `M:C`"; of a verb that the table's edition doesn't have nothing is sought
pub(crate) fn sought(table: &[u8], index: &[u8], line: &[u8], asked: Request) -> Placed
    requires { (table_number table.now ≡ 0) × Inside line.now asked }
    ensures { SoughtFor table.now index.now line.now asked result }
{
    let Some((verb, m, a)) = names_of(asked) else {
        return Placed {
            located: Located::NoModule,
            steps: 0,
        };
    };
    if !is_built(table, verb) {
        return Placed {
            located: Located::NoModule,
            steps: 0,
        };
    }
    locate(table, index, bytes_of(line, m), bytes_of(line, a))
}
