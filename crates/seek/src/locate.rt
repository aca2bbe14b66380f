// The accessible of two names, sought with an index or without one.
ghost use Rattle.std.specs.Prelude.{◌≡◌};
ghost use Rattle.table.specs.Layout.{table_of};
ghost use Rattle.report.specs.Judge.{table_number};
ghost use Rattle.search.specs.Clauses.Found.{Locates};
ghost use Rattle.index.specs.Accessibles.{seek_steps};
ghost use Rattle.seek.specs.Clauses.Seek.{Counted, located_as};

use crate::look::seek;
use crate::walk::Walk;
use search::find::find_module;
use search::locate::Located;
use table::layout::Accessible;

// What is located, and the steps of the search.
#[derive(Clone, Copy)]
pub struct Placed {
    pub located: Located,
    pub steps: usize,
}

// What is found by its names, with its number among its kind and its module's number.
fn located(found: Option<(Accessible, Walk)>) -> Located
    requires { Counted found }
    ensures { result ≡ located_as found }
{
    let Some((a, v)) = found else {
        return Located::Nothing;
    };
    let c = v.cursor;
    let home = c.modules - 1;
    match a {
        Accessible::Parameter(q) => Located::Parameter(v.parameters - 1, home, q),
        Accessible::Command(q) => Located::Command(v.commands - 1, home, q),
    }
}

// In an accepted table, whatever the index holds.
pub fn locate(s: &[u8], index: &[u8], module: &[u8], name: &[u8]) -> Placed
    requires { table_number s.now ≡ 0 }
    ensures { Locates s.now «module».now name.now result.located
        × (result.steps ≡ seek_steps (table_of s.now) index.now «module».now name.now) }
{
    let Some((_, _)) = find_module(s, module) else {
        return Placed {
            located: Located::NoModule,
            steps: 0,
        };
    };
    let sought = seek(s, index, module, name);
    let found = sought.found;
    Placed {
        located: located(found),
        steps: sought.steps,
    }
}
