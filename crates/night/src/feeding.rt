// The trace, read and played as it comes.
ghost use Rattle.std.specs.Prelude.{length};
ghost use Rattle.replay.specs.Theorems.{Running};

use replay::{Replay, feed};
use std::io::Read;

// Whether the file may go on, whether it could not be read, and the replay.
#[derive(Clone, Copy)]
pub(crate) struct Turn {
    pub more: bool,
    pub failed: bool,
    pub replay: Replay,
}

// Reads once and plays what came. There may be more to play but at the end of the file and after a wrong record, which ends the trace: so a pipe that has no
// end is told too. Where the file can't be read, that is said.
fn feed_some<R: Read>(
    rt: &impl Eprint,
    table: &[u8],
    values: &mut [u8],
    outbox: &mut [u8],
    replay: Replay,
    trace: &mut R,
) -> Turn
    requires { Running table.now (length outbox.old) replay values.old }
    ensures { Running table.now (length outbox.old) result.replay values.new }
{
    let mut buffer = [0u8; 4096];
    let n = match trace.read(&mut buffer) {
        Ok(n) => n,
        Err(e) => {
            let _ = eprintln!(rt; "night: the trace: {e}");
            return Turn {
                more: false,
                failed: true,
                replay,
            };
        }
    };
    let next = feed(table, values, outbox, replay, &buffer[..n]);
    Turn {
        more: n != 0 && !next.reader.stopped,
        failed: false,
        replay: next,
    }
}

// All of the file, up to a wrong record. A proved loop has to end, and nothing says that a file does: it has more turns than any run uses up.
pub(crate) fn feed_all<R: Read>(
    rt: &impl Eprint,
    table: &[u8],
    values: &mut [u8],
    outbox: &mut [u8],
    replay: Replay,
    trace: &mut R,
) -> Turn
    requires { Running table.now (length outbox.old) replay values.old }
    ensures { Running table.now (length outbox.old) result.replay values.new }
{
    let mut next = replay;
    for _ in 0..u64::MAX {
        let turn = feed_some(rt, table, values, outbox, next, trace);
        next = turn.replay;
        if !turn.more {
            return turn;
        }
    }
    Turn {
        more: true,
        failed: false,
        replay: next,
    }
}
