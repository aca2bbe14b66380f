// A client's line: taken apart, carried out, and answered.
#![tactic(auto)]

ghost use Rattle.std.specs.Prelude.{◌≤◌, length};
ghost use Rattle.ascii.specs.Numbers.{latest};
ghost use Rattle.message.specs.Clauses.Parsed.{Parted, Asks};
ghost use Rattle.outcome.specs.Clauses.Ready.{Ready};
ghost use Rattle.line.specs.Clauses.Answered.{AnswersLine, RepliesLine};
ghost use Rattle.line.specs.Clauses.Names.{names_of, LocatedAt};
ghost use Rattle.state.specs.Clauses.Bare.{unlined};

use conclude::{bytes_of, conclude};
use locating::sought;
use message::line::{Part, Request, part_line, request_of};
use message::say::{Class, Denial};
use outbox::write::put_final_error;
use outcome::{Answered, Replied};
use request::outcome;
use search::locate::Located;
use state::Bare;

mod conclude;
mod describing;
mod locating;
mod named;
mod request;
mod scoped;

// The answer to a line with these parts, of which the request and what its names locate are known.
fn answer_parts(
    table: &[u8],
    values: &mut [u8],
    out: &mut [u8],
    state: Bare,
    client: u8,
    time: u64,
    line: &[u8],
    action: Part,
    specifier: Part,
    payload: Part,
    asked: Request,
    located: Located,
) -> Answered
    requires { Ready table.now (unlined state) values.old out.old client × ((time ≤ latest) × ((length line.now ≤ 1024)
        × (Parted line.now action specifier payload
        × (Asks line.now action specifier asked × LocatedAt table.now line.now (names_of asked) located)))) }
    ensures { AnswersLine table.now state values.old out.old client time line.now result
        values.new out.new }
{
    let came = outcome(
        table, values, out, state, client, time, line, specifier, payload, asked, located,
    );
    conclude(
        out,
        state,
        client,
        time,
        bytes_of(line, action),
        bytes_of(line, specifier),
        came,
    )
}

// The request is read, its accessible sought, and the line answered.
fn reply_parts(
    table: &[u8],
    values: &mut [u8],
    out: &mut [u8],
    state: Bare,
    client: u8,
    time: u64,
    index: &[u8],
    line: &[u8],
    action: Part,
    specifier: Part,
    payload: Part,
) -> Replied
    requires { Ready table.now (unlined state) values.old out.old client × ((time ≤ latest) × ((length line.now ≤ 1024)
        × Parted line.now action specifier payload)) }
    ensures { RepliesLine table.now state values.old out.old client time index.now
        line.now result values.new out.new }
{
    let asked = request_of(line, action, specifier);
    let found = sought(table, index, line, asked);
    let located = found.located;
    let answered = answer_parts(
        table, values, out, state, client, time, line, action, specifier, payload, asked, located,
    );
    Replied {
        answered,
        steps: found.steps,
    }
}

// "Otherwise action, specifier and data are parted ..": the answer to each request; a line that says nothing is ProtocolError with empty words
pub fn answer_line(
    table: &[u8],
    values: &mut [u8],
    out: &mut [u8],
    state: Bare,
    client: u8,
    time: u64,
    index: &[u8],
    line: &[u8],
) -> Replied
    requires { Ready table.now (unlined state) values.old out.old client × ((time ≤ latest) × (length line.now ≤ 1024)) }
    ensures { RepliesLine table.now state values.old out.old client time index.now
        line.now result values.new out.new }
{
    let Some(parts) = part_line(line) else {
        let denial = Denial::Class(Class::ProtocolError);
        let written = put_final_error(out, 0, client, b"", b"", denial);
        return Replied {
            answered: Answered { state, written },
            steps: 0,
        };
    };
    reply_parts(
        table,
        values,
        out,
        state,
        client,
        time,
        index,
        line,
        parts.action,
        parts.specifier,
        parts.payload,
    )
}
