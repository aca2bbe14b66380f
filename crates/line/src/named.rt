// `read`, `change`, `do` and `check`: what the verb does with the accessible that is located is carried out.
ghost use Rattle.std.specs.Prelude.{◌≤◌, ◌≡◌, true, length};
ghost use Rattle.ascii.specs.Bytes.{is_some};
ghost use Rattle.ascii.specs.Numbers.{latest};
ghost use Rattle.search.specs.Clauses.Found.{ParameterLocated, CommandLocated, Locates};
ghost use Rattle.message.specs.Clauses.Parsed.{verb_request};
ghost use Rattle.outcome.specs.Clauses.Ready.{Lent, Ready};
ghost use Rattle.outcome.specs.Clauses.Outcome.{Comes, ComesAtAny};
ghost use Rattle.table.specs.Layout.{Readable, table_of};
ghost use Rattle.line.specs.Clauses.Asked.{missing_of, is_built};
ghost use Rattle.state.specs.Clauses.Bare.{unlined};

use access::{change, check, execute, read};
use message::line::Verb;
use message::say::Class;
use outcome::Outcome;
use search::locate::Located;
use state::Bare;
use table::edition::edition_of;
use table::layout::{CommandAt, ParameterAt};

// The error where what a verb takes is not there.
fn missing(verb: Verb) -> Class
    ensures { result ≡ missing_of verb }
{
    match verb {
        Verb::Read => Class::NoSuchParameter,
        Verb::Change => Class::NoSuchParameter,
        Verb::Execute => Class::NoSuchCommand,
        Verb::Check => Class::NoSuchParameter,
    }
}

// Whether a table has an `ED` record.
fn is_edited(table: &[u8]) -> bool
    requires { Readable table.now }
    ensures { result ≡ is_some (table_of table.now).edition }
{
    match edition_of(table) {
        Some(_) => true,
        None => false,
    }
}

// Whether the table's edition has a verb: `check` came with the next one.
pub(crate) fn is_built(table: &[u8], verb: Verb) -> bool
    requires { Readable table.now }
    ensures { result ≡ is_built (table_of table.now) verb }
{
    match verb {
        Verb::Check => is_edited(table),
        Verb::Read => true,
        Verb::Change => true,
        Verb::Execute => true,
    }
}

// What a verb comes to at a parameter. "A command is no parameter, and the reverse."
fn at_parameter(
    table: &[u8],
    values: &mut [u8],
    out: &mut [u8],
    state: Bare,
    client: u8,
    time: u64,
    verb: Verb,
    k: usize,
    home: usize,
    q: ParameterAt,
    module: &[u8],
    name: &[u8],
    text: &[u8],
) -> Outcome
    requires { Ready table.now (unlined state) values.old out.old client × ((time ≤ latest)
        × (ParameterLocated table.now «module».now name.now k home q × ((is_built (table_of table.now) verb ≡ true) × (length text.now ≤ 1024)))) }
    ensures { Comes table.now (unlined state) values.old out.old client time result values.new out.new
        (verb_request verb text.now «module».now name.now) }
{
    match verb {
        Verb::Read => read(table, values, out, state, client, k, home, q, module, name),
        Verb::Change => change(
            table, values, out, state, client, time, k, home, q, module, name, text,
        ),
        Verb::Execute => Outcome::Denied(Class::NoSuchCommand),
        Verb::Check => check(
            table, values, out, state, client, time, k, home, q, module, name, text,
        ),
    }
}

// What a verb comes to at a command.
fn at_command(
    table: &[u8],
    out: &mut [u8],
    client: u8,
    time: u64,
    verb: Verb,
    k: usize,
    home: usize,
    q: CommandAt,
    module: &[u8],
    name: &[u8],
    text: &[u8],
) -> Outcome
    requires { Lent table.now out.old client × ((time ≤ latest) × (CommandLocated table.now «module».now name.now k home q
        × (is_built (table_of table.now) verb ≡ true))) }
    ensures { ComesAtAny table.now out.old client time result out.new
        (verb_request verb text.now «module».now name.now) }
{
    match verb {
        Verb::Execute => execute(table, out, client, time, k, home, q, module, name, text),
        Verb::Read => Outcome::Denied(Class::NoSuchParameter),
        Verb::Change => Outcome::Denied(Class::NoSuchParameter),
        Verb::Check => Outcome::Denied(Class::NoSuchParameter),
    }
}

// "Order: .., NoSuchModule, NoSuchParameter or NoSuchCommand, ..", of a verb that the table's edition has
fn located(
    table: &[u8],
    values: &mut [u8],
    out: &mut [u8],
    state: Bare,
    client: u8,
    time: u64,
    verb: Verb,
    located: Located,
    module: &[u8],
    name: &[u8],
    text: &[u8],
) -> Outcome
    requires { Ready table.now (unlined state) values.old out.old client × ((time ≤ latest) × ((is_built (table_of table.now) verb ≡ true)
        × ((length text.now ≤ 1024) × Locates table.now «module».now name.now located))) }
    ensures { Comes table.now (unlined state) values.old out.old client time result values.new out.new
        (verb_request verb text.now «module».now name.now) }
{
    match located {
        Located::NoModule => Outcome::Denied(Class::NoSuchModule),
        Located::Nothing => Outcome::Denied(missing(verb)),
        Located::Parameter(k, home, q) => at_parameter(
            table, values, out, state, client, time, verb, k, home, q, module, name, text,
        ),
        Located::Command(k, h, q) => {
            at_command(table, out, client, time, verb, k, h, q, module, name, text)
        }
    }
}

// "Without the record both stay as in document 01.": a verb that the edition doesn't have is "Anything else: ProtocolError."
pub(crate) fn named(
    table: &[u8],
    values: &mut [u8],
    out: &mut [u8],
    state: Bare,
    client: u8,
    time: u64,
    verb: Verb,
    found: Located,
    module: &[u8],
    name: &[u8],
    text: &[u8],
) -> Outcome
    requires { Ready table.now (unlined state) values.old out.old client × ((time ≤ latest) × ((length text.now ≤ 1024)
        × ((is_built (table_of table.now) verb ≡ true) → Locates table.now «module».now name.now found))) }
    ensures { Comes table.now (unlined state) values.old out.old client time result values.new out.new
        (verb_request verb text.now «module».now name.now) }
{
    if !is_built(table, verb) {
        return Outcome::Denied(Class::ProtocolError);
    }
    located(
        table, values, out, state, client, time, verb, found, module, name, text,
    )
}
