// A command's argument, and the order to carry it out.
ghost use Rattle.std.specs.Prelude.{◌≡◌, drop, None};
ghost use Rattle.table.specs.Layout.{argument_at};
ghost use Rattle.table.specs.Clauses.At.{ArgumentReadable};
ghost use Rattle.fit.specs.Clauses.Verdict.{meaning};
ghost use Rattle.plain.specs.Answer.{argument_verdict};
ghost use Rattle.access.specs.Clauses.Argument.{JudgesArgument, Ordered, Reported, PutsOrder, IsOrdered};

use ascii::byte;
use fit::Misfit;
use form::{put_form, verdict};
use json_text::read::{is_text, spaces_end};
use limits::PLACE;
use outbox::write::{Told, put_final_report, put_order_command};

// "Without a declared argument only `null` is right, else WrongType.": `null` is the only value that begins with an `n`
fn null_verdict(text: &[u8]) -> Result<(), Misfit>
    ensures { meaning result ≡ argument_verdict None text.now }
{
    if !is_text(text) {
        return Err(Misfit::BadJson);
    }
    match byte(text, spaces_end(text, 0)) {
        b'n' => Ok(()),
        _ => Err(Misfit::WrongType),
    }
}

// The verdict on a text by the argument that is declared at `info`, or by none.
pub(crate) fn argument_verdict(
    table: &[u8],
    argument: bool,
    info: usize,
    text: &[u8],
) -> Result<(), Misfit>
    requires { ArgumentReadable table.now argument info }
    ensures { JudgesArgument (argument_at argument (drop info table.now)) text.now result }
{
    if argument {
        verdict(table, info, text)
    } else {
        null_verdict(text)
    }
}

// "the argument's stored form, or nothing where none is declared"
fn put_order(
    table: &[u8],
    info: usize,
    out: &mut [u8],
    client: u8,
    k: usize,
    argument: bool,
    text: &[u8],
) -> usize
    requires { Ordered table.now info out.old k argument text.now }
    ensures { PutsOrder (argument_at argument (drop info table.now)) client k text.now out.old out.new result }
{
    if !argument {
        return put_order_command(out, 0, client, k as u8, b"");
    }
    let mut form = [0u8; PLACE];
    let size = put_form(table, info, &mut form, 0, text);
    put_order_command(out, 0, client, k as u8, &form[..size])
}

// "the driver's order, then `done M:C [null,{"t":now}]`"
pub(crate) fn order(
    table: &[u8],
    info: usize,
    out: &mut [u8],
    client: u8,
    time: u64,
    k: usize,
    argument: bool,
    module: &[u8],
    name: &[u8],
    text: &[u8],
) -> usize
    requires { Ordered table.now info out.old k argument text.now × Reported «module».now name.now time }
    ensures { IsOrdered (argument_at argument (drop info table.now)) client k text.now «module».now name.now
        time out.old out.new result }
{
    let told = put_order(table, info, out, client, k, argument, text);
    put_final_report(out, told, client, Told::Done, module, name, b"null", time)
}
