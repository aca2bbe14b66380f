// The structure report of a table that can be read.
ghost use Rattle.std.specs.Prelude.{◌≡◌, ◌++◌, ◌≤◌, length, drop};
ghost use Rattle.ascii.specs.Text.{bytes};
ghost use Rattle.ascii.specs.Clauses.Writer.{Puts};
ghost use Rattle.json_text.specs.Json.{quoted};
ghost use Rattle.datainfo.specs.Layout.{datainfo_in};
ghost use Rattle.table.specs.Table.{parameter, command};
ghost use Rattle.table.specs.Layout.{argument_at, module_at, Readable, table_of};
ghost use Rattle.table.specs.Clauses.At.{bytes_of, Inside, accessible_at, accessibles_from, modules_from, parameter_of, command_of};
ghost use Rattle.report.specs.Report.{report};
ghost use Rattle.emit.specs.Clauses.Emitted.{capped, Emits, told, Says};
ghost use Rattle.describe.specs.Clauses.Texts.{readonly_text, argument_text, accessible_text, accessibles_text, module_text, modules_text, texts_text};
ghost use Rattle.describe.specs.Clauses.Room.{RoomFor};

use emit::{emit, emit_comma, emit_key, emit_string};
use infos::{emit_datainfo, emit_own};
use limits::DATAINFO_LEVELS;
use table::layout::{
    Accessible, CommandAt, ParameterAt, Part, accessible_at, accessible_end, head_at, heading_at,
    is_accessible, is_module, module_end,
};

// A part of the table as a key.
fn emit_part_key(out: &mut [u8], at: usize, s: &[u8], p: Part) -> usize
    requires { Inside s.now p }
    ensures { Emits out.old at (quoted (bytes_of s.now p) ++ bytes ":") out.new result }
{
    emit_key(out, at, &s[p.from..p.to])
}

// A part of the table as a string.
fn emit_part(out: &mut [u8], at: usize, s: &[u8], p: Part) -> usize
    requires { Inside s.now p }
    ensures { Emits out.old at (quoted (bytes_of s.now p)) out.new result }
{
    emit_string(out, at, &s[p.from..p.to])
}

// The same with what stands before it.
fn emit_text(out: &mut [u8], at: usize, label: &[u8], s: &[u8], p: Part) -> usize
    requires { Inside s.now p }
    ensures { Emits out.old at (label.now ++ quoted (bytes_of s.now p)) out.new result }
{
    let a = emit(out, at, label);
    emit_part(out, a, s, p)
}

// The name of a module or an accessible, and its description after what stands before that.
fn emit_named(
    out: &mut [u8],
    at: usize,
    label: &[u8],
    s: &[u8],
    name: Part,
    description: Part,
) -> usize
    requires { Inside s.now name × Inside s.now description }
    ensures { Emits out.old at (quoted (bytes_of s.now name) ++ bytes ":"
        ++ (label.now ++ quoted (bytes_of s.now description))) out.new result }
{
    let a = emit_part_key(out, at, s, name);
    emit_text(out, a, label, s, description)
}

// Whether a parameter is read only, up to its datainfo.
fn emit_readonly(out: &mut [u8], at: usize, readonly: bool) -> usize
    ensures { Emits out.old at (readonly_text readonly) out.new result }
{
    if readonly {
        emit(out, at, b",\"readonly\":true,\"datainfo\":")
    } else {
        emit(out, at, b",\"readonly\":false,\"datainfo\":")
    }
}

fn emit_parameter(out: &mut [u8], at: usize, s: &[u8], q: ParameterAt) -> usize
    requires { (Inside s.now q.name × Inside s.now q.description) × (q.info ≤ length s.now) }
    ensures { Says (told (λ d. accessible_text (parameter (parameter_of s.now q d))) (datainfo_in 4 (drop q.info s.now)))
        out.old at out.new result }
{
    let a = emit_named(out, at, b"{\"description\":", s, q.name, q.description);
    let b = emit_readonly(out, a, q.readonly);
    let c = emit_own(out, b, s, q.info);
    emit(out, c, b"}")
}

// A command's argument, if it has one.
fn emit_argument(out: &mut [u8], at: usize, s: &[u8], i: usize, has: bool) -> usize
    requires { i ≤ length s.now }
    ensures { Says (told argument_text (argument_at has (drop i s.now))) out.old at out.new result }
{
    if has {
        let a = emit(out, at, b",\"argument\":");
        return emit_datainfo(out, a, s, i, DATAINFO_LEVELS);
    }
    at
}

fn emit_command(out: &mut [u8], at: usize, s: &[u8], q: CommandAt) -> usize
    requires { (Inside s.now q.name × Inside s.now q.description) × (q.info ≤ length s.now) }
    ensures { Says (told (λ a. accessible_text (command (command_of s.now q a))) (argument_at q.argument (drop q.info s.now)))
        out.old at out.new result }
{
    let a = emit_named(out, at, b"{\"description\":", s, q.name, q.description);
    let b = emit(out, a, b",\"datainfo\":{\"type\":\"command\"");
    let c = emit_argument(out, b, s, q.info, q.argument);
    emit(out, c, b"}}")
}

fn emit_accessible(out: &mut [u8], at: usize, s: &[u8], i: usize) -> usize
    requires { i ≤ length s.now }
    ensures { Says (told accessible_text (accessible_at (length s.now) (drop i s.now))) out.old at out.new result }
{
    match accessible_at(s, i) {
        Some(Accessible::Parameter(q)) => emit_parameter(out, at, s, q),
        Some(Accessible::Command(q)) => emit_command(out, at, s, q),
        None => at,
    }
}

// The accessibles that follow, with commas between them.
fn emit_accessibles(out: &mut [u8], at: usize, s: &[u8], i: usize) -> usize
    requires { i ≤ length s.now }
    ensures { Says (told accessibles_text (accessibles_from s.now i)) out.old at out.new result }
{
    let mut p = at;
    let mut j = i;
    let mut first = true;
    while is_accessible(s, j) {
        let Some(e) = accessible_end(s, j) else {
            return p;
        };
        let c = emit_comma(out, p, first);
        p = emit_accessible(out, c, s, j);
        first = false;
        j = e;
    }
    p
}

// A module, without its note.
fn emit_module(out: &mut [u8], at: usize, s: &[u8], i: usize) -> usize
    requires { i ≤ length s.now }
    ensures { Says (told module_text (module_at (length s.now) (drop i s.now))) out.old at out.new result }
{
    let Some(m) = heading_at(s, i) else {
        return at;
    };
    let label = b"{\"interface_classes\":[],\"description\":";
    let a = emit_named(out, at, label, s, m.name, m.description);
    let b = emit(out, a, b",\"accessibles\":{");
    let c = emit_accessibles(out, b, s, m.next);
    emit(out, c, b"}}")
}

// The modules that follow, with commas between them.
fn emit_modules(out: &mut [u8], at: usize, s: &[u8], i: usize) -> usize
    requires { i ≤ length s.now }
    ensures { Says (told modules_text (modules_from s.now i)) out.old at out.new result }
{
    let mut p = at;
    let mut j = i;
    let mut first = true;
    while is_module(s, j) {
        let Some(e) = module_end(s, j) else {
            return p;
        };
        let c = emit_comma(out, p, first);
        p = emit_module(out, c, s, j);
        first = false;
        j = e;
    }
    p
}

// What stands after the modules.
fn emit_texts(out: &mut [u8], at: usize, s: &[u8], id: Part, description: Part) -> usize
    requires { Inside s.now id × Inside s.now description }
    ensures { Emits out.old at (texts_text (bytes_of s.now id) (bytes_of s.now description)) out.new result }
{
    let a = emit_text(out, at, b"},\"equipment_id\":", s, id);
    let b = emit_text(out, a, b",\"description\":", s, description);
    emit(out, b, b"}")
}

// The report at a position of a lent buffer: written if it has room, and measured in any case.
fn emit_report(out: &mut [u8], at: usize, s: &[u8]) -> usize
    requires { Readable s.now }
    ensures { Emits out.old at (report (table_of s.now)) out.new result }
{
    let Some(h) = head_at(s) else {
        return at;
    };
    let a = emit(out, at, b"{\"modules\":{");
    let b = emit_modules(out, a, s, h.first);
    emit_texts(out, b, s, h.id, h.description)
}

// How long the report of the table s is.
pub fn report_length(s: &[u8]) -> usize
    requires { Readable s.now }
    ensures { result ≡ capped (length (report (table_of s.now))) }
{
    let mut nothing: [u8; 0] = [];
    emit_report(&mut nothing, 0, s)
}

// The report of the table s, written at a position of a lent buffer that has room for it; the position after it is answered.
pub fn put_report(out: &mut [u8], at: usize, s: &[u8]) -> usize
    requires { RoomFor s.now at out.old }
    ensures { Puts out.old at (report (table_of s.now)) out.new result }
{
    emit_report(out, at, s)
}
