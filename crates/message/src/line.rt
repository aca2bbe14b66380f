// A client's line taken apart: its content, the three parts of it, and what it asks for.
ghost use Rattle.std.specs.Prelude.{◌≡◌, ◌≤◌, length};
ghost use Rattle.ascii.specs.Bytes.{all, is_space};
ghost use Rattle.ascii.specs.Names.{is_name};
ghost use Rattle.message.specs.Line.{without_return, content, whole};
ghost use Rattle.message.specs.Clauses.Parsed.{Within, part, UpTo, Stops, Goes, Cuts, Parses, action_of, AsksScoped, AsksNamed, Asks};

use ascii::names::{all_printable, all_spaces, is_name, same};

// A part of a line: from a position up to another.
#[derive(Clone, Copy)]
pub struct Part {
    pub from: usize,
    pub to: usize,
}

// A part cut at the first and the second of some byte. What is missing is empty.
#[derive(Clone, Copy)]
struct Cut {
    pub first: Part,
    pub second: Part,
    pub rest: Part,
}

// The three parts of a line that has content.
#[derive(Clone, Copy)]
pub struct Line {
    pub action: Part,
    pub specifier: Part,
    pub payload: Part,
}

// Whether modules are switched on or off.
#[derive(Clone, Copy)]
pub enum Switch {
    On,
    Off,
}

// What is done with an accessible.
#[derive(Clone, Copy)]
pub enum Verb {
    Read,
    Change,
    Execute,
    Check,
}

// The words that an action may be.
#[derive(Clone, Copy)]
enum Action {
    Identify,
    Describe,
    Ping,
    Scoped(Switch),
    Named(Verb),
    Count,
    Unknown,
}

// What a line asks for, of all modules, of one or of an accessible, with the parts of the line that hold the module's and the accessible's name.
#[derive(Clone, Copy)]
pub enum Request {
    Identify,
    Describe,
    Ping,
    All(Switch),
    Scoped(Switch, Part),
    Named(Verb, Part, Part),
    Count,
    Malformed,
}

// Where a line ends without one final carriage return.
fn return_end(line: &[u8]) -> usize
    ensures { UpTo line.now result (without_return line.now) }
{
    if line.ends_with(b"\r") {
        line.len() - 1
    } else {
        line.len()
    }
}

// Where the content of a line ends: at 0 where a byte is outside 32 to 126.
fn content_end(line: &[u8]) -> usize
    ensures { UpTo line.now result (content (whole line.now)) }
{
    let end = return_end(line);
    if all_printable(&line[..end]) { end } else { 0 }
}

// The position of the first `stop` from a position on, or the end.
fn find(s: &[u8], from: usize, stop: u8) -> usize
    requires { from ≤ length s.now }
    ensures { Stops s.now from stop result }
{
    let rest = &s[from..];
    from + rest.iter().position(|b| *b == stop).unwrap_or(rest.len())
}

// The position after the byte at a position, or the end.
fn past(s: &[u8], at: usize) -> usize
    requires { at ≤ length s.now }
    ensures { Goes s.now at result }
{
    if at < s.len() { at + 1 } else { at }
}

// A part cut at the first and the second `stop`.
fn cut_at(line: &[u8], whole: Part, stop: u8) -> Cut
    requires { Within line.now whole }
    ensures { Cuts line.now whole stop result }
{
    let s = &line[..whole.to];
    let first = find(s, whole.from, stop);
    let next = past(s, first);
    let second = find(s, next, stop);
    Cut {
        first: Part {
            from: whole.from,
            to: first,
        },
        second: Part {
            from: next,
            to: second,
        },
        rest: Part {
            from: past(s, second),
            to: whole.to,
        },
    }
}

// A line's action, specifier and data, parted at the first and second space.
pub fn part_line(line: &[u8]) -> Option<Line>
    ensures { Parses line.now result }
{
    let end = content_end(line);
    if end == 0 {
        return None;
    }
    let cut = cut_at(line, Part { from: 0, to: end }, b' ');
    Some(Line {
        action: cut.first,
        specifier: cut.second,
        payload: cut.rest,
    })
}

// The word that an action is.
fn action_of(word: &[u8]) -> Action
    ensures { result ≡ action_of word.now }
{
    if same(word, b"*IDN?") {
        return Action::Identify;
    }
    if same(word, b"describe") {
        return Action::Describe;
    }
    if same(word, b"ping") {
        return Action::Ping;
    }
    if same(word, b"activate") {
        return Action::Scoped(Switch::On);
    }
    if same(word, b"deactivate") {
        return Action::Scoped(Switch::Off);
    }
    if same(word, b"read") {
        return Action::Named(Verb::Read);
    }
    if same(word, b"change") {
        return Action::Named(Verb::Change);
    }
    if same(word, b"do") {
        return Action::Named(Verb::Execute);
    }
    if same(word, b"check") {
        return Action::Named(Verb::Check);
    }
    if same(word, b"_count") {
        return Action::Count;
    }
    Action::Unknown
}

// Whether the bytes of a part are a name.
fn is_name_part(line: &[u8], name: Part) -> bool
    requires { Within line.now name }
    ensures { result ≡ is_name (part line.now name) }
{
    is_name(&line[name.from..name.to])
}

// All modules, or the one whose name stands before the first `:`.
fn scoped_request(line: &[u8], specifier: Part, switch: Switch) -> Request
    requires { Within line.now specifier }
    ensures { AsksScoped line.now specifier switch result }
{
    if specifier.from == specifier.to {
        return Request::All(switch);
    }
    let cut = cut_at(line, specifier, b':');
    if is_name_part(line, cut.first) {
        Request::Scoped(switch, cut.first)
    } else {
        Request::Malformed
    }
}

// An accessible, by its module's name before the first `:` and its own up to the second or to the end.
fn named_request(line: &[u8], specifier: Part, verb: Verb) -> Request
    requires { Within line.now specifier }
    ensures { AsksNamed line.now specifier verb result }
{
    let cut = cut_at(line, specifier, b':');
    if is_name_part(line, cut.first) && is_name_part(line, cut.second) {
        Request::Named(verb, cut.first, cut.second)
    } else {
        Request::Malformed
    }
}

// What a line asks for, by its action and specifier.
pub fn request_of(line: &[u8], action: Part, specifier: Part) -> Request
    requires { (Within line.now action) × (Within line.now specifier) }
    ensures { Asks line.now action specifier result }
{
    match action_of(&line[action.from..action.to]) {
        Action::Identify => Request::Identify,
        Action::Describe => Request::Describe,
        Action::Ping => Request::Ping,
        Action::Scoped(switch) => scoped_request(line, specifier, switch),
        Action::Named(verb) => named_request(line, specifier, verb),
        Action::Count => Request::Count,
        Action::Unknown => Request::Malformed,
    }
}

// Whether data is missing or all spaces, which makes it `null`.
pub fn is_null(line: &[u8], payload: Part) -> bool
    requires { Within line.now payload }
    ensures { result ≡ all is_space (part line.now payload) }
{
    all_spaces(&line[payload.from..payload.to])
}
