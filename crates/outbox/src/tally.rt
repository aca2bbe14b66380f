// What is sent to a client, counted by reading the records off an outbox.
ghost use Rattle.std.specs.Prelude.{◌≡◌, List, ◌+◌, ◌≤◌, drop};
ghost use Rattle.ascii.specs.Text.{bytes};
ghost use Rattle.message.specs.Reply.{begins};
ghost use Rattle.outbox.specs.Outbox.{Record};
ghost use Rattle.outbox.specs.Clauses.Tallied.{size_at, is_to, error_at, update_at, Holds, tally_of};

use ascii::byte;

// Errors replied to a client, and updates sent to it.
#[derive(Clone, Copy)]
pub struct Tally {
    pub errors: u32,
    pub updates: u32,
}

// Whether what stands at a position begins `error_`.
fn is_error(out: &[u8], at: usize) -> bool
    ensures { result ≡ begins (bytes "error_") (drop at out.now) }
{
    at <= out.len() && out[at..].starts_with(b"error_")
}

// Whether the record at a position has a mark that begins with this byte, and is to this client.
fn is_to(out: &[u8], at: usize, mark: u8, client: u8) -> bool
    requires { at ≤ 65536 }
    ensures { result ≡ is_to out.now at mark client }
{
    byte(out, at) == mark && byte(out, at + 2) == client
}

// 1 where it is an error that is replied to the client.
fn error_at(out: &[u8], at: usize, client: u8) -> u32
    requires { at ≤ 65536 }
    ensures { result ≡ error_at out.now at client }
{
    u32::from(is_to(out, at, b'R', client) && is_error(out, at + 5))
}

// 1 where it is an update to the client.
fn update_at(out: &[u8], at: usize, client: u8) -> u32
    requires { at ≤ 65536 }
    ensures { result ≡ update_at out.now at client }
{
    u32::from(is_to(out, at, b'U', client))
}

// The position after it.
fn past_record(out: &[u8], at: usize) -> usize
    requires { at ≤ 65536 }
    ensures { result ≡ at + 5 + size_at out.now at }
{
    at + 5 + u16::from_be_bytes([byte(out, at + 3), byte(out, at + 4)]) as usize
}

// Of the records in the first `written` bytes.
pub fn sent_to(out: &[u8], written: usize, client: u8) -> Tally
    requires { written ≤ 65536 }
    ensures { (rs : List Record) → Holds out.now written rs → result ≡ tally_of client rs }
{
    let mut errors = 0;
    let mut updates = 0;
    let mut at = 0;
    while at < written {
        errors += error_at(out, at, client);
        updates += update_at(out, at, client);
        at = past_record(out, at);
    }
    Tally { errors, updates }
}
