// What follows from an outcome: an error is answered, and what was carried out changes the state.
ghost use Rattle.std.specs.Prelude.{◌<◌, ◌≡◌};
ghost use Rattle.message.specs.Clauses.Parsed.{part, Within};
ghost use Rattle.state.specs.View.{settings_with};
ghost use Rattle.outcome.specs.Clauses.Outcome.{status_settings};
ghost use Rattle.line.specs.Clauses.Concluded.{StatusNumbered, Concludable, Concludes};

use message::line::Part;
use message::say::Denial;
use outbox::write::put_final_error;
use outcome::{Answered, Outcome};
use state::client::with_active;
use state::setting::stored;
use state::{Bare, Settings};

// The bytes of a part of a line.
pub(crate) fn bytes_of(line: &[u8], p: Part) -> &[u8]
    requires { Within line.now p }
    ensures { result.now ≡ part line.now p }
{
    let from = p.from;
    let to = p.to;
    &line[from..to]
}

// The length of the text `[300,"target changed"]`.
const BUSY_LENGTH: usize = 22;

// The settings with those of a status that a change sets first (M-100).
fn with_status(settings: Settings, status: Option<(usize, usize)>, time: u64) -> Settings
    requires { StatusNumbered status }
    ensures { result ≡ settings_with settings (status_settings status time) }
{
    match status {
        None => settings,
        Some((k, _)) => stored(settings, k, BUSY_LENGTH, time),
    }
}

// "Errors: `error_ACTION SPECIFIER [..]`, action and specifier as sent."; what is carried out has been answered
pub(crate) fn conclude(
    out: &mut [u8],
    state: Bare,
    client: u8,
    time: u64,
    action: &[u8],
    specifier: &[u8],
    came: Outcome,
) -> Answered
    requires { (client < 8) × (Concludable out.old action.now specifier.now came) }
    ensures { Concludes out.old out.new state client time result action.now specifier.now came }
{
    let clients = state.clients;
    let settings = state.settings;
    let counts = state.counts;
    match came {
        Outcome::Denied(class) => {
            let denial = Denial::Class(class);
            let written = put_final_error(out, 0, client, action, specifier, denial);
            Answered { state, written }
        }
        Outcome::Unreadable(fault, since) => {
            let denial = Denial::Fault(fault, since);
            let written = put_final_error(out, 0, client, action, specifier, denial);
            Answered { state, written }
        }
        Outcome::Sent(written) => Answered { state, written },
        Outcome::Active(mask, written) => {
            let next = with_active(clients, client as usize, mask);
            Answered {
                state: Bare {
                    clients: next,
                    settings,
                    counts,
                },
                written,
            }
        }
        Outcome::Stored(status, k, size, written) => {
            let first = with_status(settings, status, time);
            let next = stored(first, k, size, time);
            Answered {
                state: Bare {
                    clients,
                    settings: next,
                    counts,
                },
                written,
            }
        }
    }
}
