// `activate` and `deactivate`, of all modules and of one.
ghost use Rattle.std.specs.Prelude.{ℕ, Some, None};
ghost use Rattle.message.specs.Clauses.Parsed.{switch_request};
ghost use Rattle.outcome.specs.Clauses.Ready.{Ready};
ghost use Rattle.outcome.specs.Clauses.Outcome.{Comes};
ghost use Rattle.state.specs.Clauses.Bare.{unlined};

use message::line::Switch;
use message::say::Class;
use outcome::Outcome;
use search::find::find_module;
use state::Bare;
use switch::{activate, activate_all, deactivate, deactivate_all};

pub(crate) fn switch_all<'a>(
    table: &'a [u8],
    values: &'a [u8],
    out: &mut [u8],
    state: Bare,
    client: u8,
    switch: Switch,
) -> Outcome
    requires { Ready table.now (unlined state) values.now out.old client }
    ensures { (t : ℕ) → Comes table.now (unlined state) values.now out.old client t result values.now
        out.new (switch_request switch None) }
{
    match switch {
        Switch::On => activate_all(table, values, out, state, client),
        Switch::Off => deactivate_all(out, client),
    }
}

// A named module has to be there.
pub(crate) fn switch_module<'a>(
    table: &'a [u8],
    values: &'a [u8],
    out: &mut [u8],
    state: Bare,
    client: u8,
    switch: Switch,
    module: &[u8],
) -> Outcome
    requires { Ready table.now (unlined state) values.now out.old client }
    ensures { (t : ℕ) → Comes table.now (unlined state) values.now out.old client t result values.now
        out.new (switch_request switch (Some «module».now)) }
{
    let Some((i, _)) = find_module(table, module) else {
        return Outcome::Denied(Class::NoSuchModule);
    };
    let clients = state.clients;
    let active = clients.active;
    let mask = active[client as usize];
    match switch {
        Switch::On => activate(table, values, out, state, client, i, module),
        Switch::Off => deactivate(out, client, mask, i, module),
    }
}
