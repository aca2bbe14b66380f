// `activate` and `deactivate`: "no or empty specifier means all modules".
#![tactic(auto)]

ghost use Rattle.std.specs.Prelude.{◌≡◌, false, List, ℕ, ◌≤◌, eqb, length, Some, None};
ghost use Rattle.table.specs.Table.{Table};
ghost use Rattle.table.specs.Layout.{table_of};
ghost use Rattle.message.specs.Request as Request;
ghost use Rattle.plain.specs.Node.{Node, is_active};
ghost use Rattle.plain.specs.Answer.{activates, deactivates};
ghost use Rattle.state.specs.View.{bit};
ghost use Rattle.state.specs.Fit.{past_last};
ghost use Rattle.state.specs.Clauses.Bare.{unlined};
ghost use Rattle.outcome.specs.Clauses.Ready.{Ready};
ghost use Rattle.outcome.specs.Clauses.Outcome.{OutcomeIs, ComesTo, Comes, ComesAtAny};
ghost use Rattle.switch.specs.Clauses.Scoped.{Scoped};

use outbox::write::{Switched, put_final_switched, put_final_switched_name};
use outcome::Outcome;
use search::find::module_count;
use state::Bare;
use state::bits::{with_bit, with_bits, without_bit};
use update::{Scope, put_updates_of};

// "`activate` sends an update for each parameter ..": of all modules. What was active before stays so.
pub fn activate_all<'a>(
    table: &'a [u8],
    values: &'a [u8],
    out: &mut [u8],
    state: Bare,
    client: u8,
) -> Outcome
    requires { Ready table.now (unlined state) values.now out.old client }
    ensures { (t : ℕ) → Comes table.now (unlined state) values.now out.old client t result values.now
        out.new (Request.activate None) }
{
    let active = state.clients.active;
    let mask = active[client as usize];
    let all = with_bits(mask, module_count(table));
    let told = put_updates_of(table, values, out, state, client, Scope::All);
    let end = put_final_switched(out, told, client, Switched::Active);
    Outcome::Active(all, end)
}

// The same for the module of number `i`, told by its name.
pub fn activate<'a>(
    table: &'a [u8],
    values: &'a [u8],
    out: &mut [u8],
    state: Bare,
    client: u8,
    i: usize,
    module: &[u8],
) -> Outcome
    requires { Ready table.now (unlined state) values.now out.old client × Scoped (length (table_of table.now).modules) i «module».now }
    ensures { (t : ℕ) → ComesTo table.now (unlined state) values.now out.old client t result values.now
        out.new (λ w n c t. activates w n c t (λ j. eqb j i) (Some «module».now)) }
{
    let active = state.clients.active;
    let mask = active[client as usize];
    let more = with_bit(mask, i);
    let told = put_updates_of(table, values, out, state, client, Scope::Module(i));
    let end = put_final_switched_name(out, told, client, Switched::Active, module);
    Outcome::Active(more, end)
}

// "`deactivate` gives `inactive` or `inactive M`": no module is active then.
pub fn deactivate_all(out: &mut [u8], client: u8) -> Outcome
    requires { 32768 ≤ length out.old }
    ensures { (table : List ℕ) (t : ℕ) → ComesAtAny table out.old client t result out.new (Request.deactivate None) }
{
    let end = put_final_switched(out, 0, client, Switched::Inactive);
    Outcome::Active(0, end)
}

// The same for the module of number `i`, told by its name; `mask` has the client's active modules, and the others stay active.
pub fn deactivate(out: &mut [u8], client: u8, mask: u16, i: usize, module: &[u8]) -> Outcome
    requires { (32768 ≤ length out.old) × Scoped 16 i «module».now }
    ensures { (w : Table) (n : Node) (t : ℕ) (values : List ℕ) → past_last mask (length w.modules) ≡ false
        → ((j : ℕ) → is_active (n.clients client) j ≡ bit mask j) → OutcomeIs w n client t out.old out.new values values result
        (deactivates w n client t (λ j. eqb j i) (Some «module».now)) }
{
    let fewer = without_bit(mask, i);
    let end = put_final_switched_name(out, 0, client, Switched::Inactive, module);
    Outcome::Active(fewer, end)
}
