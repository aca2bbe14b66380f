// A client's counts: "a small record changed in place". Three thin functions are lent it, and one function lends it; whoever calls that sees no
// reference.
#![tactic(auto)]

ghost use Rattle.std.specs.Prelude.{◌≡◌};
ghost use Rattle.counter.specs.Counts.{lines_counted, errors_counted, updates_counted, all_counted};

// "lines completed, errors replied .., updates sent"
#[repr(C)]
#[derive(Clone, Copy, PartialEq, Eq, Default)]
pub struct Counts {
    pub lines: u32,
    pub errors: u32,
    pub updates: u32,
}

// ## Lent: "each stops at 4,294,967,295"

pub fn count_lines(c: &mut Counts, n: u32)
    ensures { c.new ≡ lines_counted c.old n }
{
    c.lines = c.lines.saturating_add(n);
}

pub fn count_errors(c: &mut Counts, n: u32)
    ensures { c.new ≡ errors_counted c.old n }
{
    c.errors = c.errors.saturating_add(n);
}

pub fn count_updates(c: &mut Counts, n: u32)
    ensures { c.new ≡ updates_counted c.old n }
{
    c.updates = c.updates.saturating_add(n);
}

// ## What lends

// "changed in place as its lines are answered and as updates go to it"
pub fn counted(c: Counts, lines: u32, errors: u32, updates: u32) -> Counts
    ensures { result ≡ all_counted c lines errors updates }
{
    let mut one = c;
    count_lines(&mut one, lines);
    count_errors(&mut one, errors);
    count_updates(&mut one, updates);
    one
}
