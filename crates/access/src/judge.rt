// Whether a line's data is let in.
ghost use Rattle.std.specs.Prelude.{◌≡◌, false, drop};
ghost use Rattle.datainfo.specs.Layout.{datainfo_at, ReadableAt};
ghost use Rattle.fit.specs.Clauses.Verdict.{meaning};
ghost use Rattle.message.specs.Clauses.Said.{class_of};
ghost use Rattle.message.specs.Error.{class};
ghost use Rattle.plain.specs.Answer.{Outcome, denied, let_in};
ghost use Rattle.access.specs.Clauses.Judged.{Lets, JudgesChange};

use fit::Misfit;
use form::verdict;
use message::say::Class;
use table::layout::ParameterAt;

// The error of a value that doesn't fit.
fn class_of(misfit: Misfit) -> Class
    ensures { (o : Outcome) → let_in (meaning (Err misfit)) o ≡ denied (class (class_of result)) }
{
    match misfit {
        Misfit::RangeError => Class::RangeError,
        Misfit::WrongType => Class::WrongType,
        Misfit::BadJson => Class::BadJSON,
    }
}

// "BadJSON, WrongType, RangeError."
pub(crate) fn let_in(verdict: Result<(), Misfit>) -> Result<(), Class>
    ensures { Lets false (meaning verdict) result }
{
    verdict.map_err(class_of)
}

// A value for a parameter. "Order: .., ReadOnly, BadJSON, WrongType, RangeError."
pub(crate) fn judge_change(table: &[u8], q: ParameterAt, text: &[u8]) -> Result<(), Class>
    requires { ReadableAt table.now q.info 4 }
    ensures { JudgesChange (datainfo_at (drop q.info table.now)) q.readonly text.now result }
{
    if q.readonly {
        return Err(Class::ReadOnly);
    }
    let_in(verdict(table, q.info, text))
}
