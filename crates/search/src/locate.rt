// What the names of an accessible locate: a line's `M:P` or `M:C`. It is sought by the crate `seek`.
use table::layout::{CommandAt, ParameterAt};

// No module of the first name; nothing of the second in it; or what is there: its number among all parameters or all commands, its module's
// number, and where its parts lie.
#[derive(Clone, Copy)]
pub enum Located {
    NoModule,
    Nothing,
    Parameter(usize, usize, ParameterAt),
    Command(usize, usize, CommandAt),
}
