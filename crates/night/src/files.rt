// The files that the arguments name.
ghost use Rattle.std.specs.Prelude.{◌≤◌, IfSome, length};

use input::read_full;
use std::fs;
use std::io::Read;
use std::rt::Files;

// The file that an argument names, opened for reading; where it can't be, that is said.
pub(crate) fn open_argument<R: Files + Eprint>(rt: &R, path: &str) -> Option<R::File> {
    match fs::open(rt, path) {
        Ok(file) => Some(file),
        Err(e) => {
            let _ = eprintln!(rt; "night: {path}: {e}");
            None
        }
    }
}

// The front of the table's file, as much of it as a lent buffer holds: its length; where it can't be read, that is said.
pub(crate) fn read_table<F: Read>(rt: &impl Eprint, file: &mut F, table: &mut [u8]) -> Option<usize>
    ensures { IfSome result (λ n. n ≤ length table.new) }
{
    match read_full(file, table) {
        Ok(n) => Some(n),
        Err(e) => {
            let _ = eprintln!(rt; "night: the table: {e}");
            None
        }
    }
}
