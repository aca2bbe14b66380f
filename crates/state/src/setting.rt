// The stored value of a parameter, and the error in its place. Each parameter has 256 bytes of the values area, in order.
ghost use Rattle.std.specs.Prelude.{◌≡◌, ◌<◌, ◌≤◌, length, get_or};
ghost use Rattle.table.specs.Clauses.At.{Inside};
ghost use Rattle.message.specs.Error.{fault_of};
ghost use Rattle.message.specs.Clauses.Said.{sensor_fault};
ghost use Rattle.state.specs.View.{shown_bytes, with_length, with_error};

use crate::Settings;
use limits::PLACE;
use message::say::{Sensor, sensor_of};
use table::layout::Part;

// Parameter k has a stored value of so many bytes, and no error, from this time on.
pub fn stored(s: Settings, k: usize, size: usize, time: u64) -> Settings
    requires { (k < 64) × (size ≤ 256) }
    ensures { result ≡ with_length s k size time }
{
    let mut next = s;
    next.length[k] = size as u16;
    next.error[k] = 0;
    next.time[k] = time;
    next
}

// Parameter k can't be read, from this time on. What is stored stays.
pub fn failed(s: Settings, k: usize, class: u8, time: u64) -> Settings
    requires { k < 64 }
    ensures { result ≡ with_error s k class time }
{
    let mut next = s;
    next.error[k] = class;
    next.time[k] = time;
    next
}

// Whether parameter k can be read.
pub fn sensor_at(s: Settings, k: usize) -> Sensor
    requires { k < 64 }
    ensures { sensor_fault result ≡ fault_of (get_or s.error k 0) }
{
    let errors = s.error;
    sensor_of(errors[k] as u64)
}

// The value that parameter k shows, "no copy": a part of the table if its stored length is 0, else a part of the values area. Both are lent
// for one lifetime, since the part may be of either.
pub fn shown<'a>(
    table: &'a [u8],
    values: &'a [u8],
    s: Settings,
    k: usize,
    initial: Part,
) -> &'a [u8]
    requires { (Inside table.now initial) × ((k < 64) × ((get_or s.length k 0 ≤ 256) × (16384 ≤ length values.now))) }
    ensures { result.now ≡ shown_bytes table.now s values.now k initial }
{
    let lengths = s.length;
    let size = lengths[k] as usize;
    if size == 0 {
        return &table[initial.from..initial.to];
    }
    let first = PLACE * k;
    &values[first..first + size]
}
