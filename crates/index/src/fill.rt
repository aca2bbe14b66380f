// Filling an index of 128 bytes.
ghost use Rattle.std.specs.Prelude.{◌≡◌, ◌<◌, length};
ghost use Rattle.index.specs.Index.{empty, place_from, entered};

use limits::{FREE, INDEX};

pub fn clear(index: &mut [u8])
    requires { length index.old ≡ 128 }
    ensures { index.new ≡ empty }
{
    index.fill(FREE);
}

// From the place start to the next free byte, round the end.
fn place_from(index: &[u8], start: usize) -> usize
    requires { (length index.now ≡ 128) × (start < 128) }
    ensures { result ≡ place_from start index.now }
{
    let mut p = start;
    for _ in 0..INDEX {
        if index[p] == FREE {
            return p;
        }
        p = (p + 1) % INDEX;
    }
    p
}

// The accessible of number k, which starts from the place start.
pub fn enter(index: &mut [u8], start: usize, k: u8)
    requires { (length index.old ≡ 128) × (start < 128) }
    ensures { index.new ≡ entered start k index.old }
{
    let p = place_from(index, start);
    index[p] = k;
}
