// Reading from whatever gives bytes.
#![tactic(auto)]

ghost use Rattle.std.specs.Prelude.{◌≡◌, ◌≤◌, ◌<◌, ◌⊎◌, [], ◌∷◌, IfOk, length, take};
ghost use Rattle.std.specs.Io.KnownBytes.{Consumes, IsAtEnd};

use std::io;
use std::io::Read;

// Reads until `space` is full or the input ends, and returns how many bytes it put at the start of `space`: those that the input gives next, where
// it is known which these are.
pub fn read_full<R: Read>(input: &mut R, space: &mut [u8]) -> io::Result<usize>
    ensures fits { IfOk result (λ n. n ≤ length space.new) }
    ensures bytes { IfOk result (λ n. Consumes (R.remaining input.old) (R.remaining input.new) (take n space.new)) }
    ensures stops { IfOk result (λ n. n < length space.new → IsAtEnd (R.remaining input.new)) }
{
    let mut done = 0;
    while done < space.len() {
        let n = input.read(&mut space[done..])?;
        if n == 0 {
            break;
        }
        done += n;
    }
    Ok(done)
}

// The next byte, or 0 at the end of the input.
pub fn read_byte<R: Read>(input: &mut R) -> io::Result<u8>
    ensures byte { IfOk result (λ b. Consumes (R.remaining input.old) (R.remaining input.new) (b ∷ [])
        ⊎ (Consumes (R.remaining input.old) (R.remaining input.new) [] × IsAtEnd (R.remaining input.new) × (b ≡ 0))) }
{
    let mut space = [0; 1];
    let n = read_full(input, &mut space)?;
    if n == 0 { Ok(0) } else { Ok(space[0]) }
}
