// The bits of a mask of 16 modules: bit i is 1 if the module of number i is active.
ghost use Rattle.std.specs.Prelude.{◌≡◌, not, ◌&&◌, ◌||◌, ℕ, ◌<◌, ◌≤◌, eqb, ltb};
ghost use Rattle.ascii.specs.Bytes.{count};
ghost use Rattle.plain.specs.Node.{below};
ghost use Rattle.state.specs.View.{bit};
ghost use Rattle.state.specs.Fit.{past_last};

pub fn has_bit(mask: u16, i: usize) -> bool
    requires { i < 16 }
    ensures { result ≡ bit mask i }
{
    (mask >> i) % 2 == 1
}

pub fn with_bit(mask: u16, i: usize) -> u16
    requires { i < 16 }
    ensures { (j : ℕ) → bit result j ≡ bit mask j || eqb j i }
{
    mask | (1 << i)
}

pub fn without_bit(mask: u16, i: usize) -> u16
    requires { i < 16 }
    ensures { (j : ℕ) → bit result j ≡ bit mask j && not (eqb j i) }
{
    if has_bit(mask, i) {
        mask ^ (1 << i)
    } else {
        mask
    }
}

// The first n bits too.
pub fn with_bits(mask: u16, n: usize) -> u16
    requires { n ≤ 16 }
    ensures { (j : ℕ) → bit result j ≡ bit mask j || ltb j n }
{
    let mut all = mask;
    for i in 0..n {
        all = with_bit(all, i);
    }
    all
}

// Whether a bit from bit n on is set. A u16 can't be shifted by 16.
pub fn is_past(mask: u16, n: usize) -> bool
    requires { n ≤ 16 }
    ensures { result ≡ past_last mask n }
{
    (mask as u32) >> n != 0
}

// How many bits are set, of the 16.
pub fn bit_count(mask: u16) -> u32
    ensures { result ≡ count (bit mask) (below 16) }
{
    mask.count_ones()
}
