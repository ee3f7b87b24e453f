// Whole numbers: division rounded down, also of a scaled number, magnitude, two's-complement bits, the whole
// square root.
#![tactic(auto)]

ghost use Rattle.std.specs.Prelude.{◌≡◌, ◌<◌, ◌^◌, pos, nat_abs, ◌*ℤ◌};
ghost use Rattle.std.specs.Int.Signed.{quot_z};
ghost use Rattle.std.specs.Int.{w32, w64};
ghost use Rattle.std.proofs.Common.{of_z, to_z};
ghost use Rattle.integer.specs.Bound.{Within};
ghost use Rattle.integer.specs.Contract.{FloorDivided, Scalable, RootSoFar, BitAdded};
ghost use Rattle.integer.specs.Division.{floor_z};
ghost use Rattle.integer.specs.Root.{root};

// The magnitude |x|.
pub fn magnitude(x: i64) -> u64
    ensures { result ≡ nat_abs x }
{
    x.unsigned_abs()
}

#[derive(Clone, Copy)]
pub struct FloorQuotient {
    pub quotient: i64,
    pub remainder: u64,
}

// n / d down, with its remainder, which is never negative. Every caller's divisor is a numeral, so
// that the `requires` is no question for it: by 0 there is no quotient. A divisor may be above what
// `div_euclid` takes, so a number below zero is divided as -1 - n, which is `!n`.
pub fn floor_div(n: i64, d: u64) -> FloorQuotient
    requires { 0 < d }
    ensures { FloorDivided n d result }
{
    if n < 0 {
        let m = !n as u64;
        FloorQuotient {
            quotient: !((m / d) as i64),
            remainder: d - 1 - m % d,
        }
    } else {
        let m = n as u64;
        FloorQuotient {
            quotient: (m / d) as i64,
            remainder: m % d,
        }
    }
}

// x·scale / d down, where x·scale itself may be too large: x is divided first, and only its remainder is
// scaled. What the `requires` asks is that all the rest fits.
pub fn floor_scaled(x: i64, scale: u64, d: u64) -> i64
    requires { Scalable x scale d }
    ensures { result ≡ floor_z (x *ℤ pos scale) d }
{
    let whole = floor_div(x, d);
    let part = whole.remainder * scale / d;
    whole.quotient * (scale as i64) + part as i64
}

// The library's casts, one for each width and way: a function for all would need a trait with the same four bodies.

// The bits of x in two's complement.
pub fn bits_of_i64(x: i64) -> u64
    ensures { result ≡ of_z w64 x }
{
    x.cast_unsigned()
}

pub fn bits_of_i32(n: i32) -> u32
    ensures { result ≡ of_z w32 n }
{
    n.cast_unsigned()
}

// The number whose bits in two's complement are b.
pub fn i64_of_bits(b: u64) -> i64
    ensures { result ≡ to_z w64 b }
{
    b.cast_signed()
}

pub fn i32_of_bits(word: u32) -> i32
    ensures { result ≡ to_z w32 word }
{
    word.cast_signed()
}

// The whole square root of a number's highest bits, and what the root's square leaves of them.
#[derive(Clone, Copy)]
struct PartialRoot {
    root: u64,
    remainder: u64,
}

// One round of the digit-by-digit method: two bits are brought down behind the remainder, and the root
// gets its next bit, 1 where the trial subtrahend 4·root + 1 is not above what is then left.
fn next_bit(partial: PartialRoot, pair: u64) -> PartialRoot
    requires { RootSoFar partial × (partial.root < 2 ^ 31) × (pair < 4) }
    ensures { BitAdded partial pair result }
{
    let remainder = (partial.remainder << 2) + pair;
    let doubled = partial.root << 1;
    let subtrahend = (partial.root << 2) + 1;
    if remainder < subtrahend {
        PartialRoot {
            root: doubled,
            remainder,
        }
    } else {
        PartialRoot {
            root: doubled + 1,
            remainder: remainder - subtrahend,
        }
    }
}

// The whole square root, down, without a division, which `isqrt` has: 32 rounds, each of which shifts the
// two highest bits out of those that are left.
pub fn square_root(n: u64) -> u64
    ensures { (result ≡ root n) × (result < 2 ^ 32) }
{
    let mut partial = PartialRoot {
        root: 0,
        remainder: 0,
    };
    let mut rest = n;
    for _ in 0..32_u32 {
        partial = next_bit(partial, rest >> 62);
        rest <<= 2;
    }
    partial.root
}

// One, in units of 2^-30.
pub const ONE: i64 = 0x4000_0000;

// x·y / 2^30, cut toward zero: the product of a length or a part of one, in units of 2^-30, with
// another. Each caller's bounds keep the product within 2^62.
pub fn scaled(x: i64, y: i64) -> i64
    requires { Within (2 ^ 62) (x *ℤ y) }
    ensures { result ≡ quot_z (x *ℤ y) (pos (2 ^ 30)) }
{
    x * y / ONE
}
