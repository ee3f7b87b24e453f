// Angles, and their sines and cosines in units of 2^-30: document 01, "Units" and "The sheet sine".
#![tactic(auto)]

ghost use Rattle.std.specs.Prelude.{◌≡◌, ◌≤◌, ◌^◌, nat_abs};
ghost use Rattle.trig.specs.Angle.{angle_of};
ghost use Rattle.trig.specs.Contract.{Bounded, CosineAt};
ghost use Rattle.trig.specs.ExactSine.{SineAt};
ghost use Rattle.trig.specs.Sine.{radians, square, horner_step, series, quarter_sine, S, C};

// One, in units of 2^-30; as an angle, a quarter turn.
pub const ONE: u64 = 0x4000_0000;

pub const HALF_TURN: u64 = 0x8000_0000;

pub const TURN: u64 = 0x1_0000_0000;

// An angle with its sine and its cosine, for where these are needed more than once.
#[derive(Clone, Copy)]
pub struct Sines {
    pub angle: u32,
    pub sine: i64,
    pub cosine: i64,
    pub ghost sine_is: { sine ≡ S angle },
    pub ghost cosine_is: { cosine ≡ C angle },
}

// The angle of some ten-thousandths of a degree.
#[tactic(auto, unfolding(crate::specs::Angle::angle_of))]
pub fn angle(ten_thousandths: u32) -> u32
    ensures { result ≡ angle_of ten_thousandths }
{
    let turns = ten_thousandths as u64 * TURN / 3_600_000;
    (turns % TURN) as u32
}

#[tactic(auto, unfolding(crate::specs::Sine::radians))]
fn radians(r: u64) -> u64
    requires { r ≤ 2 ^ 30 }
    ensures { Bounded 1_686_629_713 (radians r) result }
{
    r * 1_686_629_713 / ONE
}

#[tactic(auto, unfolding(crate::specs::Sine::square))]
fn square(x: u64) -> u64
    requires { x ≤ 1_686_629_713 }
    ensures { Bounded 2_649_351_757 (square x) result }
{
    x * x / ONE
}

#[tactic(auto, unfolding(crate::specs::Sine::horner_step))]
fn horner_step(z: u64, v: u64, divisor: u64) -> u64
    requires { (z ≤ 2_649_351_757) × (v ≤ 2 ^ 30) × (6 ≤ divisor) }
    ensures { Bounded (2 ^ 30) (horner_step z v divisor) result }
{
    ONE - z * v / ONE / divisor
}

#[tactic(auto, unfolding(crate::specs::Sine::series))]
fn series(z: u64) -> u64
    requires { z ≤ 2_649_351_757 }
    ensures { Bounded (2 ^ 30) (series z) result }
{
    let v1 = horner_step(z, ONE, 210);
    let v2 = horner_step(z, v1, 156);
    let v3 = horner_step(z, v2, 110);
    let v4 = horner_step(z, v3, 72);
    let v5 = horner_step(z, v4, 42);
    let v6 = horner_step(z, v5, 20);
    horner_step(z, v6, 6)
}

// The sine of an arc in the first quarter.
#[tactic(auto, unfolding(crate::specs::Sine::quarter_sine, crate::specs::Sine::uncapped))]
fn quarter_sine(r: u64) -> u64
    requires { r ≤ 2 ^ 30 }
    ensures { Bounded (2 ^ 30) (quarter_sine r) result }
{
    let x = radians(r);
    let z = square(x);
    let v = series(z);
    let s = x * v / ONE;
    s.min(ONE)
}

// |S|
#[tactic(auto, using(crate::proofs::Signs::magnitude_at))]
pub fn sine_magnitude(angle: u32) -> u64
    ensures { Bounded (2 ^ 30) (nat_abs (S angle)) result }
{
    let a = angle as u64 % HALF_TURN;
    quarter_sine(a.min(HALF_TURN - a))
}

// S
pub fn sine(angle: u32) -> i64
    ensures { SineAt angle result }
{
    let magnitude = sine_magnitude(angle) as i64;
    if angle < 0x8000_0000 {
        magnitude
    } else {
        -magnitude
    }
}

// C
#[tactic(auto, unfolding(crate::specs::Sine::C))]
pub fn cosine(angle: u32) -> i64
    ensures { CosineAt angle result }
{
    let a = (angle as u64 + ONE) % TURN;
    sine(a as u32)
}

impl Sines {
    ghost use Rattle.trig.specs.Sines.{SinesAt};

    pub fn of(angle: u32) -> Sines
        ensures { SinesAt angle result }
    {
        Sines {
            angle,
            sine: sine(angle),
            cosine: cosine(angle),
        }
    }
}
