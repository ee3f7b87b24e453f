// A guess at the eccentric anomaly. Nothing is proved of it but that it is an angle: how good it is decides only how often k is evaluated.
// Everything is in units of 2^-31, of one or of half a turn, and in the first half of the turn.
ghost use Rattle.std.specs.Prelude.{◌^◌, ◌<◌, ◌≤◌};

use crate::UNIT;
use trig::{HALF_TURN, TURN};

// The part a of b, with a in these units.
fn part(a: u64, b: u64) -> u64
    requires { (a ≤ 2 ^ 31) × (b ≤ 2 ^ 32) }
    ensures { result ≤ b }
{
    a * b >> 31
}

// The sine of half an angle to 11 units, by a polynomial of degree 9.
fn half_sine(angle: u64) -> u64
    requires { angle ≤ 2 ^ 31 }
    ensures { result ≤ 2 ^ 31 }
{
    let square = part(angle, angle);
    let v4 = 10_033_500 - part(square, 323_870);
    let v3 = 171_129_684 - part(square, v4);
    let v2 = 1_387_195_746 - part(square, v3);
    let v1 = 3_373_259_346 - part(square, v2);
    part(angle, v1).min(HALF_TURN)
}

// M + e·M·(1 - M)·(11/8 + M/2) / (1 - 24/25·e + 10/3·e·M), with M in half turns: within 0.041 radians of the anomaly for every eccentricity.
fn start(e: u64, mean: u64) -> u64
    requires { (e ≤ 1_932_735_283) × (mean ≤ 2 ^ 31) }
    ensures { result ≤ 2 ^ 31 }
{
    let product = part(mean, e);
    let above = part(part(HALF_TURN - mean, product), 2_952_790_016 + mean / 2);
    let below = HALF_TURN - e * 24 / 25 + product * 10 / 3;
    (mean + (above * HALF_TURN / below).min(HALF_TURN)).min(HALF_TURN)
}

// Newton's rule: from E to (M + e·sin E - E + E·(1 - e·cos E)) / (1 - e·cos E). By half the angle nothing in it is below 0: sin E is
// 2·sin(E/2)·cos(E/2), and 1 - e·cos E is 1 - e + 2e·sin²(E/2). The sum gets 1 for the cuts.
fn newton(e: u64, mean: u64, angle: u64) -> u64
    requires { (e ≤ 1_932_735_283) × (mean ≤ 2 ^ 31) × (angle ≤ 2 ^ 31) }
    ensures { result ≤ 2 ^ 31 }
{
    let sine = half_sine(angle);
    let cosine = half_sine(HALF_TURN - angle);
    let product = part(sine, e);
    // 2^33/2π: e·sin E as an angle
    let h = part(part(cosine, product), 1_367_130_551);
    let slope = HALF_TURN - e + 2 * part(sine, product);
    let sum = (mean + h + 1 + part(angle, slope)).saturating_sub(angle);
    (sum * HALF_TURN / slope).min(HALF_TURN)
}

fn folded(angle: u64) -> u64
    requires { angle < 2 ^ 32 }
    ensures { result ≤ 2 ^ 31 }
{
    angle.min(TURN - angle)
}

pub(crate) fn guess(eccentricity: u32, mean_anomaly: u32) -> u64
    requires { eccentricity ≤ 9_000_000 }
    ensures { result ≤ 2 ^ 32 }
{
    let e = eccentricity as u64 * HALF_TURN / UNIT;
    let m = mean_anomaly as u64;
    let mean = folded(m);
    let angle = newton(e, mean, newton(e, mean, start(e, mean)));
    if m < HALF_TURN { angle } else { TURN - angle }
}
