// The Sun at a time: document 01, "Sun and shade".
#![tactic(auto)]

ghost use Rattle.std.specs.Prelude.{◌≡◌, ◌+◌, ◌%◌, ◌^◌, ◌<◌, ◌≤◌, true, pos, ◌*ℤ◌};
ghost use Rattle.integer.specs.Bound.{Within};
ghost use Rattle.integer.specs.Division.{mod_z};
ghost use Rattle.time.specs.Range.{in_range};
ghost use Rattle.sun.specs.Sun.{part_turn, hour_angle, true_longitude};
ghost use Rattle.sun.specs.Contract.{CentreAt, DirectionAt, SunAt, SunAnswered};

use refusal::Refusal;
use trig::TURN;

const HALF_TURN: u32 = trig::HALF_TURN as u32;

// What every time shares, computed once: proofs/Constants.antt proves each number.
// angle(3,566,349): MA at 1990 Jan 0.0.
const MEAN_ANOMALY_AT_EPOCH: u32 = 4_254_820_089;

// angle(2,794,033): ML at 1990 Jan 0.0.
const MEAN_LONGITUDE_AT_EPOCH: u32 = 3_333_411_210;

// angle(19,151): the equation of the centre's term in MA.
const CENTRE_OF_ONCE: i64 = 22_848_032;

// angle(200): its term in twice MA.
const CENTRE_OF_TWICE: i64 = 238_609;

// C of the obliquity of the ecliptic, angle(234,406).
const OBLIQUITY_COSINE: i64 = 985_129_105;

// S of the obliquity.
const OBLIQUITY_SINE: i64 = 427_132_473;

// A direction in the celestial frame, in units of 2^-30.
// A type beside `Position`, which has metres.
#[derive(Clone, Copy)]
pub struct Direction {
    pub x: i64,
    pub y: i64,
    pub z: i64,
}

// Angles, and the direction to the Sun.
#[derive(Clone, Copy)]
pub struct Sun {
    // MA
    pub mean_anomaly: u32,
    // ML
    pub mean_longitude: u32,
    // TL
    pub true_longitude: u32,
    // GHAA: the Greenwich hour angle of Aries.
    pub greenwich_hour_angle: u32,
    pub direction: Direction,
}

// A sum of angles, wrapped.
fn wrapped(angle: i64) -> u32
    ensures { result ≡ mod_z angle (2 ^ 32) }
{
    let turns = integer::floor_div(angle, TURN);
    turns.remainder as u32
}

// The part turn of n / d. The remainder times 2^32 passes 64 bits, so 2^32 is taken as 2^16 twice.
fn part_turn(n: i64, d: u64) -> u32
    requires { (0 < d) × (d ≤ 2 ^ 37) }
    ensures { result ≡ part_turn n d }
{
    let turns = integer::floor_div(n, d);
    let scaled = turns.remainder * 0x1_0000;
    let high = scaled / d;
    let low = scaled % d * 0x1_0000 / d;
    (high * 0x1_0000 + low) as u32
}

// An angle of the Sun, from that at 1990 Jan 0.0 and the divisor of its part turn.
fn mean_angle(at_epoch: u32, time: i64, divisor: u64) -> u32
    requires { Within 3_476_476_799 time × (0 < divisor) × (divisor ≤ 2 ^ 37) }
    ensures { result ≡ (at_epoch + part_turn (pos 3125 *ℤ time) divisor) % 2 ^ 32 }
{
    let part = part_turn(3125 * time, divisor);
    at_epoch.wrapping_add(part)
}

// The equation of the centre.
fn centre(mean_anomaly: u32) -> i64
    ensures { CentreAt mean_anomaly result }
{
    let twice = mean_anomaly.wrapping_add(mean_anomaly);
    let first = integer::scaled(CENTRE_OF_ONCE, trig::sine(mean_anomaly));
    let second = integer::scaled(CENTRE_OF_TWICE, trig::sine(twice));
    first + second
}

#[tactic(auto, unfolding(crate::specs::Sun::true_longitude))]
fn true_longitude(mean_longitude: u32, mean_anomaly: u32) -> u32
    ensures { result ≡ true_longitude mean_longitude mean_anomaly }
{
    wrapped(mean_longitude as i64 + centre(mean_anomaly))
}

// GHAA. Half a turn off an angle is half a turn added to it.
#[tactic(auto, unfolding(crate::specs::Sun::hour_angle))]
fn hour_angle(mean_longitude: u32, time: i64) -> u32
    ensures { result ≡ hour_angle mean_longitude time }
{
    mean_longitude
        .wrapping_add(HALF_TURN)
        .wrapping_add(part_turn(time, 86_400))
}

fn direction_at(true_longitude: u32) -> Direction
    ensures { DirectionAt true_longitude result }
{
    let s = trig::sine(true_longitude);
    Direction {
        x: trig::cosine(true_longitude),
        y: integer::scaled(s, OBLIQUITY_COSINE),
        z: integer::scaled(s, OBLIQUITY_SINE),
    }
}

// The Sun at a time in range: labelling has tested the time, and so has `find`.
pub fn sun_at(time: i64) -> Sun
    requires { in_range time ≡ true }
    ensures { SunAt time result }
{
    let mean_anomaly = mean_angle(MEAN_ANOMALY_AT_EPOCH, time, 98_620_103_151);
    let mean_longitude = mean_angle(MEAN_LONGITUDE_AT_EPOCH, time, 98_615_393_676);
    let true_longitude = true_longitude(mean_longitude, mean_anomaly);
    Sun {
        mean_anomaly,
        mean_longitude,
        true_longitude,
        greenwich_hour_angle: hour_angle(mean_longitude, time),
        direction: direction_at(true_longitude),
    }
}

// The Sun at any time, or refusal 8.
pub fn find(time: i64) -> Result<Sun, Refusal>
    ensures { SunAnswered time result }
{
    if time::in_range(time) {
        Ok(sun_at(time))
    } else {
        Err(Refusal::Time)
    }
}
