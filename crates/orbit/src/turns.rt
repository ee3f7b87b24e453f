// Turns since the epoch, the drift of the node and the argument of perigee, and the number of the
// revolution: document 01, "From elements to position". The elements and their time passed the checks.
// Within a year's time of the epoch A has less than 9,000 turns and a drift less than 1,000, so that every
// sum of theirs is below 2^46; rate·Δ·2^18 is below 2^61. Where d is not 0 the time is within 30 days, and
// d·Δ² below 2^63. All of it fits an i64.
ghost use Rattle.std.specs.Prelude.{◌≡◌, ◌+◌, ◌*◌, ◌≤◌, ◌<◌, ◌^◌, pos, ◌+ℤ◌};
ghost use Rattle.integer.specs.Bound.{Within};
ghost use Rattle.integer.specs.Contract.{FloorDivided};
ghost use Rattle.integer.specs.Division.{mod_z};
ghost use Rattle.trig.specs.Sines.{SinesAt};
ghost use Rattle.orbit.specs.Turns.{elapsed_of, linear_term, quadratic_term, drift, drifted};
ghost use Rattle.orbit.specs.Revolution.{node_passages};
ghost use Rattle.elements.specs.Contract.{Near};
ghost use Rattle.orbit.specs.Contract.{Elapsed, PhaseAt};

use elements::ElementsAt;
use integer::FloorQuotient;
use trig::{Sines, TURN};

// The phase of an orbit: the mean anomaly, the argument of perigee as drifted, and the number of the
// revolution.
#[derive(Clone, Copy)]
pub struct Phase {
    pub mean_anomaly: u32,
    pub argument_of_perigee: u32,
    pub revolution: i32,
}

fn elapsed(at: ElementsAt) -> i64
    ensures { Elapsed at.elements at.time result }
{
    at.time - at.elements.epoch
}

// w·2^32 plus the part turn are one quotient: n·Δ, of which 8,640,000,000,000 are a turn, scaled to 2^32 a
// turn.
fn linear_term(mean_motion: u32, elapsed: i64) -> i64
    requires { (mean_motion ≤ 1_700_000_000) × Within 31_622_400 elapsed }
    ensures { (result ≡ linear_term mean_motion elapsed) × Within (8_000 * 2 ^ 32) result }
{
    integer::floor_scaled((mean_motion as i64) * elapsed, 131_072, 263_671_875)
}

// What a mean motion that changes adds.
fn quadratic_term(half_derivative: i32, elapsed: i64) -> i64
    requires { Near half_derivative elapsed }
    ensures { (result ≡ quadratic_term half_derivative elapsed) × Within (10 * 2 ^ 32) result }
{
    let product = (half_derivative as i64) * elapsed;
    integer::floor_scaled(product * elapsed, 1_024, 177_978_515_625)
}

// The drift of an angle at a rate, in 10^-4 degree a day, before wrapping. For the argument of perigee
// it is B.
fn drift(rate: i32, elapsed: i64) -> i64
    requires { Within 200_000 rate × Within 31_622_400 elapsed }
    ensures { (result ≡ drift rate elapsed) × Within (1_000 * 2 ^ 32) result }
{
    integer::floor_div((rate as i64) * elapsed * 262_144, 18_984_375).quotient
}

// An angle, or the sum of two, that gained some turns: its whole turns, and the angle that is left.
fn turned(angle: u64, gained: i64) -> FloorQuotient
    requires { (angle < 2 ^ 33) × Within (10_000 * 2 ^ 32) gained }
    ensures { FloorDivided (pos angle +ℤ gained) (2 ^ 32) result × Within 10_002 result.quotient }
{
    integer::floor_div(angle as i64 + gained, TURN)
}

fn wrapped(angle: u32, gained: i64) -> u32
    requires { Within (10_000 * 2 ^ 32) gained }
    ensures { result ≡ mod_z (pos angle +ℤ gained) (2 ^ 32) }
{
    turned(angle as u64, gained).remainder as u32
}

// The number of the revolution, where that of the epoch is the first and the mean argument of latitude
// of the epoch gained some turns. It stays within 109,999, and so within an i32.
fn revolution(first: u32, mean_anomaly: u32, argument_of_perigee: u32, gained: i64) -> i32
    requires { (first ≤ 99_999) × Within (10_000 * 2 ^ 32) gained }
    ensures { result ≡ pos first +ℤ node_passages (mean_anomaly + argument_of_perigee) gained }
{
    // Wrapped, since a turn of the epoch's own is not counted.
    let latitude = (mean_anomaly as u64 + argument_of_perigee as u64) % TURN;
    (first as i64 + turned(latitude, gained).quotient) as i32
}

pub(crate) fn phase_at(at: ElementsAt) -> Phase
    ensures { PhaseAt at.elements at.time result }
{
    let elements = at.elements;
    let elapsed = elapsed(at);
    let linear = linear_term(elements.mean_motion, elapsed);
    let quadratic = quadratic_term(elements.half_mean_motion_derivative, elapsed);
    let advance = linear + quadratic;
    let drift = drift(elements.perigee_rate, elapsed);
    let first = elements.epoch_revolution;
    let anomaly = elements.mean_anomaly;
    let perigee = elements.argument_of_perigee;
    Phase {
        mean_anomaly: wrapped(anomaly, advance),
        argument_of_perigee: wrapped(perigee, drift),
        revolution: revolution(first, anomaly, perigee, advance + drift),
    }
}

// The drifted angle at a time, with its sines.
#[tactic(auto, unfolding(crate::specs::Turns::drifted))]
pub(crate) fn drift_at(at: ElementsAt, angle: u32, rate: i32) -> Sines
    requires { Within 200_000 rate }
    ensures { SinesAt (drifted angle rate (elapsed_of at.elements at.time)) result }
{
    Sines::of(wrapped(angle, drift(rate, elapsed(at))))
}
