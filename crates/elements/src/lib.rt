// Orbital elements, and the refusals that they and a time can meet: document 01, "Units" and "When the
// build says no".
#![tactic(auto)]

ghost use Rattle.std.specs.Prelude.{◌≡◌, Ok, Err, IfOk, IfErr};
ghost use Rattle.elements.specs.Elements.{refuse_if, outside, perigee_below, rate_beyond, derivative_beyond, checked};
ghost use Rattle.elements.specs.Time.{times_refused, time_refused, checked_at};

use refusal::Refusal;

// The eccentricity in units of 10^-7, the semi-major axis in metres, angles in units of 2^-32 turn, the
// mean motion in 10^-8 revolutions a day, the drift rates of the node and of the argument of perigee in
// 10^-4 degree a day, the epoch in seconds from 1990 Jan 0.0, half the first derivative of the mean
// motion, as two-line elements have it, in 10^-8 revolutions a day squared.
#[derive(Clone, Copy)]
pub struct Elements {
    pub eccentricity: u32,
    pub semi_major_axis: u32,
    pub inclination: u32,
    pub node: u32,
    pub argument_of_perigee: u32,
    pub mean_anomaly: u32,
    pub mean_motion: u32,
    pub node_rate: i32,
    pub perigee_rate: i32,
    pub epoch_revolution: u32,
    pub epoch: i64,
    pub half_mean_motion_derivative: i32,
}

// Elements, and a time at which they passed the checks.
#[derive(Clone, Copy)]
pub struct ElementsAt {
    pub elements: Elements,
    pub time: i64,
    pub ghost passed: { checked_at elements time ≡ Ok tt },
}

// A refusal where a test fails.
#[tactic(auto, unfolding(crate::specs::Elements::refuse_if))]
fn refuse_if(fails: bool, refusal: Refusal) -> Result<(), Refusal>
    ensures { result ≡ refuse_if (Ok tt) fails refusal }
{
    if fails { Err(refusal) } else { Ok(()) }
}

fn outside(x: u32, low: u32, high: u32) -> bool
    ensures { result ≡ outside x low high }
{
    x < low || high < x
}

#[tactic(auto, unfolding(crate::specs::Elements::perigee_below))]
fn perigee_below(a: u32, e: u32) -> bool
    ensures { result ≡ perigee_below a e }
{
    if 10_000_000 < e {
        return true;
    }
    (a as u64) * (10_000_000 - e as u64) < 64_780_000_000_000
}

fn rate_beyond(rate: i32) -> bool
    ensures { result ≡ rate_beyond rate }
{
    200_000 < integer::magnitude(rate as i64)
}

// Over 30 days the mean motion changes by twice 30 times half its derivative.
fn derivative_beyond(mean_motion: u32, half_derivative: i32) -> bool
    ensures { result ≡ derivative_beyond mean_motion half_derivative }
{
    let size = integer::magnitude(half_derivative as i64);
    if 1_000_000 < size {
        return true;
    }
    (mean_motion as u64) < 20_000_000 + 60 * size
}

// Refusals 1 to 7, then 16, then 8 for the epoch.
#[tactic(auto, unfolding(crate::specs::Elements::checked, crate::specs::Elements::checked_to7, crate::specs::Elements::refuse_if))]
pub fn check(elements: Elements) -> Result<(), Refusal>
    ensures { result ≡ checked elements }
{
    let beyond = derivative_beyond(elements.mean_motion, elements.half_mean_motion_derivative);
    let dated = time::in_range(elements.epoch);
    refuse_if(9_000_000 < elements.eccentricity, Refusal::Eccentricity)?;
    refuse_if(
        outside(elements.semi_major_axis, 6_600_000, 100_000_000),
        Refusal::SemiMajorAxis,
    )?;
    refuse_if(
        perigee_below(elements.semi_major_axis, elements.eccentricity),
        Refusal::PerigeeDistance,
    )?;
    refuse_if(0x8000_0000 < elements.inclination, Refusal::Inclination)?;
    refuse_if(
        outside(elements.mean_motion, 20_000_000, 1_700_000_000),
        Refusal::MeanMotion,
    )?;
    refuse_if(rate_beyond(elements.node_rate), Refusal::DriftRate)?;
    refuse_if(rate_beyond(elements.perigee_rate), Refusal::DriftRate)?;
    refuse_if(99_999 < elements.epoch_revolution, Refusal::EpochRevolution)?;
    refuse_if(beyond, Refusal::MeanMotionDerivative)?;
    refuse_if(!dated, Refusal::Time)
}

#[tactic(auto, unfolding(crate::specs::Time::times_refused))]
fn times_refused(epoch: i64, time: i64) -> bool
    ensures { result ≡ times_refused epoch time }
{
    if !time::in_range(epoch) {
        return true;
    }
    if !time::in_range(time) {
        return true;
    }
    31_622_400 < integer::magnitude(time - epoch)
}

// Whether a time is out of range, or too far from the epoch: 366 days, or 30 where the mean motion
// changes. An epoch out of range is refused by `check`.
#[tactic(auto, unfolding(crate::specs::Time::time_refused))]
pub fn time_refused(elements: Elements, time: i64) -> bool
    ensures { result ≡ time_refused elements time }
{
    let epoch = elements.epoch;
    if times_refused(epoch, time) {
        return true;
    }
    let size = integer::magnitude(elements.half_mean_motion_derivative as i64);
    0 < size && 2_592_000 < integer::magnitude(time - epoch)
}

// Refusals 1 to 7 and 16 of the elements, then 8 for the epoch and the time.
#[tactic(auto, unfolding(crate::specs::Time::checked_at, crate::specs::Elements::refuse_if))]
pub fn check_at(elements: Elements, time: i64) -> Result<(), Refusal>
    ensures { result ≡ checked_at elements time }
{
    check(elements)?;
    refuse_if(time_refused(elements, time), Refusal::Time)
}

impl ElementsAt {
    pub fn of(elements: Elements, time: i64) -> Result<ElementsAt, Refusal>
        ensures ok { IfOk result (λ at. (at.elements ≡ elements) × (at.time ≡ time)) }
        ensures refused { IfErr result (λ refusal. checked_at elements time ≡ Err refusal) }
    {
        check_at(elements, time)?;
        Ok(ElementsAt { elements, time })
    }
}
