// Kepler's equation by halving: document 01, "Kepler's equation".
#![tactic(auto)]

mod guess;
mod window;

ghost use Rattle.std.specs.Prelude.{◌≡◌, ◌+◌, ◌^◌, ◌≤◌};
ghost use Rattle.trig.specs.Contract.{Bounded};
ghost use Rattle.kepler.specs.Contract.{AnomalyAt, Decides, DecidesAt, SolvedBy, lower_end, raised_to};
ghost use Rattle.kepler.specs.Kepler.{equation, halve};

use refusal::Refusal;
use trig::{HALF_TURN, ONE, TURN};
use window::Window;

// The unit of eccentricity: this many make 1.
const UNIT: u64 = 10_000_000;

// The halvings made: they leave one angle of a whole turn.
const HALVINGS: u64 = 32;

// An eccentric anomaly, with the number of halvings made.
#[derive(Clone, Copy)]
pub struct Anomaly {
    pub angle: u32,
    pub halvings: u32,
}

// k at an angle from 0 to a whole turn.
fn equation(e: u64, angle: u64) -> u64
    requires { (e ≤ 9_000_000) × (angle ≤ 2 ^ 32) }
    ensures { Bounded (2 ^ 33) (equation e angle) result }
{
    let s = trig::sine_magnitude((angle % TURN) as u32);
    let g = e * s / UNIT;
    let h = g * 683_565_276 / ONE;
    if angle < HALF_TURN {
        angle - h
    } else {
        angle + h
    }
}

// The window's `from`, or the middle where that becomes the lower end and lies beyond it. k is evaluated only where the middle lies between
// the window's ends, which is one test, most often false: on which side of them the middle lies could not be foreseen. Where it is not beyond
// `from`, the difference wraps and is great.
fn raised(e: u64, m: u64, window: Window, middle: u64) -> u64
    requires { (e ≤ 9_000_000) × DecidesAt e m window.from window.to middle }
    ensures { result ≡ raised_to e m window.from middle }
{
    let beyond = middle.wrapping_sub(window.from + 1);
    if beyond < window.to - window.from - 1 && equation(e, middle) <= m {
        middle
    } else {
        window.from
    }
}

// The lower end after the halvings that are left, of the interval of `width` angles that the window's `from` lies in. Most halvings need no
// evaluation of k: up to `from` it is at most m, and from `to` on it is above m, so that the half in which `from` lies is the one that is left.
fn halve(e: u64, m: u64, window: Window, width: u64, left: u64) -> u64
    requires { (e ≤ 9_000_000) × (width ≡ 2 ^ left) × (left ≤ 32) × (lower_end width window.from + width ≤ 2 ^ 32) × Decides e m (lower_end width window.from) window.from window.to }
    ensures { result ≡ halve e m (lower_end width window.from) left }
{
    if left == 0 {
        return window.from;
    }
    let half = width / 2;
    let middle = (window.from >> left) * width + half;
    let next = Window {
        from: raised(e, m, window, middle),
        to: window.to,
    };
    halve(e, m, next, half, left - 1)
}

// The eccentric anomaly of an eccentricity that the caller has found to be at most 9,000,000: without that, k may be below 0.
pub fn eccentric_anomaly(eccentricity: u32, mean_anomaly: u32) -> Anomaly
    requires { eccentricity ≤ 9_000_000 }
    ensures { AnomalyAt eccentricity mean_anomaly result }
{
    if eccentricity == 0 {
        return Anomaly {
            angle: mean_anomaly,
            halvings: 0,
        };
    }
    let e = eccentricity as u64;
    let m = mean_anomaly as u64;
    let near = guess::guess(eccentricity, mean_anomaly);
    let k = equation(e, near);
    let window = window::of_guess(e, m, near, k);
    let lower_end = halve(e, m, window, TURN, HALVINGS);
    let angle = lower_end as u32;
    Anomaly {
        angle,
        halvings: HALVINGS as u32,
    }
}

// The Kepler solver.
pub fn solve(eccentricity: u32, mean_anomaly: u32) -> Result<Anomaly, Refusal>
    ensures { SolvedBy eccentricity mean_anomaly result }
{
    if 9_000_000 < eccentricity {
        return Err(Refusal::Eccentricity);
    }
    Ok(eccentric_anomaly(eccentricity, mean_anomaly))
}
