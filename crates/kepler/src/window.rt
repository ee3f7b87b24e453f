// The window: up to which angle k is at most m, and from which on it is above m, as far as one value of k tells. From one angle to the next k
// need not rise, but over a way of many angles it rises by a known part of the way, less what the cuts take.
ghost use Rattle.std.specs.Prelude.{◌^◌, ◌<◌, ◌≤◌};
ghost use Rattle.trig.specs.Contract.{Bounded};
ghost use Rattle.kepler.specs.Contract.{Around, Decides, Reaches};
ghost use Rattle.kepler.specs.Kepler.{equation};

use crate::UNIT;
use trig::ONE;

// k is at most m up to the angle `from`, and above m from the angle `to` on.
#[derive(Clone, Copy)]
pub struct Window {
    pub from: u64,
    pub to: u64,
}

// After how many angles k has come from `have` to `need`, where it gains at least a part with each, in units of 10^-7, and the cuts take the slack.
fn angles(part: u64, slack: u64, need: u64, have: u64) -> u64
    requires { (1 ≤ part) × (slack ≤ 38_450_000) × (need ≤ 2 ^ 33) × (have ≤ 2 ^ 33) }
    ensures { Reaches part slack need have result }
{
    (need * UNIT + slack).saturating_sub(have * UNIT) / part + 1
}

// The window round a guess, where k rises by the part 1 - share/10^7 of the way. The slack is what the cuts of S, g and h can take from that.
fn around(e: u64, share: u64, m: u64, guess: u64, k: u64) -> Window
    requires { (e ≤ 9_000_000) × (share ≤ 9_000_001) × (m < 2 ^ 32) × (guess ≤ 2 ^ 32) × Bounded (2 ^ 33) (equation e guess) k }
    ensures { Around e share m guess result.from result.to }
{
    let slack = 16_400_000 + e * 49 / 20;
    let part = UNIT - share;
    let up = angles(part, slack, m, k);
    let down = angles(part, slack, k, m + 1);
    Window {
        from: guess.saturating_sub(down),
        to: guess + up,
    }
}

// The window round a guess whose k is given. It holds whatever the guess is, and is narrow where the guess is good. In the second and the third
// quarter k rises faster; 8 angles of these make up for the slack beyond them.
pub(crate) fn of_guess(e: u64, m: u64, guess: u64, k: u64) -> Window
    requires { (e ≤ 9_000_000) × (m < 2 ^ 32) × (guess ≤ 2 ^ 32) × Bounded (2 ^ 33) (equation e guess) k }
    ensures { Decides e m 0 result.from result.to }
{
    let narrow = around(e, e / 3 + 1, m, guess, k);
    if ONE + 8 <= narrow.from && narrow.to + 8 <= 3 * ONE {
        narrow
    } else {
        around(e, e + 1, m, guess, k)
    }
}
