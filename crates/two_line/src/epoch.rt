// The epoch, moved back to the full second, and the mean anomaly and the revolution with it.
ghost use Rattle.std.specs.Prelude.{◌≡◌, ◌^◌, ◌≤◌};
ghost use Rattle.two_line.specs.Reading.{microseconds, seconds_of, epoch_of, amount_of, moved_back, revolution_back};

use two_line_fields::DAY;

// The millionths of a second from the start of the epoch's day.
#[tactic(auto, unfolding(crate::specs::Reading::microseconds))]
fn microseconds(first: &[u8]) -> u64
    ensures { result ≡ microseconds first.now }
{
    two_line_fields::value(first, DAY) % 100_000_000 * 864
}

// The full seconds from 1957 Jan 0.0.
#[tactic(auto, using(two_line_fields::proofs::Values::year_range, two_line_fields::proofs::Values::days_small, two_line_fields::proofs::Values::day_small, crate::proofs::Epochs::microseconds_small), unfolding(crate::specs::Reading::seconds_of))]
fn seconds(first: &[u8]) -> u64
    ensures { result ≡ seconds_of first.now }
{
    let before = two_line_fields::days_before(first);
    let day = two_line_fields::value(first, DAY) / 100_000_000;
    86_400 * (before + day) + microseconds(first) / 1_000_000
}

// From 1990 Jan 0.0, which is 12,053 days after 1957 Jan 0.0.
#[tactic(auto, unfolding(crate::specs::Reading::epoch_of))]
pub(crate) fn epoch(first: &[u8]) -> i64
    ensures { result ≡ epoch_of first.now }
{
    seconds(first) as i64 - 1_041_379_200
}

// What the mean motion turns in the part of a second that is cut.
#[tactic(auto, unfolding(crate::specs::Reading::amount_of))]
pub(crate) fn amount(mean_motion: u32, first: &[u8]) -> u64
    ensures { result ≡ amount_of mean_motion first.now }
{
    let part = microseconds(first) % 1_000_000;
    u64::from(mean_motion) * part * 2_048 / 4_119_873_046_875
}

// No mean motion of 32 bits turns a whole turn in a second, which the `requires` asks.
#[tactic(auto, unfolding(crate::specs::Reading::moved_back))]
pub(crate) fn moved_back(angle: u32, amount: u64) -> u32
    requires { amount ≤ 2 ^ 32 }
    ensures { result ≡ moved_back angle amount }
{
    let angle = u64::from(angle);
    if angle < amount {
        (angle + 0x1_0000_0000 - amount) as u32
    } else {
        (angle - amount) as u32
    }
}

// The number of the revolution, where the mean anomaly and the argument of perigee have that sum.
#[tactic(auto, unfolding(crate::specs::Reading::revolution_back))]
pub(crate) fn revolution_back(number: u32, sum: u64, amount: u64) -> u32
    ensures { result ≡ revolution_back number sum amount }
{
    if number == 0 {
        return 0;
    }
    if sum % 0x1_0000_0000 < amount {
        number - 1
    } else {
        number
    }
}
