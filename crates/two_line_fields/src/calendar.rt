// Years and their days.
ghost use Rattle.std.specs.Prelude.{◌≡◌, ◌≤◌};
ghost use Rattle.two_line_fields.specs.Calendar.{full_year, days_in, days_before};

// The year of two digits, as two columns have it.
pub(crate) fn full_year(digits: u64) -> u64
    requires { digits ≤ 99 }
    ensures { result ≡ full_year digits }
{
    if digits < 57 {
        2_000 + digits
    } else {
        1_900 + digits
    }
}

pub(crate) fn days_in(year: u64) -> u64
    ensures { result ≡ days_in year }
{
    if year % 4 == 0 { 366 } else { 365 }
}

// The days from 1957 Jan 0.0 to the year's; a year of two digits is from 1957 on, which the `requires` asks.
pub(crate) fn days_before(year: u64) -> u64
    requires { (1957 ≤ year) × (year ≤ 2056) }
    ensures { result ≡ days_before year }
{
    let years = year - 1_957;
    365 * years + years / 4
}
