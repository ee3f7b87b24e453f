// Two-line elements: document 01, "Two-line elements".
#![tactic(auto)]

mod epoch;
mod line;

ghost use Rattle.std.specs.Prelude.{◌≡◌, ◌-◌, ◌^◌, ◌≤◌, min, eqb};
ghost use Rattle.trig.specs.Angle.{angle_of};
ghost use Rattle.two_line_fields.specs.declared.Form.TheVariants.{Angle};
ghost use Rattle.two_line_fields.specs.Fields.{value_of, bad_from};
ghost use Rattle.two_line_fields.specs.Layout.{satellite_number, mean_motion};
ghost use Rattle.two_line.specs.Reading.{derivative_of, taken_with, two_line_reading};

use elements::Elements;
use refusal::{Refusal, RefusedAt};
use two_line_fields::{
    ARGUMENT_OF_PERIGEE, ECCENTRICITY, FIRST_LINE, Field, HALF_DERIVATIVE, INCLINATION,
    MEAN_ANOMALY, MEAN_MOTION, NODE, REVOLUTION, SATELLITE_NUMBER, SECOND_LINE,
};

// The place of the first bad field of a line, or else the one that follows; the columns ahead are those of the
// lines ahead.
fn bad_from(ahead: u32, line: &[u8], fields: &[Field], later: u32) -> u32
    requires { ahead ≤ 69 }
    ensures { result ≡ bad_from ahead line.now fields.now later }
{
    for field in fields {
        let place = two_line_fields::place_or(ahead, line, *field, 0);
        if place != 0 {
            return place;
        }
    }
    later
}

fn same_satellite(first: &[u8], second: &[u8]) -> bool
    ensures { result ≡ eqb (value_of first.now satellite_number) (value_of second.now satellite_number) }
{
    two_line_fields::value(first, SATELLITE_NUMBER)
        == two_line_fields::value(second, SATELLITE_NUMBER)
}

// A minus makes it negative.
#[tactic(auto, unfolding(crate::specs::Reading::derivative_of))]
fn half_derivative(first: &[u8]) -> i32
    ensures { result ≡ derivative_of first.now }
{
    let size = two_line_fields::value(first, HALF_DERIVATIVE) as i32;
    if two_line_fields::byte(first, HALF_DERIVATIVE.column) == b'-' {
        -size
    } else {
        size
    }
}

// The mean motion of line 2, as far as 32 bits hold it: 5 refuses the greatest number that they hold.
fn mean_motion(second: &[u8]) -> u32
    ensures { result ≡ min (value_of second.now mean_motion) (2 ^ 32 - 1) }
{
    u32::try_from(two_line_fields::value(second, MEAN_MOTION)).unwrap_or(u32::MAX)
}

#[tactic(auto, using(two_line_fields::proofs::Values::angle_small))]
fn angle(line: &[u8], field: Field) -> u32
    requires { field.form ≡ Angle }
    ensures { result ≡ angle_of (value_of line.now field) }
{
    trig::angle(two_line_fields::value(line, field) as u32)
}

// The elements of two lines, with the mean motion n.
#[tactic(auto, using(two_line_fields::proofs::Values::value_small, crate::proofs::Epochs::amount_small), unfolding(crate::specs::Reading::taken_with))]
fn taken_with(
    n: u32,
    first: &[u8],
    second: &[u8],
    semi_major_axis: u32,
    node_rate: i32,
    perigee_rate: i32,
) -> Elements
    ensures { result ≡ taken_with n first.now second.now semi_major_axis node_rate perigee_rate }
{
    let perigee = angle(second, ARGUMENT_OF_PERIGEE);
    let anomaly = angle(second, MEAN_ANOMALY);
    let amount = epoch::amount(n, first);
    let number = two_line_fields::value(second, REVOLUTION) as u32;
    Elements {
        eccentricity: two_line_fields::value(second, ECCENTRICITY) as u32,
        semi_major_axis,
        inclination: angle(second, INCLINATION),
        node: angle(second, NODE),
        argument_of_perigee: perigee,
        mean_anomaly: epoch::moved_back(anomaly, amount),
        mean_motion: n,
        node_rate,
        perigee_rate,
        epoch_revolution: epoch::revolution_back(
            number,
            u64::from(anomaly) + u64::from(perigee),
            amount,
        ),
        epoch: epoch::epoch(first),
        half_mean_motion_derivative: half_derivative(first),
    }
}

// The elements of two lines, with the semi-major axis and the drift rates beside them; or refusals 17, 18, 19,
// 20, in this order, then those of elements. 19 has the first column of a field, on the second line with the
// 69 of the first ahead of it.
#[tactic(auto, unfolding(crate::specs::Reading::two_line_reading, two_line_fields::specs::Fields::first_bad))]
pub fn read(
    first: &[u8],
    second: &[u8],
    semi_major_axis: u32,
    node_rate: i32,
    perigee_rate: i32,
) -> Result<Elements, RefusedAt>
    ensures { result ≡ two_line_reading first.now second.now semi_major_axis node_rate perigee_rate }
{
    if !(line::begins(b'1', first) && line::begins(b'2', second)) {
        return Err(Refusal::Lines.into());
    }
    if !(line::checksum_holds(first) && line::checksum_holds(second)) {
        return Err(Refusal::Checksum.into());
    }
    let place = bad_from(0, first, &FIRST_LINE, bad_from(69, second, &SECOND_LINE, 0));
    let same = same_satellite(first, second);
    if place != 0 {
        return Err(RefusedAt {
            refusal: Refusal::Field,
            place,
        });
    }
    if !same {
        return Err(Refusal::SatelliteNumbers.into());
    }
    let elements = taken_with(
        mean_motion(second),
        first,
        second,
        semi_major_axis,
        node_rate,
        perigee_rate,
    );
    elements::check(elements)?;
    Ok(elements)
}
