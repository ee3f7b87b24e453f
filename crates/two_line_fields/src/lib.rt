// The fields of two-line elements: the number that stands in the columns of each, and the place of one that is
// bad: document 01, "Two-line elements".
#![tactic(auto)]

mod calendar;
mod columns;

ghost use Rattle.std.specs.Prelude.{◌≡◌, ◌≤◌};
ghost use Rattle.two_line_fields.specs.Calendar.{days_before};
ghost use Rattle.two_line_fields.specs.Contract.{Room, InLine};
ghost use Rattle.two_line_fields.specs.Layout.{layout_of};
ghost use Rattle.two_line_fields.specs.Decimals.{byte_of, digit_or_blank, leads_on, further, is_sign, decimal_of};
ghost use Rattle.two_line_fields.specs.Fields.{year_of, day_allowed, allowed, field_of, value_of, place_or};

pub use columns::{
    ARGUMENT_OF_PERIGEE, DAY, ECCENTRICITY, FIRST_LINE, Field, HALF_DERIVATIVE, INCLINATION,
    MEAN_ANOMALY, MEAN_MOTION, NODE, REVOLUTION, SATELLITE_NUMBER, SECOND_LINE, YEAR,
};

// The forms that fields have.
#[derive(Clone, Copy)]
pub enum Form {
    // A satellite number, or a revolution.
    Number,
    Year,
    Day,
    HalfDerivative,
    Angle,
    Eccentricity,
    MeanMotion,
}

// The columns of a form, from the left.
// Each flag says what stands in a column, and has no value beside it.
#[derive(Clone, Copy)]
pub struct Layout {
    pub sign: bool,
    pub ahead: u32,
    pub blanks: bool,
    pub point: bool,
    pub behind: u32,
}

fn layout_of(form: Form) -> Layout
    ensures { result ≡ layout_of form }
{
    match form {
        Form::Number => Layout {
            sign: false,
            ahead: 5,
            blanks: true,
            point: false,
            behind: 0,
        },
        Form::Year => Layout {
            sign: false,
            ahead: 2,
            blanks: false,
            point: false,
            behind: 0,
        },
        Form::Day => Layout {
            sign: false,
            ahead: 3,
            blanks: false,
            point: true,
            behind: 8,
        },
        Form::HalfDerivative => Layout {
            sign: true,
            ahead: 0,
            blanks: false,
            point: true,
            behind: 8,
        },
        Form::Angle => Layout {
            sign: false,
            ahead: 3,
            blanks: true,
            point: true,
            behind: 4,
        },
        Form::Eccentricity => Layout {
            sign: false,
            ahead: 0,
            blanks: false,
            point: false,
            behind: 7,
        },
        Form::MeanMotion => Layout {
            sign: false,
            ahead: 2,
            blanks: true,
            point: true,
            behind: 8,
        },
    }
}

// The byte of a column, counted from 1. Its callers have a numeral of the layout or a field's column, which is on the
// line.
pub fn byte(line: &[u8], column: u32) -> u8
    requires { 1 ≤ column }
    ensures { result ≡ byte_of line.now column }
{
    line.get(column as usize - 1).copied().unwrap_or(0)
}

// A digit, or a blank where blanks may lead.
fn digit_or_blank(leading: bool, byte: u8) -> bool
    ensures { result ≡ digit_or_blank leading byte }
{
    digit::is_digit(byte) || leading && byte == b' '
}

// Whether blanks may lead behind a byte.
fn leads_on(leading: bool, byte: u8) -> bool
    ensures { result ≡ leads_on leading byte }
{
    leading && !digit::is_digit(byte)
}

// What some columns make of the number ahead of them. Room for their digits is what the `requires` asks: the
// layouts have 11 at most.
#[tactic(auto, using(crate::proofs::Digits::column_laws))]
fn further(line: &[u8], column: u32, columns: u32, blanks: bool, ahead: u64) -> Option<u64>
    requires { Room column columns ahead }
    ensures { result ≡ further line.now column columns blanks ahead }
{
    let mut leading = blanks;
    let mut value = ahead;
    for i in 0..columns {
        let byte = byte(line, column + i);
        if !digit_or_blank(leading, byte) {
            return None;
        }
        value = 10 * value + digit::value(byte);
        leading = leads_on(leading, byte);
    }
    Some(value)
}

fn is_sign(byte: u8) -> bool
    ensures { result ≡ is_sign byte }
{
    matches!(byte, b' ' | b'+' | b'-')
}

// A number in units of its last digit, where the columns have one.
#[tactic(auto, unfolding(crate::specs::Decimals::decimal_of))]
fn number_at(line: &[u8], column: u32, layout: Layout) -> Option<u64>
    requires { InLine column layout }
    ensures { result ≡ decimal_of line.now column layout }
{
    let ahead = column + u32::from(layout.sign);
    let point = ahead + layout.ahead;
    let behind = point + u32::from(layout.point);
    if layout.sign && !is_sign(byte(line, column)) {
        return None;
    }
    if layout.point && byte(line, point) != b'.' {
        return None;
    }
    let whole = further(line, ahead, layout.ahead, layout.blanks, 0)?;
    further(line, behind, layout.behind, false, whole)
}

// The year in line 1.
#[tactic(auto, unfolding(crate::specs::Fields::year_of))]
fn year_of(line: &[u8]) -> u64
    ensures { result ≡ year_of line.now }
{
    let digits = number_at(line, YEAR.column, layout_of(YEAR.form)).unwrap_or(0);
    calendar::full_year(digits)
}

// The days from 1957 Jan 0.0 to Jan 0.0 of the year in line 1.
pub fn days_before(line: &[u8]) -> u64
    ensures { result ≡ days_before (year_of line.now) }
{
    calendar::days_before(year_of(line))
}

fn day_allowed(line: &[u8], value: u64) -> bool
    ensures { result ≡ day_allowed line.now value }
{
    let day = value / 100_000_000;
    1 <= day && day <= calendar::days_in(year_of(line))
}

fn allowed(line: &[u8], form: Form, value: u64) -> bool
    ensures { result ≡ allowed line.now form value }
{
    match form {
        Form::Angle => value < 3_600_000,
        Form::Day => day_allowed(line, value),
        Form::Number | Form::Year | Form::HalfDerivative | Form::Eccentricity | Form::MeanMotion =>
            true,
    }
}

// What a field holds.
#[tactic(auto, unfolding(crate::specs::Fields::field_of))]
fn field_of(line: &[u8], field: Field) -> Option<u64>
    ensures { result ≡ field_of line.now field }
{
    let number = number_at(line, field.column, layout_of(field.form))?;
    allowed(line, field.form, number).then_some(number)
}

// The number of a field, 0 where it is bad.
pub fn value(line: &[u8], field: Field) -> u64
    ensures { result ≡ value_of line.now field }
{
    field_of(line, field).unwrap_or(0)
}

// The place of a bad field, or else the one that follows; the columns ahead are those of the lines ahead.
#[tactic(auto, unfolding(crate::specs::Fields::place_or))]
pub fn place_or(ahead: u32, line: &[u8], field: Field, later: u32) -> u32
    requires { ahead ≤ 69 }
    ensures { result ≡ place_or ahead line.now field later }
{
    if field_of(line, field).is_some() {
        return later;
    }
    ahead + field.column
}
