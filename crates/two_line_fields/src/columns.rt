// The fields of the two lines, and where each begins.
ghost use Rattle.std.specs.Prelude.{T, ◌&&◌, leb};

use crate::Form;

// A field: its first column, counted from 1, and its form.
#[derive(Clone, Copy)]
pub struct Field {
    pub column: u32,
    pub form: Form,
    pub ghost on_line: { T (leb 1 column && leb column 69) },
}

// On either line.
pub const SATELLITE_NUMBER: Field = Field {
    column: 3,
    form: Form::Number,
};

// On line 1.
pub const YEAR: Field = Field {
    column: 19,
    form: Form::Year,
};

pub const DAY: Field = Field {
    column: 21,
    form: Form::Day,
};

pub const HALF_DERIVATIVE: Field = Field {
    column: 34,
    form: Form::HalfDerivative,
};

// On line 2.
pub const INCLINATION: Field = Field {
    column: 9,
    form: Form::Angle,
};

pub const NODE: Field = Field {
    column: 18,
    form: Form::Angle,
};

pub const ECCENTRICITY: Field = Field {
    column: 27,
    form: Form::Eccentricity,
};

pub const ARGUMENT_OF_PERIGEE: Field = Field {
    column: 35,
    form: Form::Angle,
};

pub const MEAN_ANOMALY: Field = Field {
    column: 44,
    form: Form::Angle,
};

pub const MEAN_MOTION: Field = Field {
    column: 53,
    form: Form::MeanMotion,
};

pub const REVOLUTION: Field = Field {
    column: 64,
    form: Form::Number,
};

// The fields of each line, from the left.
pub const FIRST_LINE: [Field; 4] = [SATELLITE_NUMBER, YEAR, DAY, HALF_DERIVATIVE];

pub const SECOND_LINE: [Field; 8] = [
    SATELLITE_NUMBER,
    INCLINATION,
    NODE,
    ECCENTRICITY,
    ARGUMENT_OF_PERIGEE,
    MEAN_ANOMALY,
    MEAN_MOTION,
    REVOLUTION,
];
