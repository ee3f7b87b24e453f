// The refusals of document 01, "When the build says no", each with its number.
#![tactic(auto)]

ghost use Rattle.std.specs.Prelude.{◌≡◌};
ghost use Rattle.refusal.specs.Numbers.{number_of};
ghost use Rattle.refusal.specs.Refused.{refused_at};

#[derive(Clone, Copy, Debug, PartialEq, Eq)]
pub enum Refusal {
    Eccentricity,
    SemiMajorAxis,
    PerigeeDistance,
    Inclination,
    MeanMotion,
    DriftRate,
    EpochRevolution,
    Time,
    TelemetryLength,
    OutputLength,
    Trailer,
    Labels,
    Component,
    Figures,
    MeanMotionDerivative,
    Lines,
    Checksum,
    Field,
    SatelliteNumbers,
    Table,
    Room,
    NoSet,
    Day,
}

impl Refusal {
    // The number of a refusal in document 01's table. 9 is not used (law `never_9`).
    pub fn number(self) -> u32
        ensures { result ≡ number_of self }
    {
        // No discriminants, which could not be wrong as `number_twice` is.
        match self {
            Refusal::Eccentricity => 1,
            Refusal::SemiMajorAxis => 2,
            Refusal::PerigeeDistance => 3,
            Refusal::Inclination => 4,
            Refusal::MeanMotion => 5,
            Refusal::DriftRate => 6,
            Refusal::EpochRevolution => 7,
            Refusal::Time => 8,
            Refusal::TelemetryLength => 10,
            Refusal::OutputLength => 11,
            Refusal::Trailer => 12,
            Refusal::Labels => 13,
            Refusal::Component => 14,
            Refusal::Figures => 15,
            Refusal::MeanMotionDerivative => 16,
            Refusal::Lines => 17,
            Refusal::Checksum => 18,
            Refusal::Field => 19,
            Refusal::SatelliteNumbers => 20,
            Refusal::Table => 21,
            Refusal::Room => 22,
            Refusal::NoSet => 23,
            Refusal::Day => 24,
        }
    }
}

// A refusal with its place: a label, a record or a column, and 0 where the refusal has none.
#[derive(Clone, Copy, Debug, PartialEq, Eq)]
pub struct RefusedAt {
    pub refusal: Refusal,
    pub place: u32,
}

impl From<Refusal> for RefusedAt {
    ghost from_gives = { λ refusal refused. refused ≡ refused_at refusal 0 };

    fn from(refusal: Refusal) -> RefusedAt {
        RefusedAt { refusal, place: 0 }
    }
}
