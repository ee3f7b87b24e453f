// An elements file: twelve lines of a name, a space and a whole number, in a fixed order.
#![tactic(auto)]

mod field;
mod line;
mod name;
mod number;

ghost use Rattle.std.specs.Prelude.{◌≡◌, ◌≤◌};
ghost use Rattle.elements_file.specs.Contract.{Consistent, Due};
ghost use Rattle.elements_file.specs.Reading.{malformed_at, at, next_line, next_element, ended, step, concluded, parsed};

use elements::Elements;
use line::Place;
use number::Number;

// What a file breaks.
#[derive(Clone, Copy, Debug, PartialEq, Eq)]
pub enum Fault {
    // The line does not begin with the name of the element that is due, and a space.
    Name,
    // A further line after the last element.
    Extra,
    // A byte below 32, as a tab or a carriage return, outside a comment.
    ControlByte,
    DecimalPoint,
    NotWhole,
    TooLarge,
    // The file ends within a line.
    Unended,
    // The file ends before its last element.
    Missing,
    // The file has more than 65,535 bytes.
    TooLong,
}

// The line from 1, the number from 0 of the element that was due there, and the fault.
#[derive(Clone, Copy, Debug, PartialEq, Eq)]
pub struct Malformed {
    pub line: usize,
    pub element: u32,
    pub fault: Fault,
}

// How far a file has been read: the line from 1, how many elements have been read, what the line holds so
// far, and the elements.
// Elements have numbers, and no enum: every definition of specs/ counts them from 0 in the order of the file, and C gets
// the number.
#[derive(Clone, Copy)]
struct Progress {
    line: usize,
    element: u32,
    place: Place,
    elements: Elements,
}

const START: Progress = Progress {
    line: 1,
    element: 0,
    place: Place::Start,
    elements: Elements {
        eccentricity: 0,
        semi_major_axis: 0,
        inclination: 0,
        node: 0,
        argument_of_perigee: 0,
        mean_anomaly: 0,
        mean_motion: 0,
        node_rate: 0,
        perigee_rate: 0,
        epoch_revolution: 0,
        epoch: 0,
        half_mean_motion_derivative: 0,
    },
};

impl Progress {
    // The same with another place in the line.
    fn at(self, place: Place) -> Progress
        ensures { result ≡ at self place }
    {
        Progress { place, ..self }
    }

    fn next_line(self) -> Progress
        requires { self.line ≤ 65_535 }
        ensures { result ≡ next_line self }
    {
        Progress {
            line: self.line + 1,
            place: Place::Start,
            ..self
        }
    }

    fn next_element(self, number: Number) -> Progress
        requires { Due self number }
        ensures { result ≡ next_element self number }
    {
        Progress {
            line: self.line + 1,
            element: self.element + 1,
            place: Place::Start,
            elements: field::stored(self.elements, self.element, number),
        }
    }

    #[tactic(auto, unfolding(crate::specs::Reading::ended))]
    fn ended(self) -> Progress
        requires { Consistent 65_534 self }
        ensures { result ≡ ended self.place self }
    {
        match self.place {
            Place::Start | Place::Comment => self.next_line(),
            Place::Named(_) => self.at(Place::Faulty(Fault::Name)),
            Place::Value(number) => {
                if number.magnitude.is_some() {
                    self.next_element(number)
                } else {
                    self.at(Place::Faulty(Fault::NotWhole))
                }
            }
            Place::Faulty(_) => self,
        }
    }

    #[tactic(auto, unfolding(crate::specs::Reading::step))]
    fn step(self, byte: u8) -> Progress
        requires { Consistent 65_534 self }
        ensures { result ≡ step self byte }
    {
        if byte == b'\n' {
            return self.ended();
        }
        self.at(line::within(self.place, self.element, byte))
    }

    // The fault of a file where it has been read so far.
    fn malformed_at(self, fault: Fault) -> Malformed
        ensures { result ≡ malformed_at self.line self.element fault }
    {
        Malformed {
            line: self.line,
            element: self.element,
            fault,
        }
    }

    #[tactic(auto, unfolding(crate::specs::Reading::concluded))]
    fn finished(self) -> Result<Elements, Malformed>
        ensures { result ≡ concluded self.place self }
    {
        match self.place {
            Place::Start if self.element == 12 => Ok(self.elements),
            Place::Start => Err(self.malformed_at(Fault::Missing)),
            Place::Faulty(fault) => Err(self.malformed_at(fault)),
            Place::Comment | Place::Named(_) | Place::Value(_) => {
                Err(self.malformed_at(Fault::Unended))
            }
        }
    }
}

// The elements that a file's bytes give, or its first fault.
#[tactic(auto, unfolding(crate::specs::Reading::parsed))]
pub fn parse(text: &[u8]) -> Result<Elements, Malformed>
    ensures { result ≡ parsed text.now }
{
    if 65_535 < text.len() {
        return Err(Malformed {
            line: 1,
            element: 0,
            fault: Fault::TooLong,
        });
    }
    let mut s = START;
    for byte in text {
        s = s.step(*byte);
    }
    s.finished()
}
