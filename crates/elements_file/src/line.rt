// What a byte does to the line that it stands in.
ghost use Rattle.std.specs.Prelude.{◌≡◌, ◌≤◌};
ghost use Rattle.elements_file.specs.Contract.{NameAt, Fitting};
ghost use Rattle.elements_file.specs.Numbers.{grown};
ghost use Rattle.elements_file.specs.Lines.{refused, named, counted, valued, begun, within};

use crate::number::Number;
use crate::{Fault, name, number};

// What a line holds so far: nothing, the beginning of a comment, that many bytes of the name that is due,
// the name, its space and a beginning of a number, or a fault.
#[derive(Clone, Copy)]
pub enum Place {
    Start,
    Comment,
    Named(usize),
    Value(Number),
    Faulty(Fault),
}

#[tactic(auto, unfolding(crate::specs::Lines::refused))]
fn refused(byte: u8, fault: Fault) -> Place
    ensures { result ≡ refused byte fault }
{
    if byte < 32 {
        return Place::Faulty(Fault::ControlByte);
    }
    Place::Faulty(fault)
}

#[tactic(auto, unfolding(crate::specs::Lines::named))]
fn named(element: u32, k: usize, byte: u8) -> Place
    requires { NameAt element k }
    ensures { result ≡ named element k byte }
{
    if byte != name::byte(element, k) {
        return refused(byte, Fault::Name);
    }
    if byte == b' ' {
        return Place::Value(Number {
            negative: false,
            magnitude: None,
        });
    }
    Place::Named(k + 1)
}

#[tactic(auto, using(crate::proofs::Magnitudes::largest_digit), unfolding(crate::specs::Lines::counted))]
fn counted(element: u32, number: Number, digit: u64) -> Place
    requires { digit ≤ 9 }
    ensures { result ≡ counted element (grown number digit) }
{
    let magnitude = number.magnitude();
    if (number::largest(element, number.negative) - digit) / 10 < magnitude {
        return Place::Faulty(Fault::TooLarge);
    }
    Place::Value(Number {
        negative: number.negative,
        magnitude: Some(10 * magnitude + digit),
    })
}

#[tactic(auto, unfolding(crate::specs::Lines::valued))]
fn valued(element: u32, number: Number, byte: u8) -> Place
    ensures { result ≡ valued element number byte }
{
    if digit::is_digit(byte) {
        return counted(element, number, digit::value(byte));
    }
    if byte == b'-' {
        if number.takes_minus(element) {
            return Place::Value(Number {
                negative: true,
                magnitude: None,
            });
        }
        return Place::Faulty(Fault::NotWhole);
    }
    if byte == b'.' {
        return Place::Faulty(Fault::DecimalPoint);
    }
    refused(byte, Fault::NotWhole)
}

#[tactic(auto, unfolding(crate::specs::Lines::begun))]
fn begun(element: u32, byte: u8) -> Place
    requires { element ≤ 12 }
    ensures { result ≡ begun element byte }
{
    if byte == b'#' {
        return Place::Comment;
    }
    if element == 12 {
        return refused(byte, Fault::Extra);
    }
    named(element, 0, byte)
}

// The line with a further byte that does not end it. The reader keeps the element and the place together,
// which is what the `requires` asks.
#[tactic(auto, unfolding(crate::specs::Lines::within))]
pub(crate) fn within(place: Place, element: u32, byte: u8) -> Place
    requires { (element ≤ 12) × Fitting element place }
    ensures { result ≡ within place element byte }
{
    match place {
        Place::Start => begun(element, byte),
        Place::Comment => Place::Comment,
        Place::Named(k) => named(element, k, byte),
        Place::Value(number) => valued(element, number, byte),
        Place::Faulty(fault) => Place::Faulty(fault),
    }
}
