// Numbers as an elements file writes them.
ghost use Rattle.std.specs.Prelude.{◌≡◌, ◌≤◌};
ghost use Rattle.elements_file.specs.Numbers.{is_rate, magnitude_of, takes_minus, largest, signed_of};

// A minus or none, and the digits' number, once a digit stands.
#[derive(Clone, Copy)]
pub struct Number {
    // No part of the magnitude: a minus may stand where no digit does.
    pub negative: bool,
    pub magnitude: Option<u64>,
}

fn is_rate(element: u32) -> bool
    ensures { result ≡ is_rate element }
{
    matches!(element, 7 | 8 | 11)
}

// The largest magnitude that an element holds.
#[tactic(auto, unfolding(crate::specs::Numbers::largest))]
pub(crate) fn largest(element: u32, negative: bool) -> u64
    ensures { result ≡ largest element negative }
{
    // There is one more number below zero than above it.
    let more = u64::from(negative);
    if element == 10 {
        0x7fff_ffff_ffff_ffff + more
    } else if is_rate(element) {
        0x7fff_ffff + more
    } else {
        0xffff_ffff
    }
}

impl Number {
    pub(crate) fn magnitude(self) -> u64
        ensures { result ≡ magnitude_of self }
    {
        self.magnitude.unwrap_or(0)
    }

    // Whether a minus may stand next.
    #[tactic(auto, unfolding(crate::specs::Numbers::takes_minus))]
    pub(crate) fn takes_minus(self, element: u32) -> bool
        ensures { result ≡ takes_minus element self }
    {
        !self.negative && self.magnitude.is_none() && (is_rate(element) || element == 10)
    }

    // The number with its sign. A number is read as far as its element holds it, and 64 bits hold every
    // element: this is what the `requires` asks.
    #[tactic(auto, unfolding(crate::specs::Numbers::signed_of))]
    pub(crate) fn signed(self) -> i64
        requires { magnitude_of self ≤ largest 10 self.negative }
        ensures { result ≡ signed_of self }
    {
        let magnitude = self.magnitude();
        if self.negative {
            magnitude.cast_signed().wrapping_neg()
        } else {
            magnitude as i64
        }
    }
}
