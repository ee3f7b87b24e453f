// The three shades and their codes.
#![tactic(auto)]

ghost use Rattle.std.specs.Prelude.{◌≡◌};
ghost use Rattle.shade.specs.Codes.{shade_code};

#[derive(Clone, Copy)]
pub enum Shade {
    Lit,
    // In the umbra.
    Dark,
    // In the penumbra.
    Part,
}

impl Shade {
    // The code of a shade, as labels and answers have it.
    pub fn code(self) -> u8
        ensures { result ≡ shade_code self }
    {
        // No discriminants, which could not be wrong as `one_code_for_two` is.
        match self {
            Shade::Lit => 0,
            Shade::Dark => 1,
            Shade::Part => 2,
        }
    }
}
