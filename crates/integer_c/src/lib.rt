// integer::square_root for C, compiled by itself, so that its machine code can be read and called apart
// from all that calls it.
#![tactic(auto)]

ghost use Rattle.std.specs.Prelude.{◌≡◌};
ghost use Rattle.integer.specs.Root.{root};

#[unsafe(no_mangle)]
pub extern "C" fn integer_square_root(n: u64) -> u64
    ensures { result ≡ root n }
{
    integer::square_root(n)
}
