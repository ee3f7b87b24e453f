// Little-endian numbers in slices of bytes. Each function asks that its bytes lie within the slice, a
// length that its callers in the other crates have tested by then: the number of a record or a label
// gives the offset.
#![tactic(auto)]

ghost use Rattle.std.specs.Prelude.{◌≡◌, ℕ, ◌+◌, ◌*◌, ◌≤◌, ◌<◌, ◌^◌, List, length, take, drop};
ghost use Rattle.std.proofs.lemmas.List.Edits.{sets};
ghost use Rattle.std.specs.Int.{w32, w64};
ghost use Rattle.std.proofs.Common.{of_z, to_z};
ghost use Rattle.std.specs.Int.RustNames.{FitsSigned};
ghost use Rattle.endian.specs.LittleEndian.{le4, le8, bytes4, bytes8, words, ReadsBack};
ghost use Rattle.endian.specs.RoundTrip.{laws_u32, laws_u64, laws_i32, laws_i64};

// A number in little-endian bytes.
pub trait LittleEndian: Copy {
    ghost size: { ℕ };

    // The number of the bytes from an offset.
    ghost value_at: { List ℕ → ℕ → Self };

    ghost bytes_of: { Self → List ℕ };

    ghost Fits: { Self → Type 0 };

    ghost laws: { ReadsBack size value_at bytes_of Fits };

    fn read(bytes: &[u8], at: usize) -> Self
        requires { at + size ≤ length bytes.now }
        ensures { result ≡ value_at bytes.now at };

    fn write(self, out: &mut [u8], at: usize)
        requires { at + size ≤ length out.old }
        ensures { out.new ≡ sets out.old at (bytes_of self) };
}

// The N bytes from `at`.
fn array_at<const N: usize>(bytes: &[u8], at: usize) -> [u8; N]
    requires { at + N ≤ length bytes.now }
    ensures { result ≡ take N (drop at bytes.now) }
{
    let mut array = [0; N];
    array.copy_from_slice(&bytes[at..at + N]);
    array
}

impl LittleEndian for u32 {
    ghost size = { 4 };

    ghost value_at = { le4 };

    ghost bytes_of = { bytes4 };

    ghost Fits = { λ x. x < 2 ^ 32 };

    ghost laws = { laws_u32 };

    fn read(bytes: &[u8], at: usize) -> u32 {
        u32::from_le_bytes(array_at(bytes, at))
    }

    #[tactic(auto, using(crate::proofs::Stores::copied, crate::proofs::Stores::bytes4_is))]
    fn write(self, out: &mut [u8], at: usize) {
        out[at..at + 4].copy_from_slice(&self.to_le_bytes());
    }
}

impl LittleEndian for i32 {
    ghost size = { 4 };

    ghost value_at = { λ s at. to_z w32 (le4 s at) };

    ghost bytes_of = { λ x. bytes4 (of_z w32 x) };

    ghost Fits = { FitsSigned w32 };

    ghost laws = { laws_i32 };

    fn read(bytes: &[u8], at: usize) -> i32 {
        u32::read(bytes, at).cast_signed()
    }

    fn write(self, out: &mut [u8], at: usize) {
        u32::write(self.cast_unsigned(), out, at);
    }
}

impl LittleEndian for u64 {
    ghost size = { 8 };

    ghost value_at = { le8 };

    ghost bytes_of = { bytes8 };

    ghost Fits = { λ x. x < 2 ^ 64 };

    ghost laws = { laws_u64 };

    fn read(bytes: &[u8], at: usize) -> u64 {
        u64::from_le_bytes(array_at(bytes, at))
    }

    #[tactic(auto, using(crate::proofs::Stores::copied, crate::proofs::Stores::bytes8_is))]
    fn write(self, out: &mut [u8], at: usize) {
        out[at..at + 8].copy_from_slice(&self.to_le_bytes());
    }
}

impl LittleEndian for i64 {
    ghost size = { 8 };

    ghost value_at = { λ s at. to_z w64 (le8 s at) };

    ghost bytes_of = { λ x. bytes8 (of_z w64 x) };

    ghost Fits = { FitsSigned w64 };

    ghost laws = { laws_i64 };

    fn read(bytes: &[u8], at: usize) -> i64 {
        u64::read(bytes, at).cast_signed()
    }

    fn write(self, out: &mut [u8], at: usize) {
        u64::write(self.cast_unsigned(), out, at);
    }
}

#[tactic(auto, using(crate::proofs::Stores::copied))]
pub fn write_four(out: &mut [u8], at: usize, four: [u8; 4])
    requires { at + 4 ≤ length out.old }
    ensures { out.new ≡ sets out.old at four }
{
    out[at..at + 4].copy_from_slice(&four);
}

// Numbers of four bytes one after another.
#[tactic(auto, using(crate::proofs::Words::word_stored), unfolding(crate::specs::LittleEndian::words))]
pub fn write_words(out: &mut [u8], at: usize, numbers: &[u32])
    requires { at + 4 * length numbers.now ≤ length out.old }
    ensures { out.new ≡ sets out.old at (words numbers.now) }
{
    for (i, number) in numbers.iter().enumerate() {
        number.write(out, at + 4 * i);
    }
}
