// Labels: the side of a revolution, a label's 24 bytes, and the field rules of refusal 13.
#![tactic(auto)]

ghost use Rattle.std.specs.Prelude.{◌≡◌, ◌+◌, ◌≤◌, pos, ◌+ℤ◌, length};
ghost use Rattle.std.proofs.lemmas.List.Edits.{sets};
ghost use Rattle.label.specs.Sides.{side_of};
ghost use Rattle.label.specs.Layout.{label_size, label_bytes, fields_at, label_of};
ghost use Rattle.label.specs.Codec.{decoded};

use endian::LittleEndian;
use telemetry::Reading;

mod fields;
mod rules;

pub const SIZE: usize = 24;

// The sides of a label, besides 0 for withheld.
pub const TRAINING: u8 = 1;

pub const TEST: u8 = 2;

#[derive(Clone, Copy)]
pub struct Label {
    pub time: i64,
    pub revolution: i32,
    // Numbers, and no enums: `of_part` makes a label of any bytes, as `label_of` says.
    pub side: u8,
    pub shade: u8,
    pub reading: Reading,
    pub elevation: i32,
}

// A revolution moved up by a multiple of 80, the least that leaves none below zero: its side is the same,
// and its divisions need no sign.
#[tactic(auto, using(crate::proofs::Shifted::moved_up))]
fn moved_up(revolution: i32) -> u64
    ensures { pos result ≡ revolution +ℤ pos 2_147_483_680 }
{
    (revolution as i64 + 2_147_483_680) as u64
}

// The side of a revolution: 0 withheld, 1 training, 2 test.
#[tactic(auto, using(crate::proofs::Shifted::same_blocks), unfolding(crate::specs::Sides::side_of))]
pub fn side(revolution: i32) -> u8
    ensures { result ≡ side_of revolution }
{
    let n = moved_up(revolution);
    if n % 16 == 0 {
        return 0;
    }
    if n / 16 % 5 == 4 { TEST } else { TRAINING }
}

// Writes a label's 24 bytes from `at` on. Whoever writes a file has tested the room for its labels by
// then, which is what the `requires` asks.
pub fn encode(label: Label, out: &mut [u8], at: usize)
    requires { at + label_size ≤ length out.old }
    ensures { out.new ≡ sets out.old at (label_bytes label) }
{
    let reading = label.reading;
    let code = reading.code();
    let watts = reading.watts_bits();
    label.time.write(out, at);
    label.revolution.write(out, at + 8);
    endian::write_four(out, at + 12, [label.side, label.shade, code, 0]);
    label.elevation.write(out, at + 16);
    watts.write(out, at + 20);
}

// The label of a part of a file, where the part is one.
#[tactic(auto, unfolding(crate::specs::Codec::decoded, crate::specs::Codec::judged))]
pub fn decode(part: &[u8]) -> Option<Label>
    ensures { result ≡ decoded part.now }
{
    if part.len() != SIZE {
        return None;
    }
    let fields = fields::fields_at(part);
    rules::keeps_rules(fields).then_some(fields::label_of(fields))
}

// The label that a part's fields make, with no test of the rules: the parts of an accepted file keep
// them. Whoever takes one out of a file has tested the file's size by then, which is what the `requires`
// asks.
pub fn of_part(part: &[u8]) -> Label
    requires { label_size ≤ length part.now }
    ensures { result ≡ label_of (fields_at part.now) }
{
    fields::label_of(fields::fields_at(part))
}
