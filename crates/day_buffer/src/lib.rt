// The state of a day in a buffer of the C interface: include/yurdelmiz.h.
#![tactic(auto)]

ghost use Rattle.std.specs.Prelude.{◌≡◌, ◌+◌, ◌≤◌, length, drop};
ghost use Rattle.std.proofs.lemmas.List.Edits.{sets};
ghost use Rattle.day_buffer.specs.State.{counts_in, day_of, day_bytes};

use endian::LittleEndian;
use packets::Day;
use trailer::Counts;

#[tactic(auto, unfolding(crate::specs::State::counts_in))]
fn read_counts(buffer: &[u8]) -> Counts
    requires { 72 ≤ length buffer.now }
    ensures { result ≡ counts_in buffer.now }
{
    Counts {
        labels: u32::read(buffer, 52),
        training: u32::read(buffer, 56),
        test: u32::read(buffer, 60),
        dark: u32::read(buffer, 64),
        dark_test: u32::read(buffer, 68),
    }
}

fn read_held(buffer: &[u8]) -> [u8; 15]
    requires { length buffer.now ≡ 89 }
    ensures { result ≡ drop 74 buffer.now }
{
    let mut held = [0u8; 15];
    held.copy_from_slice(&buffer[74..]);
    held
}

// The state in a buffer whose length is found to be the header's. Of the byte for a closed day 24 refuses
// whatever is not 0.
#[tactic(auto, unfolding(crate::specs::State::day_of))]
pub fn read_day(buffer: &[u8]) -> Day
    requires { length buffer.now ≡ 89 }
    ensures { result ≡ day_of buffer.now }
{
    Day {
        elements: elements_buffer::read_elements(buffer),
        counts: read_counts(buffer),
        closed: buffer[72] != 0,
        have: buffer[73],
        held: read_held(buffer),
    }
}

#[tactic(auto, using(endian::proofs::Stores::copied))]
fn write_bytes(buffer: &mut [u8], at: usize, bytes: &[u8])
    requires { at + length bytes.now ≤ length buffer.old }
    ensures { buffer.new ≡ sets buffer.old at bytes.now }
{
    buffer[at..at + bytes.len()].copy_from_slice(bytes);
}

// Fills a buffer whose length is found to be the header's.
pub fn write_day(buffer: &mut [u8], day: Day)
    requires { length buffer.old ≡ 89 }
    ensures { buffer.new ≡ day_bytes day }
{
    elements_buffer::write_elements(buffer, 0, day.elements);
    buffers::write_counts(buffer, 52, day.counts);
    write_bytes(buffer, 72, &[day.closed as u8, day.have]);
    write_bytes(buffer, 74, &day.held);
}
