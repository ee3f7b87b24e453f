// Scale figures in a buffer of the C interface: include/yurdelmiz.h.
#![tactic(auto)]

ghost use Rattle.std.specs.Prelude.{◌≡◌, ◌+◌, ◌≤◌, length};
ghost use Rattle.std.proofs.lemmas.List.Edits.{sets};
ghost use Rattle.figures_buffer.specs.FigureBytes.{extreme_at, figures_in, extreme_bytes, figures_bytes};

use endian::LittleEndian;
use scale::Figures;
use telemetry::float;

#[tactic(auto, unfolding(crate::specs::FigureBytes::extreme_at))]
fn read_extreme(buffer: &[u8], at: usize) -> Option<f32>
    requires { at + 8 ≤ length buffer.now }
    ensures { result ≡ extreme_at buffer.now at }
{
    if u32::read(buffer, at) == 0 {
        None
    } else {
        Some(float::of_bits(u32::read(buffer, at + 4)))
    }
}

// The figures in a buffer whose length is found to be the header's.
#[tactic(auto, unfolding(crate::specs::FigureBytes::figures_in))]
pub fn read_figures(buffer: &[u8]) -> Figures
    requires { length buffer.now ≡ 48 }
    ensures { result ≡ figures_in buffer.now }
{
    Figures {
        files: u32::read(buffer, 0),
        labels: u32::read(buffer, 4),
        dark: u32::read(buffer, 8),
        valid: u32::read(buffer, 12),
        least: read_extreme(buffer, 16),
        greatest: read_extreme(buffer, 24),
        sines: i64::read(buffer, 32),
        squares: u64::read(buffer, 40),
    }
}

#[tactic(auto, unfolding(endian::specs::LittleEndian::words))]
fn write_extreme(buffer: &mut [u8], at: usize, extreme: Option<f32>)
    requires { at + 8 ≤ length buffer.old }
    ensures { buffer.new ≡ sets buffer.old at (extreme_bytes extreme) }
{
    let numbers = match extreme {
        None => [0, 0],
        Some(x) => [1, float::bits_of(x)],
    };
    endian::write_words(buffer, at, &numbers);
}

// Fills a buffer whose length is found to be the header's.
pub fn write_figures(buffer: &mut [u8], figures: Figures)
    requires { length buffer.old ≡ 48 }
    ensures { buffer.new ≡ figures_bytes figures }
{
    let counts = [figures.files, figures.labels, figures.dark, figures.valid];
    endian::write_words(buffer, 0, &counts);
    write_extreme(buffer, 16, figures.least);
    write_extreme(buffer, 24, figures.greatest);
    figures.sines.write(buffer, 32);
    figures.squares.write(buffer, 40);
}
