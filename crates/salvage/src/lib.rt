// Salvage: the labels of a file that has lost its end, with a fresh trailer: document 01, "Telemetry and
// labels".
#![tactic(auto)]

ghost use Rattle.std.specs.Prelude.{◌≡◌};
ghost use Rattle.salvage.specs.Salvage.{whole_labels};
ghost use Rattle.salvage.specs.Contract.{Salvaged};

use refusal::Refusal;
use trailer::{Form, MOST_LABELS};

// How many labels salvage kept, and how many bytes it dropped.
#[derive(Clone, Copy, Debug, PartialEq, Eq)]
pub struct Kept {
    pub labels: u32,
    pub dropped: usize,
}

// The whole labels that so many bytes have room for, 1,024 at most.
fn whole_labels(size: usize) -> usize
    ensures { result ≡ whole_labels size }
{
    (size / label::SIZE).min(MOST_LABELS as usize)
}

// Keeps the labels at the start of some bytes, up to the first that breaks a field rule, and writes them
// with a trailer from the start of the output on. A refusal writes nothing.
pub fn keep_labels(body: &[u8], output: &mut [u8]) -> Result<Kept, Refusal>
    ensures { Salvaged body.now output.old output.new result }
{
    let whole = whole_labels(body.len());
    let counts = label_file::count_labels(body, whole);
    if output.len() < trailer::distance_back(Form::Bytes24, counts.labels) {
        return Err(Refusal::OutputLength);
    }
    let size = label::SIZE * (counts.labels as usize);
    output[..size].copy_from_slice(&body[..size]);
    trailer::write_trailer(counts, output, size);
    Ok(Kept {
        labels: counts.labels,
        dropped: body.len() - size,
    })
}
