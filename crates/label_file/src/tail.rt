// The tail of a label file, asked for its dark test labels.
ghost use Rattle.std.specs.Prelude.{◌≡◌};
ghost use Rattle.label_file.specs.Tail.{tail_size};
ghost use Rattle.label_file.specs.Contract.{TailAnswer};

use refusal::Refusal;
use trailer::{Contents, Form};

const MOST: u64 = trailer::LONGEST as u64;

#[tactic(auto, unfolding(crate::specs::Tail::tail_size))]
fn tail_size(size: u64) -> u64
    ensures { result ≡ tail_size size }
{
    size.min(MOST)
}

// The dark test labels of a file of `size` bytes, from its last 24 bytes, or all where it has fewer; none where
// its trailer does not hold them.
pub fn read_tail(tail: &[u8], size: u64) -> Result<Option<u32>, Refusal>
    ensures { TailAnswer tail.now size result }
{
    if tail.len() as u64 != tail_size(size) {
        return Err(Refusal::Trailer);
    }
    let Contents { form, counts } = trailer::find(tail, size).ok_or(Refusal::Trailer)?;
    match form {
        Form::Bytes16 => Ok(None),
        Form::Bytes24 => Ok(Some(counts.dark_test)),
    }
}
