// A set put into a table.
ghost use Rattle.std.specs.Prelude.{◌≡◌, ◌+◌, ◌*◌, ◌-◌, ◌≤◌, ◌++◌, length, take, drop};
ghost use Rattle.std.proofs.lemmas.List.Edits.{sets};
ghost use Rattle.elements_buffer.specs.Buffer.{elements_bytes};
ghost use Rattle.element_sets.specs.Table.{row_size};
ghost use Rattle.element_sets.specs.Putting.{putting, stored};
ghost use Rattle.element_sets.specs.Contract.{Roomy};

use crate::table;
use crate::table::Split;
use elements::Elements;
use elements_buffer::SIZE;
use refusal::Refusal;

// Moves the bytes from `from` up to `size` to `to`. Where they are there already, as behind a row that is written over,
// nothing is touched.
#[tactic(auto, using(crate::proofs::Moves::moved_up, endian::proofs::Stores::sets_own))]
fn move_rows(buffer: &mut [u8], from: usize, size: usize, to: usize)
    requires { (from ≤ size) × (size ≤ length buffer.old) × (to + (size - from) ≤ length buffer.old) }
    ensures { buffer.new ≡ sets buffer.old to (drop from (take size buffer.old)) }
{
    if from != to {
        buffer.copy_within(from..size, to);
    }
}

// The set behind the earlier rows, and the later ones behind it. A row of its own epoch is written over.
#[tactic(auto, using(crate::proofs::Moves::set_placed))]
fn place(buffer: &mut [u8], split: Split, size: usize, elements: Elements)
    requires { Roomy split.earlier split.up_to size (length buffer.old) }
    ensures { buffer.new ≡ sets buffer.old (row_size * split.earlier) (elements_bytes elements ++ drop (row_size * split.up_to) (take size buffer.old)) }
{
    let at = SIZE * split.earlier;
    move_rows(buffer, SIZE * split.up_to, size, at + SIZE);
    elements_buffer::write_elements(buffer, at, elements);
}

// The table's length with the set.
#[tactic(auto, using(crate::proofs::Puts::scan_bounds), unfolding(crate::specs::Putting::putting))]
pub fn put(elements: Elements, buffer: &mut [u8], size: usize) -> Result<usize, Refusal>
    ensures { (result ≡ putting elements buffer.old size) × (buffer.new ≡ stored result elements buffer.old size) }
{
    elements::check(elements)?;
    let split = table::scan_table(buffer, size, elements.epoch).ok_or(Refusal::Table)?;
    let end = SIZE * split.earlier + SIZE + (size - SIZE * split.up_to);
    if buffer.len() < end {
        return Err(Refusal::Room);
    }
    place(buffer, split, size, elements);
    Ok(end)
}
