// A table gone over once: refusal 21, and how many of its sets are earlier than a time, and up to it.
ghost use Rattle.std.specs.Prelude.{◌≡◌, ◌+◌, ◌*◌, ◌%◌, ◌≤◌, length};
ghost use Rattle.element_sets.specs.Part.{PartOf};
ghost use Rattle.element_sets.specs.Table.{row_size, set_at, epoch_at, follows, keeps_at, scanned};

use elements::Elements;
use elements_buffer::SIZE;
use endian::LittleEndian;

// How many sets have an epoch before a time, and how many one not after it.
#[derive(Clone, Copy)]
pub(crate) struct Split {
    pub earlier: usize,
    pub up_to: usize,
}

// The bytes of a row that the table has.
pub(crate) fn row<'a>(table: &'a [u8], k: usize) -> &'a [u8]
    requires { row_size * k + row_size ≤ length table.now }
    ensures part { PartOf table.entry (row_size * k) row_size result }
    ensures size { length result.now ≡ row_size }
{
    let at = SIZE * k;
    &table[at..at + SIZE]
}

// A row that the table has.
#[derive(Clone, Copy)]
struct TableRow<'a> {
    table: &'a [u8],
    k: usize,
    ghost within: { row_size * k + row_size ≤ length table.now },
}

impl TableRow<'_> {
    #[tactic(auto, unfolding(crate::specs::Table::set_at, crate::specs::Table::row_at))]
    fn set(self) -> Elements
        ensures { result ≡ set_at self.entry.table.now self.entry.k }
    {
        elements_buffer::read_elements(row(self.table, self.k))
    }

    #[tactic(auto, using(crate::proofs::Tables::epoch_first))]
    fn epoch(self) -> i64
        ensures { result ≡ epoch_at self.entry.table.now self.entry.k }
    {
        i64::read(self.table, SIZE * self.k)
    }

    // Whether its epoch is after that of the row before.
    #[tactic(auto, unfolding(crate::specs::Table::follows))]
    fn follows(self) -> bool
        ensures { result ≡ follows self.entry.table.now self.entry.k }
    {
        if self.k == 0 {
            return true;
        }
        let before = TableRow {
            table: self.table,
            k: self.k - 1,
        };
        before.epoch() < self.epoch()
    }

    // Whether it keeps the rules of a table.
    #[tactic(auto, unfolding(crate::specs::Table::keeps_at))]
    fn keeps(self) -> bool
        ensures { result ≡ keeps_at self.entry.table.now self.entry.k }
    {
        elements::check(self.set()).is_ok() && self.follows()
    }
}

#[tactic(auto, using(crate::proofs::Scans::scan_broken), unfolding(sequence::specs::Sequence::leading))]
fn scan_rows(table: &[u8], time: i64) -> Option<Split>
    requires { length table.now % row_size ≡ 0 }
    ensures { result ≡ scanned table.now (length table.now) time }
{
    let mut earlier = 0;
    let mut up_to = 0;
    for k in 0..table.len() / SIZE {
        let row = TableRow { table, k };
        if !row.keeps() {
            return None;
        }
        // The epochs rise, so all rows ahead of such a row count too.
        let epoch = row.epoch();
        if epoch < time {
            earlier = k + 1;
        }
        if epoch <= time {
            up_to = k + 1;
        }
    }
    Some(Split { earlier, up_to })
}

// A buffer and a size, as the C interface has them.
#[tactic(auto, using(crate::proofs::Scans::scan_beyond, crate::proofs::Scans::scan_ragged, crate::proofs::Scans::scan_part))]
pub(crate) fn scan_table(buffer: &[u8], size: usize, time: i64) -> Option<Split>
    ensures { result ≡ scanned buffer.now size time }
{
    let table = buffer.get(..size)?;
    if !size.is_multiple_of(SIZE) {
        return None;
    }
    scan_rows(table, time)
}
