// The set for a time, in one of two tables.
ghost use Rattle.std.specs.Prelude.{◌≡◌};
ghost use Rattle.element_sets.specs.Finding.{finding, RowIs};

use crate::table;
use elements_buffer::SIZE;
use refusal::Refusal;

// A row of one of the tables, by its number from 0.
#[derive(Clone, Copy, Debug, PartialEq, Eq)]
pub enum Row {
    Past(usize),
    Forecast(usize),
}

// Which row of which table.
#[tactic(auto, unfolding(crate::specs::Finding::finding, crate::specs::Table::scanned))]
pub fn locate(
    past: &[u8],
    past_size: usize,
    forecast: &[u8],
    forecast_size: usize,
    time: i64,
) -> Result<Row, Refusal>
    ensures { result ≡ finding past.now past_size forecast.now forecast_size time }
{
    let in_past = table::scan_table(past, past_size, time).ok_or(Refusal::Table)?;
    table::scan_table(forecast, forecast_size, time).ok_or(Refusal::Table)?;
    if 0 < in_past.up_to {
        return Ok(Row::Past(in_past.up_to - 1));
    }
    if SIZE <= forecast_size {
        return Ok(Row::Forecast(0));
    }
    Err(Refusal::NoSet)
}

// The row itself, in its table.
#[tactic(auto, using(crate::proofs::Finds::past_row, crate::proofs::Finds::forecast_row), unfolding(crate::specs::Finding::RowIs))]
pub fn find<'a>(
    past: &'a [u8],
    past_size: usize,
    forecast: &'a [u8],
    forecast_size: usize,
    time: i64,
) -> Result<&'a [u8], Refusal>
    ensures { RowIs (finding past.now past_size forecast.now forecast_size time) past.entry forecast.entry result }
{
    let found = locate(past, past_size, forecast, forecast_size, time)?;
    Ok(match found {
        Row::Past(k) => table::row(past, k),
        Row::Forecast(k) => table::row(forecast, k),
    })
}
