// Rows, and which rows can follow one another on a sheet.
ghost use Rattle.std.specs.Prelude.{◌≡◌, nat_le};
ghost use Rattle.sheet.specs.Rows.{most_rows, fits};

// The most rows that a sheet can have.
pub const MOST_ROWS: usize = 32;

// The longest sheet: a count, and 32 rows of a map and six bytes.
pub const SHEET_BYTES: usize = 225;

// The latest arrival that a row can have, in seconds.
pub const LAST_ARRIVAL: u32 = 176_400;

// The highest price that a row can have, in cents.
pub const TOP_PRICE: u32 = 9_999_999;

// One offer: when it arrives, and what it costs.
#[derive(Clone, Copy, Debug, PartialEq, Eq)]
pub struct Row {
    pub arrival: u32,
    pub price: u32,
}

// Whether a sheet can have so many rows.
pub(crate) fn is_count(count: usize) -> bool
    ensures { result ≡ nat_le count most_rows }
{
    count <= MOST_ROWS
}

// May `row` stand right after `before`, or first where there is none before?
pub(crate) fn can_follow(before: Option<Row>, row: Row) -> bool
    ensures { result ≡ fits before row }
{
    if row.arrival > LAST_ARRIVAL || row.price > TOP_PRICE {
        return false;
    }
    match before {
        None => true,
        Some(before) => before.arrival < row.arrival && row.price < before.price,
    }
}
