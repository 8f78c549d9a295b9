// Writes rows to a sheet.
ghost use Rattle.std.specs.Prelude.{◌≡◌, ◌+◌, ◌<◌, ◌≤◌, length, take};
ghost use Rattle.std.specs.Result.{result_err};
ghost use Rattle.sheet.specs.Rows.{most_rows, Good, first_fault};
ghost use Rattle.sheet.specs.Format.{sheet_bytes, six, stands as stands_in, bit_set_in, map_of, encode_row, encode};
ghost use Rattle.sheet.specs.Reading.{no_map};
ghost use Rattle.sheet.specs.Outcome.{laid, pasted, write_refusal, writing};
ghost use Rattle.sheet.specs.Promise.{Checked, SheetOf, Written};

use crate::refusals::Refusal;
use crate::rows::{Row, SHEET_BYTES, can_follow, is_count};

// Writes `rows` to the front of `sheet`, and answers how many bytes they take; a refusal leaves `sheet` as it was.
pub fn write(rows: &[Row], sheet: &mut [u8]) -> Result<usize, Refusal>
    ensures answer { result ≡ (writing rows.now sheet.old).answer }
    ensures left { sheet.new ≡ (writing rows.now sheet.old).left }
    ensures meaning { Written rows.now sheet.old sheet.new result }
{
    check(rows, sheet.len())?;
    Ok(put_sheet(rows, sheet))
}

// Whether the rows can be written into so many bytes, or why not.
fn check(rows: &[Row], room: usize) -> Result<(), Refusal>
    ensures refusal { result_err result ≡ write_refusal rows.now room }
    ensures reason { Checked rows.now room (result_err result) }
{
    if room < SHEET_BYTES {
        return Err(Refusal::SheetShort);
    }
    if !is_count(rows.len()) {
        return Err(Refusal::NoSheet);
    }
    // what is found is a row, and becomes a refusal only here
    if let Some(row) = find_fault(rows) {
        return Err(Refusal::NoRow(row));
    }
    Ok(())
}

// The first row that is out of range, or out of order behind the one before it. (A timetable's hops are searched by a like
// loop. One function for both is no plainer: the contract of its closure is longer than the loop.)
fn find_fault(rows: &[Row]) -> Option<u8>
    requires { length rows.now ≤ most_rows }
    ensures { result ≡ first_fault rows.now }
{
    let mut before = None;
    for (k, row) in rows.iter().enumerate() {
        if !can_follow(before, *row) {
            return Some(k as u8);
        }
        before = Some(*row);
    }
    None
}

// Writes a sheet that is known to have room, and answers where it ends.
fn put_sheet(rows: &[Row], sheet: &mut [u8]) -> usize
    requires good { Good rows.now }
    requires room { sheet_bytes ≤ length sheet.old }
    ensures end { result ≡ length (encode rows.now) }
    ensures left { sheet.new ≡ laid (encode rows.now) sheet.old }
    ensures meaning { SheetOf rows.now (take result sheet.new) }
{
    sheet[0] = rows.len() as u8;
    let mut end = 1;
    for row in rows {
        end = put_row(*row, sheet, end);
    }
    end
}

// Writes a row at `at`, and answers where it ends.
fn put_row(row: Row, sheet: &mut [u8], at: usize) -> usize
    requires { at + 7 ≤ length sheet.old }
    ensures end { result ≡ at + length (encode_row row) }
    ensures left { sheet.new ≡ pasted at (encode_row row) sheet.old }
{
    let bytes = six_bytes(row);
    sheet[at] = map_of(&bytes);
    // counted, since only the bytes that stand take a place, and the end is the answer
    let mut end = at + 1;
    for byte in &bytes {
        if stands(*byte) {
            sheet[end] = *byte;
            end += 1;
        }
    }
    end
}

// The bytes that a row stands for: three of its arrival and three of its price, lowest first. (No `From`, which all crates
// would see: six bytes are the format's own matter.)
fn six_bytes(row: Row) -> [u8; 6]
    ensures { result ≡ six row }
{
    let [a0, a1, a2, _] = row.arrival.to_le_bytes();
    let [p0, p1, p2, _] = row.price.to_le_bytes();
    [a0, a1, a2, p0, p1, p2]
}

// A bit for each byte, the first lowest, which stands where the byte does.
fn map_of(bytes: &[u8; 6]) -> u8
    ensures { result ≡ map_of bytes.now }
{
    // a loop, since with `fold` the proof did not close: its closure is not told that the map is below 64
    let mut map = 0;
    for byte in bytes.iter().rev() {
        map = with_bit(*byte, map);
    }
    map
}

// A byte's bit, below the bits of the bytes behind it.
fn with_bit(byte: u8, map: u8) -> u8
    requires { map < no_map }
    ensures { result ≡ bit_set_in byte map }
{
    if stands(byte) { map * 2 + 1 } else { map * 2 }
}

// Whether a byte is written at all.
fn stands(byte: u8) -> bool
    ensures { result ≡ stands_in byte }
{
    byte != 0
}
