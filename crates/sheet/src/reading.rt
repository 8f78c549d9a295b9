// Reads a sheet back into rows.
ghost use Rattle.std.specs.Prelude.{◌≡◌, ◌≤◌, length, take, Some, None, MatchOption};
ghost use Rattle.short_list.specs.Items.{items};
ghost use Rattle.sheet.specs.Reading.{spread, bits, row_of, decode_row};
ghost use Rattle.sheet.specs.Outcome.{laid, reading};
ghost use Rattle.sheet.specs.Promise.{Taken, Found};

use crate::refusals::Refusal;
use crate::rows::{MOST_ROWS, Row, can_follow, is_count};
use short_list::ShortList;

// A map has no bit 6 or 7, so it is below this.
const NO_MAP: u8 = 64;

const BLANK: Row = Row {
    arrival: 0,
    price: 0,
};

// Reads the rows of `sheet` to the front of `rows`, and answers how many they are; a refusal leaves `rows` as they were.
pub fn read(sheet: &[u8], rows: &mut [Row]) -> Result<usize, Refusal>
    ensures answer { result ≡ (reading sheet.now rows.old).answer }
    ensures left { rows.new ≡ (reading sheet.now rows.old).left }
    ensures meaning { Found sheet.now rows.old rows.new result }
{
    if rows.len() < MOST_ROWS {
        return Err(Refusal::RowsFew);
    }
    // Rows are read aside first, since a fault may stand in the last of them.
    let found = take_rows(sheet)?;
    put_front(found.as_slice(), rows);
    Ok(found.len())
}

// Puts the rows found in front of `rows`.
fn put_front(found: &[Row], rows: &mut [Row])
    requires { length found.now ≤ length rows.old }
    ensures left { rows.new ≡ laid found.now rows.old }
    ensures front { take (length found.now) rows.new ≡ found.now }
{
    rows[..found.len()].copy_from_slice(found);
}

// The rows of a whole sheet.
fn take_rows(sheet: &[u8]) -> Result<ShortList<Row, MOST_ROWS>, Refusal>
    ensures { Taken items sheet.now result }
{
    let [count, bytes @ ..] = sheet else {
        return Err(Refusal::NoSheet);
    };
    if !is_count(*count as usize) {
        return Err(Refusal::NoSheet);
    }
    let mut found = ShortList::empty(BLANK);
    let mut before = None;
    let mut rest = bytes;
    // counted, since only the row before tells where a row begins: there is no list of rows yet
    for k in 0..*count {
        let (row, behind) = take_row(before, rest).ok_or(Refusal::NoRow(k))?;
        found.push(row).unwrap();
        before = Some(row);
        rest = behind;
    }
    if rest.is_empty() {
        Ok(found)
    } else {
        Err(Refusal::NoSheet)
    }
}

// The row in front of `bytes`, which stands after `before`, and the bytes behind it. (A pattern of the slice, here and below,
// says what the format says; `split_first` and `?` is no plainer.)
fn take_row(before: Option<Row>, bytes: &[u8]) -> Option<(Row, &[u8])>
    ensures { MatchOption result (decode_row before bytes.now ≡ None) (λ p. decode_row before bytes.now ≡ Some (p.0, p.1.now)) }
{
    let [map, packed @ ..] = bytes else {
        return None;
    };
    if *map >= NO_MAP {
        return None;
    }
    let (places, rest) = take_places(*map, packed)?;
    let row = row_of(places);
    if can_follow(before, row) {
        Some((row, rest))
    } else {
        None
    }
}

// The six bytes of a row, by the bits of its map, and the bytes behind them.
fn take_places(map: u8, packed: &[u8]) -> Option<([u8; 6], &[u8])>
    ensures { MatchOption result (spread (bits 6 map) packed.now ≡ None) (λ p. spread (bits 6 map) packed.now ≡ Some (p.0, p.1.now)) }
{
    let mut places = [0; 6];
    let mut left = map;
    let mut rest = packed;
    for place in &mut places {
        if left % 2 == 1 {
            let [byte, after @ ..] = rest else {
                return None;
            };
            if *byte == 0 {
                return None;
            }
            *place = *byte;
            rest = after;
        }
        left /= 2;
    }
    Some((places, rest))
}

// The row that six bytes spell.
fn row_of(places: [u8; 6]) -> Row
    ensures { result ≡ row_of places }
{
    let [a0, a1, a2, p0, p1, p2] = places;
    Row {
        arrival: u32::from_le_bytes([a0, a1, a2, 0]),
        price: u32::from_le_bytes([p0, p1, p2, 0]),
    }
}
