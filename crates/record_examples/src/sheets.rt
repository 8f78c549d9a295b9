use sheet::{MOST_ROWS, Refusal, Row, SHEET_BYTES, read, write};

const TWO_ROWS: [Row; 2] = [
    Row {
        arrival: 1500,
        price: 350,
    },
    Row {
        arrival: 1800,
        price: 300,
    },
];

const THEIR_SHEET: [u8; 11] = [
    0x02, 0x1b, 0xdc, 0x05, 0x5e, 0x01, 0x1b, 0x08, 0x07, 0x2c, 0x01,
];

const NO_ROWS: [Row; MOST_ROWS] = [Row {
    arrival: 0,
    price: 0,
}; MOST_ROWS];

#[test]
fn two_rows_both_ways(rt: HostRuntime) {
    let mut sheet = [0xff; SHEET_BYTES];
    assert_eq!(rt; write(&TWO_ROWS, &mut sheet), Ok(11));
    assert!(rt; sheet[0..11] == THEIR_SHEET[0..11]);
    assert_eq!(rt; sheet[11], 0xff);
    let mut rows = NO_ROWS;
    assert_eq!(rt; read(&THEIR_SHEET, &mut rows), Ok(2));
    assert!(rt; rows[0..2] == TWO_ROWS[0..2]);
}

// Whether the bytes are a sheet of the two rows.
fn reads_as_the_two(sheet: &[u8]) -> bool {
    let mut rows = NO_ROWS;
    read(sheet, &mut rows) == Ok(2) && rows[0..2] == TWO_ROWS[0..2]
}

// Each byte in turn becomes every other one: what is read then, if anything is, is other rows.
#[test]
fn no_damaged_byte_goes_unseen(rt: HostRuntime) {
    for (place, theirs) in THEIR_SHEET.iter().enumerate() {
        for byte in 0..=u8::MAX {
            let mut sheet = THEIR_SHEET;
            sheet[place] = byte;
            assert_eq!(rt; reads_as_the_two(&sheet), byte == *theirs);
        }
    }
}

#[test]
fn no_sheets(rt: HostRuntime) {
    let mut rows = NO_ROWS;
    let zero_byte = [0x01, 0x1b, 0xdc, 0x05, 0x5e, 0x00];
    assert_eq!(rt; read(&zero_byte, &mut rows), Err(Refusal::NoRow(0)));
    assert_eq!(rt; read(&[0x00, 0x00], &mut rows), Err(Refusal::NoSheet));
    assert_eq!(rt; read(&[], &mut rows), Err(Refusal::NoSheet));
    assert_eq!(rt; read(&[0x00], &mut rows[0..31]), Err(Refusal::RowsFew));
    let mut short = [0; 224];
    assert_eq!(rt; write(&[], &mut short), Err(Refusal::SheetShort));
}

// Rows of which no byte is 0, each one second later and one cent cheaper than the one before.
fn fill(rows: &mut [Row]) {
    let mut row = Row {
        arrival: 0x01_01_01,
        price: 0x01_01_ff,
    };
    for place in rows {
        *place = row;
        row.arrival = row.arrival.saturating_add(1);
        row.price = row.price.saturating_sub(1);
    }
}

#[test]
fn full_rows_fill_a_sheet(rt: HostRuntime) {
    let mut rows = NO_ROWS;
    fill(&mut rows);
    let mut sheet = [0; SHEET_BYTES];
    assert_eq!(rt; write(&rows, &mut sheet), Ok(SHEET_BYTES));
    let mut back = NO_ROWS;
    assert_eq!(rt; read(&sheet, &mut back), Ok(MOST_ROWS));
    assert!(rt; back[0..MOST_ROWS] == rows[0..MOST_ROWS]);
}
