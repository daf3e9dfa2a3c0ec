// The contents table of a sheet.
//
//     n | kind, offset high, offset low, length | .. n times | body | body ..
ghost use Rattle.std.specs.Prelude.{◌≡◌, ◌+◌, ◌*◌, ◌≤◌, ◌<◌, length, take, drop};
ghost use Rattle.sheet.specs.Sheet.{entry_count, entry_at, entries, bodies_begin, kind_right, length_right, entry_right, entries_right, sheet_right};

// The most bytes, and the most entries.
const MOST_BYTES: usize = 512;

const MOST_ENTRIES: usize = 34;

// Kinds, and how long their bodies are; flips may be fewer.
const FACTS: u8 = 1;

const BOARD: u8 = 2;

pub const FLIPS: u8 = 3;

pub const FACTS_BYTES: usize = 21;

pub const BOARD_BYTES: usize = 8;

const FLIPS_BYTES: usize = 64;

// An entry of the table: of what kind a body is, where it begins, and how long it is. (The kind stays the byte that it is, and is no enum: any byte may
// stand there, and the definitions judge it together with place and length.)
#[derive(Clone, Copy)]
pub struct Entry {
    pub kind: u8,
    pub offset: usize,
    pub length: usize,
}

// So many bytes from a place on.
pub fn bytes_at<const N: usize>(sheet: &[u8], at: usize) -> [u8; N]
    requires { at + N ≤ length sheet.now }
    ensures { result ≡ take N (drop at sheet.now) }
{
    let mut bytes = [0u8; N];
    bytes.copy_from_slice(&sheet[at..at + N]);
    bytes
}

// The entry at a place.
pub fn entry_at(sheet: &[u8], i: usize) -> Entry
    requires { 4 * i + 5 ≤ length sheet.now }
    ensures { result ≡ entry_at sheet.now i }
{
    let at = 4 * i;
    let high = sheet[at + 2];
    let low = sheet[at + 3];
    Entry {
        kind: sheet[at + 1],
        offset: u16::from_be_bytes([high, low]) as usize,
        length: sheet[at + 4] as usize,
    }
}

impl Entry {
    // Whether its kind may stand at this place of so many.
    fn kind_right(self, count: usize, place: usize) -> bool
        requires { place < count }
        ensures { result ≡ kind_right count place self.kind }
    {
        if place == 0 {
            self.kind == FACTS
        } else {
            (self.kind == BOARD) | ((self.kind == FLIPS) & (place + 1 == count))
        }
    }

    // Whether a body of its kind may be so long.
    fn length_right(self) -> bool
        ensures { result ≡ length_right self.kind self.length }
    {
        match self.kind {
            FACTS => self.length == FACTS_BYTES,
            BOARD => self.length == BOARD_BYTES,
            FLIPS => self.length <= FLIPS_BYTES,
            _ => false,
        }
    }

    // Whether it is right at its place, with its body due here.
    fn is_right(self, count: usize, place: usize, due: usize) -> bool
        requires { place < count }
        ensures { result ≡ entry_right count place due self }
    {
        self.kind_right(count, place) & self.length_right() & (self.offset == due)
    }
}

// Whether all entries are right: their bodies follow in order without gaps and end the file.
fn entries_right(sheet: &[u8], count: usize) -> bool
    requires { (count ≡ entry_count sheet.now) × (bodies_begin sheet.now ≤ length sheet.now) }
    ensures { result ≡ entries_right (length sheet.now) count 0 (4 * count + 1) (entries sheet.now) }
{
    let mut due = 4 * count + 1;
    for i in 0..count {
        let entry = entry_at(sheet, i);
        if !entry.is_right(count, i, due) {
            return false;
        }
        due += entry.length;
    }
    due == sheet.len()
}

// Whether a sheet keeps the rules of kind, count, offset, length and order.
pub fn is_right(sheet: &[u8]) -> bool
    ensures { result ≡ sheet_right sheet.now }
{
    let Some(first) = sheet.first() else {
        return false;
    };
    let count = *first as usize;
    if (count == 0) | (MOST_ENTRIES < count) {
        return false;
    }
    if (MOST_BYTES < sheet.len()) | (sheet.len() < 4 * count + 1) {
        return false;
    }
    entries_right(sheet, count)
}
