ghost use Rattle.std.specs.Prelude.{◌≡◌, ◌≢◌, ◌≤◌, length, take, IsTrue};
ghost use Rattle.ngc_line_reader.specs.Text.{place_after as next_place, is_blank as blank, upper};
ghost use Rattle.ngc_line_reader.specs.Text.{kept, text, columns as columns_in, place_in};

/// The position of a byte of a line: outside comments, or in one of the two kinds.
#[derive(Clone, Copy)]
pub enum Place {
    Outside,
    InComment,
    InRemark,
}

/// A buffer for a line's text and its columns while the line is read. Its contents do not matter.
#[derive(Drop)]
pub(crate) struct Scratch {
    pub(crate) bytes: [u8; 256],
    pub(crate) columns: [u16; 256],
}

impl Scratch {
    pub(crate) fn new() -> Scratch {
        Scratch {
            bytes: [0; 256],
            columns: [0; 256],
        }
    }
}

// Returns true for most bytes: such a byte is kept unchanged in every place, and the next byte is
// in the same place.
#[inline]
fn is_kept_anywhere(byte: u8) -> bool
    ensures low { IsTrue result → 42 ≤ byte }
    ensures high { IsTrue result → byte ≤ 96 }
    ensures not_remark { IsTrue result → byte ≢ 59 }
{
    byte >= b'*' && byte <= b'`' && byte != b';'
}

#[inline]
fn place_after(place: Place, byte: u8) -> Place
    ensures { result ≡ next_place place byte }
{
    match place {
        Place::Outside => {
            if byte == b'(' {
                Place::InComment
            } else if byte == b';' {
                Place::InRemark
            } else {
                Place::Outside
            }
        }
        Place::InComment => {
            if byte == b')' {
                Place::Outside
            } else {
                Place::InComment
            }
        }
        Place::InRemark => Place::InRemark,
    }
}

#[inline]
fn is_blank(byte: u8, last: bool) -> bool
    ensures { result ≡ blank byte last }
{
    byte == b' ' || byte == b'\t' || (byte == b'\r' && last)
}

#[inline]
fn to_upper(byte: u8) -> u8
    ensures { result ≡ upper byte }
{
    if byte >= b'a' && byte <= b'z' {
        byte - 32
    } else {
        byte
    }
}

#[inline]
fn kept_byte(place: Place, byte: u8, last: bool) -> Option<u8>
    ensures { result ≡ kept place byte last }
{
    match place {
        Place::Outside => {
            if is_blank(byte, last) {
                None
            } else {
                Some(to_upper(byte))
            }
        }
        Place::InComment | Place::InRemark => Some(byte),
    }
}

// Returns the column of the byte with `left` bytes from it on.
#[inline]
pub(crate) fn column_of(columns: &[u16], left: usize) -> u16
    ensures { result ≡ place_in columns.now left }
{
    let index = columns.len().saturating_sub(left);
    if index < columns.len() {
        columns[index]
    } else {
        0
    }
}

/// Writes the text of a line into `bytes`, and the column of each of its bytes into `columns`.
/// Returns the number of bytes in each.
#[tactic(auto, using(crate::proofs::TextBytes::one_byte))]
pub(crate) fn fill_text(line: &[u8], bytes: &mut [u8; 256], columns: &mut [u16; 256]) -> usize
    requires { length line.now ≤ 256 }
    ensures within { result ≤ 256 }
    ensures bytes { take result bytes.new ≡ text line.now }
    ensures columns { take result columns.new ≡ columns_in line.now }
{
    let mut length = 0;
    let mut place = Place::Outside;
    for i in 0..line.len() {
        let byte = line[i];
        let column = (i + 1) as u16;
        if is_kept_anywhere(byte) {
            bytes[length] = byte;
            columns[length] = column;
            length += 1;
            continue;
        }
        if byte == b' ' && matches!(place, Place::Outside) {
            continue;
        }
        if let Some(kept) = kept_byte(place, byte, i + 1 == line.len()) {
            bytes[length] = kept;
            columns[length] = column;
            length += 1;
            place = place_after(place, byte);
        }
    }
    length
}
