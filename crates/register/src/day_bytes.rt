// A day as bytes, as the programs read it.
ghost use Rattle.std.specs.Prelude.{◌≡◌, ◌+◌, ◌*◌, ◌≤◌, length, drop};
ghost use Rattle.register.specs.DayBytes.{bytes_behind_rules, deed_bytes, cell_of_bytes, cells_of_bytes, deed_of_bytes, whole_deeds, lent_after, rest_is};

use crate::deed_kind_type::DeedKind;
use columns::Width;

// What stands behind the deeds of a day that were answered.
#[derive(Clone, Copy, PartialEq, Eq, Debug)]
pub enum DayRest {
    // Nothing.
    Ended,
    // A first byte that is neither 0 nor 1.
    NoDeed,
    // A whole deed, for which there was no room.
    Unanswered,
    // A deed that is cut short, with so many whole cells.
    CutShort(u64),
}

// The bytes of a day behind its rules.
pub fn behind_rules(bytes: &[u8]) -> &[u8]
    ensures { result.now ≡ bytes_behind_rules bytes.now }
{
    if bytes.len() < 2 {
        return &bytes[bytes.len()..];
    }
    let start = 2 + 4 * bytes[1] as usize;
    &bytes[start.min(bytes.len())..]
}

// How many bytes a deed takes.
fn deed_size(width: Width) -> usize
    ensures { result ≡ deed_bytes width.columns }
{
    1 + 4 * width.columns() as usize
}

// The number of the first four bytes, the low one first.
fn first_cell(bytes: &[u8]) -> u64
    requires { 4 ≤ length bytes.now }
    ensures { result ≡ cell_of_bytes bytes.now }
{
    u32::from_le_bytes([bytes[0], bytes[1], bytes[2], bytes[3]]) as u64
}

// Writes a row's cells.
fn write_cells(bytes: &[u8], cells: &mut [u64])
    requires { 4 * length cells.old ≤ length bytes.now }
    ensures { cells.new ≡ cells_of_bytes (length cells.old) bytes.now }
{
    let mut left = bytes;
    // The bytes go along in a slice of their own: of what is written behind an adapter such as `zip` no proof knows anything.
    for cell in cells.iter_mut() {
        *cell = first_cell(left);
        left = &left[4..];
    }
}

// Writes a deed: its first byte, and its row's cells.
fn write_deed(bytes: &[u8], width: Width, deed: &mut [u64])
    requires whole { deed_bytes width.columns ≤ length bytes.now }
    requires room { length deed.old ≡ width.columns + 1 }
    ensures { deed.new ≡ deed_of_bytes width.columns bytes.now }
{
    deed[0] = bytes[0] as u64;
    write_cells(&bytes[1..], &mut deed[1..]);
}

// How many deeds stand whole in so many bytes and have room in so many numbers.
fn whole_deed_count(bytes: &[u8], width: Width, deeds: &[u64]) -> usize
    ensures is { result ≡ whole_deeds width.columns bytes.now deeds.now }
    ensures whole { result * deed_bytes width.columns ≤ length bytes.now }
    ensures room { result * (width.columns + 1) ≤ length deeds.now }
{
    (bytes.len() / deed_size(width)).min(deeds.len() / (width.columns() as usize + 1))
}

// Reads the deeds of a day, the bytes behind its rules, into a lent row: as many as stand there whole and have room.
// A deed is its first byte, whatever it is, and the cells of its row. Says how many deeds were read.
pub fn deeds_from_bytes(bytes: &[u8], width: Width, deeds: &mut [u64]) -> usize
    ensures count { result ≡ whole_deeds width.columns bytes.now deeds.old }
    ensures room { result * (width.columns + 1) ≤ length deeds.old }
    ensures read { deeds.new ≡ lent_after width.columns bytes.now deeds.old }
{
    let count = whole_deed_count(bytes, width, deeds);
    let size = deed_size(width);
    let len = width.columns() as usize + 1;
    let mut left = bytes;
    // By places: of what is written through `chunks_exact_mut` no proof knows more than its length.
    for e in 0..count {
        write_deed(left, width, &mut deeds[e * len..e * len + len]);
        left = &left[size..];
    }
    count
}

// What stands behind so many deeds of a day.
pub fn day_rest(bytes: &[u8], width: Width, answered: usize) -> DayRest
    ensures { result ≡ rest_is width.columns (drop (answered * deed_bytes width.columns) bytes.now) }
{
    let size = deed_size(width);
    if answered > bytes.len() / size {
        return DayRest::Ended;
    }
    let left = &bytes[answered * size..];
    let [first, cells @ ..] = left else {
        return DayRest::Ended;
    };
    if DeedKind::from_number(*first as u64).is_none() {
        return DayRest::NoDeed;
    }
    if left.len() >= size {
        return DayRest::Unanswered;
    }
    DayRest::CutShort((cells.len() / 4) as u64)
}
