// A design as bytes, as the program that tests one reads it.
ghost use Rattle.std.specs.Prelude.{◌≡◌, ◌+◌, ◌^◌, ◌<◌, ◌≤◌, length, set as put_at};
ghost use Rattle.dependencies.specs.Bytes.{sets_in_bytes};
ghost use Rattle.dependencies.specs.Lent.{put_list};
ghost use Rattle.verdict.specs.DesignBytes.{design_of_bytes};

// Writes a number, if the row has room for it.
fn put(row: &mut [u64], at: usize, number: u64)
    ensures { row.new ≡ put_at row.old at number }
{
    if at < row.len() {
        row[at] = number;
    }
}

// Writes the sets of two bytes each, as far as the row has room.
fn put_sets(row: &mut [u64], at: usize, bytes: &[u8])
    requires { at + length bytes.now < 2 ^ 64 }
    ensures { row.new ≡ put_list row.old at (sets_in_bytes bytes.now) }
{
    let (sets, _) = bytes.as_chunks::<2>();
    for (i, set) in sets.iter().enumerate() {
        put(row, at + i, u16::from_le_bytes(*set) as u64);
    }
}

// Writes the lent design that the bytes stand for from the row's front on, as far as it has room, and says how many numbers it
// has: no more than there are bytes, so a row as long as the bytes is long enough.
pub fn design_from_bytes(bytes: &[u8], row: &mut [u64]) -> usize
    ensures written { row.new ≡ put_list row.old 0 (design_of_bytes bytes.now) }
    ensures count { result ≡ length (design_of_bytes bytes.now) }
    ensures few { result ≤ length bytes.now }
{
    let [parts, others @ ..] = bytes else {
        return 0;
    };
    put(row, 0, *parts as u64);
    let mut at = 1;
    let mut left = others;
    for _ in 0..*parts {
        let [low, high, own, others @ ..] = left else {
            return at;
        };
        put(row, at, u16::from_le_bytes([*low, *high]) as u64);
        put(row, at + 1, *own as u64);
        let size = (4 * *own as usize).min(others.len());
        put_sets(row, at + 2, &others[..size]);
        at += 2 + size / 2;
        left = &others[size..];
    }
    at
}

#[cfg(test)]
mod tests {
    use super::*;

    // A part of columns 0 and 1 in which 0 fixes 1, and a part of column 2; then the same, cut short in the rule.
    #[test]
    fn from_bytes(rt: HostRuntime) {
        let mut row = [9; 12];
        assert_eq!(rt;
            design_from_bytes(&[2, 3, 0, 1, 1, 0, 2, 0, 4, 0, 0], &mut row),
            7
        );
        assert_eq!(rt; row, [2, 3, 1, 1, 2, 4, 0, 9, 9, 9, 9, 9]);
        assert_eq!(rt; design_from_bytes(&[2, 5, 1, 1, 1, 0, 2], &mut row), 4);
        assert_eq!(rt; row, [2, 261, 1, 1, 2, 4, 0, 9, 9, 9, 9, 9]);
        assert_eq!(rt; design_from_bytes(&[], &mut row), 0);
    }
}
