// Lists the keys of two tables of 16 columns, once for each byte that it reads: `p` for the pairs, `e` for the eights.
// It writes how many keys it listed, and a mix of them that depends on each. bench/keys/run times it.
#![tactic(auto)]

use keys::candidate_keys;
use std::io;
use std::io::Read;

// 8 pairs of columns that fix each other: 256 keys.
const PAIRS: [u64; 34] = [
    16, 16, 0x0001, 0x0002, 0x0002, 0x0001, 0x0004, 0x0008, 0x0008, 0x0004, 0x0010, 0x0020, 0x0020,
    0x0010, 0x0040, 0x0080, 0x0080, 0x0040, 0x0100, 0x0200, 0x0200, 0x0100, 0x0400, 0x0800, 0x0800,
    0x0400, 0x1000, 0x2000, 0x2000, 0x1000, 0x4000, 0x8000, 0x8000, 0x4000,
];

// 32 sets of 8 columns, each of which fixes all: they are the keys.
const EIGHTS: [u64; 66] = [
    16, 32, 0x542f, 0xffff, 0x4e0f, 0xffff, 0x0a77, 0xffff, 0x8b47, 0xffff, 0x287b, 0xffff, 0x3a33,
    0xffff, 0x44bd, 0xffff, 0x583d, 0xffff, 0x1c5d, 0xffff, 0x9875, 0xffff, 0xa4d5, 0xffff, 0x8795,
    0xffff, 0xe685, 0xffff, 0x3e31, 0xffff, 0xb361, 0xffff, 0xdd21, 0xffff, 0x3476, 0xffff, 0xc936,
    0xffff, 0xac56, 0xffff, 0x8796, 0xffff, 0xf416, 0xffff, 0xe1c6, 0xffff, 0x0afa, 0xffff, 0xe34a,
    0xffff, 0xe1b2, 0xffff, 0x792c, 0xffff, 0xad4c, 0xffff, 0xe8b4, 0xffff, 0x2de4, 0xffff, 0xa7b0,
    0xffff, 0xeab0, 0xffff, 0xaf90, 0xffff,
];

// Lists the keys of a table into the row, and gives how many there are.
fn list(lent: &[u64], row: &mut [u64]) -> u64 {
    candidate_keys(lent, 0xffff, row).unwrap_or(0)
}

// A program of its own beside schema_bench, which reads letters in the same way: one place for both would be a library for two loops.
fn main(rt: HostRuntime) -> io::Result<()> {
    let mut asked = Vec::new(rt.alloc());
    rt.stdin().read_to_end(&mut asked)?;
    let mut listed = 0u64;
    let mut mix = 0u64;
    for table in &asked {
        let mut row = [0; 256];
        let count = match *table {
            b'p' => list(&PAIRS, &mut row),
            b'e' => list(&EIGHTS, &mut row),
            _ => 0,
        };
        listed = listed.wrapping_add(count);
        for key in &row {
            mix = mix.wrapping_mul(31) ^ *key;
        }
    }
    println!(rt; "{listed} keys, mixed to {mix}")
}
