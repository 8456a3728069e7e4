// Random numbers: the same ones from the same start, on any machine.
ghost use Rattle.std.specs.Prelude.{◌<◌, ◌≤◌};

use crate::plain_rules::all_columns;

#[derive(Drop)]
pub struct Random {
    state: u64,
}

impl Random {
    pub fn from_start(start: u64) -> Random {
        Random { state: start }
    }

    // The next number, by the steps known as splitmix64.
    fn next(&mut self) -> u64 {
        let state = self.state.wrapping_add(0x9e37_79b9_7f4a_7c15);
        self.state = state;
        let a = (state ^ (state >> 30)).wrapping_mul(0xbf58_476d_1ce4_e5b9);
        let b = (a ^ (a >> 27)).wrapping_mul(0x94d0_49bb_1331_11eb);
        b ^ (b >> 31)
    }

    // A number below the bound; 0 where the bound is 0.
    pub fn below(&mut self, bound: u32) -> u64
        ensures small { result ≤ bound }
        ensures below { 0 < bound → result < bound }
    {
        if bound == 0 {
            return 0;
        }
        (self.next() >> 32) % bound as u64
    }

    // Each column with the chance of one half.
    pub fn set(&mut self, columns: u64) -> u64 {
        self.next() & all_columns(columns)
    }

    // Each column with the chance of one half, so many times over: the thinner, the fewer columns.
    pub fn thin_set(&mut self, columns: u64, thin: u64) -> u64 {
        let mut set = all_columns(columns);
        for _ in 0..thin {
            set &= self.next();
        }
        set
    }
}
