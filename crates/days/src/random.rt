// Numbers by chance that are the same on every machine: splitmix64, from a seed.
ghost use Rattle.std.specs.Prelude.{◌≡◌, ◌%◌, ◌<◌, ◌==◌};
ghost use Rattle.days.specs.Chance.{stepped, mixed, drawn, drawn_below};

const STEP: u64 = 0x9e37_79b9_7f4a_7c15;

const FIRST_MIX: u64 = 0xbf58_476d_1ce4_e5b9;

const SECOND_MIX: u64 = 0x94d0_49bb_1331_11eb;

// Where the numbers are.
#[derive(Clone, Copy)]
pub struct Random {
    state: u64,
}

// What a state gives.
fn mix(state: u64) -> u64
    ensures { result ≡ mixed state }
{
    let first = (state ^ (state >> 30)).wrapping_mul(FIRST_MIX);
    let second = (first ^ (first >> 27)).wrapping_mul(SECOND_MIX);
    second ^ (second >> 31)
}

// Each draw says what state it leaves, since callers see the draws one by one and the day of a number hangs on all of them.
impl Random {
    // The numbers of a seed.
    pub fn new(seed: u64) -> Random
        ensures { result.state ≡ seed }
    {
        Random { state: seed }
    }

    // Any number.
    pub fn next(&mut self) -> u64
        ensures value { result ≡ drawn self.old.state }
        ensures after { self.new.state ≡ stepped self.old.state }
    {
        self.state = self.state.wrapping_add(STEP);
        mix(self.state)
    }

    // A number below another one; below 0 it gives 0, since an Option would be opened at each draw and nobody draws so.
    pub fn below(&mut self, limit: u64) -> u64
        ensures value { result ≡ drawn_below limit self.old.state }
        ensures bound { 0 < limit → result < limit }
        ensures after { self.new.state ≡ stepped self.old.state }
    {
        let n = self.next();
        if limit == 0 { 0 } else { n % limit }
    }

    // Whether something happens that happens once in so many times.
    pub fn once_in(&mut self, times: u64) -> bool
        ensures value { result ≡ (drawn_below times self.old.state == 0) }
        ensures after { self.new.state ≡ stepped self.old.state }
    {
        self.below(times) == 0
    }

    // Any byte.
    pub fn byte(&mut self) -> u8
        ensures value { result ≡ drawn self.old.state % 256 }
        ensures after { self.new.state ≡ stepped self.old.state }
    {
        (self.next() % 256) as u8
    }
}
