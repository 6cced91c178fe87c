// The step for hosts in C and Rust: numbers and slices only.
ghost use Rattle.std.specs.Prelude.{◌≡◌};
ghost use Rattle.house.specs.Memory.{memory_len};
ghost use Rattle.house.specs.Told.{Exported, told_numbers};

use super::{MEMORY_LEN, Told, step};

// The tag and the value of an act: the C interface knows numbers only.
impl From<Told> for (u64, u64) {
    ghost from_gives = { λ told numbers. numbers ≡ told_numbers told };

    fn from(told: Told) -> (u64, u64) {
        match told {
            Told::Read(page) => (0, page),
            Told::Write(page) => (1, page),
            Told::Flush => (2, 0),
            Told::Shows(len) => (3, len),
            Told::Send(to) => (4, to),
            Told::Done => (5, 0),
            Told::No(number) => (6, number),
        }
    }
}

// One step; its act goes into `told` as a tag (0 read, 1 write, 2 flush, 3 shows, 4 send, 5 done, 6 no) and a value.
// Where `told` has not two numbers, 0 is answered and nothing changes; C has no Result, so 1 is answered otherwise.
#[unsafe(no_mangle)]
pub extern "C" fn posthouse_step(
    memory: &mut [u64],
    kind: u64,
    bytes: &[u8],
    out: &mut [u8],
    told: &mut [u64],
) -> u64
    ensures { Exported memory.old kind bytes.now out.old told.old result memory.new out.new told.new }
{
    let Some(told) = told.as_mut_array() else {
        return 0;
    };
    let (tag, value) = step(memory, kind, bytes, out).into();
    *told = [tag, value];
    1
}

// How many numbers the memory has.
#[unsafe(no_mangle)]
pub extern "C" fn posthouse_memory_len() -> u64
    ensures { result ≡ memory_len }
{
    MEMORY_LEN as u64
}
