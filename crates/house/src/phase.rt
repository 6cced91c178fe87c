// Where a house is in its work, as it lies in the first three registers.
ghost use Rattle.std.specs.Prelude.{◌≡◌, ◌≤◌, length};
ghost use Rattle.house.specs.Memory.{phase_of, phase_words, in_phase};

// What a house is doing, with the number of what comes next.
#[derive(Clone, Copy)]
pub enum Phase {
    // No power yet, or nothing that makes sense.
    Off,
    // Power-up: the header, the selector page, or the page of the directory that was asked for.
    ReadHeader,
    ReadSelectors(u64),
    ReadDirectory(u64),
    // At rest: a command may be said.
    Idle,
    // The boxes of a person are shown; the next is looked for from this place on.
    ShowBoxes(u64, u64),
    // A commit: touched pages of the table are written from this one on, then the selector pages,
    WriteTable(u64),
    WriteSelectors(u64),
    // then, after a flush, the header, and that is flushed.
    WriteHeader,
    FlushHeader,
    Committed,
    // The row of a command that has been committed was shown.
    Shown,
}

// The memory is numbers only, so a phase is kept as its number and what goes with it.
const PHASE_WORDS: usize = 3;

const OFF: u64 = 0;

const READ_HEADER: u64 = 1;

const READ_SELECTORS: u64 = 2;

const READ_DIRECTORY: u64 = 3;

const IDLE: u64 = 4;

const SHOW_BOXES: u64 = 5;

const WRITE_TABLE: u64 = 6;

const WRITE_SELECTORS: u64 = 7;

const WRITE_HEADER: u64 = 8;

const FLUSH_HEADER: u64 = 9;

const COMMITTED: u64 = 10;

const SHOWN: u64 = 11;

impl Phase {
    // The phase in the first registers; numbers that no phase stores are `Off`.
    pub fn load(memory: &[u64]) -> Phase
        requires { 3 ≤ length memory.now }
        ensures { result ≡ phase_of memory.now }
    {
        match memory[0] {
            READ_HEADER => Phase::ReadHeader,
            READ_SELECTORS => Phase::ReadSelectors(memory[1]),
            READ_DIRECTORY => Phase::ReadDirectory(memory[1]),
            IDLE => Phase::Idle,
            SHOW_BOXES => Phase::ShowBoxes(memory[1], memory[2]),
            WRITE_TABLE => Phase::WriteTable(memory[1]),
            WRITE_SELECTORS => Phase::WriteSelectors(memory[1]),
            WRITE_HEADER => Phase::WriteHeader,
            FLUSH_HEADER => Phase::FlushHeader,
            COMMITTED => Phase::Committed,
            SHOWN => Phase::Shown,
            _ => Phase::Off,
        }
    }

    // A phase as three numbers.
    fn words(self) -> [u64; PHASE_WORDS]
        ensures { result ≡ phase_words self }
    {
        match self {
            Phase::Off => [OFF, 0, 0],
            Phase::ReadHeader => [READ_HEADER, 0, 0],
            Phase::ReadSelectors(q) => [READ_SELECTORS, q, 0],
            Phase::ReadDirectory(t) => [READ_DIRECTORY, t, 0],
            Phase::Idle => [IDLE, 0, 0],
            Phase::ShowBoxes(person, from) => [SHOW_BOXES, person, from],
            Phase::WriteTable(t) => [WRITE_TABLE, t, 0],
            Phase::WriteSelectors(q) => [WRITE_SELECTORS, q, 0],
            Phase::WriteHeader => [WRITE_HEADER, 0, 0],
            Phase::FlushHeader => [FLUSH_HEADER, 0, 0],
            Phase::Committed => [COMMITTED, 0, 0],
            Phase::Shown => [SHOWN, 0, 0],
        }
    }

    // Writes a phase into the first registers, and nothing else.
    pub fn store(self, memory: &mut [u64])
        requires { 3 ≤ length memory.old }
        ensures { memory.new ≡ in_phase self memory.old }
    {
        memory[..PHASE_WORDS].copy_from_slice(&self.words());
    }
}
