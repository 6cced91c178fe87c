// What a house has around it: the disk that keeps its pages, and the place where its rows go.
ghost use Rattle.std.specs.Prelude.{List, ℕ, OnOk};

use std::io;

// Where the rows go that a command shows. What it is to show one, each place says itself.
pub trait Rows {
    ghost showed: { Self → List ℕ → Self → Type 0 };

    fn show(&mut self, row: &[u8]) -> io::Result<()>
        ensures { OnOk result (showed self.old row.now self.new) };
}

// A place for rows that is lent is one, too.
impl<R: Rows> Rows for &mut R {
    ghost showed = { λ r row t. R.showed r.now row t.now };

    fn show(&mut self, row: &[u8]) -> io::Result<()> {
        (**self).show(row)
    }
}

// What the acts of a command are done on. Whoever has disk and rows only lent takes `Machine::power_on` and `command_on`.
#[derive(Drop)]
pub struct World<D, R> {
    pub disk: D,
    pub rows: R,
}
