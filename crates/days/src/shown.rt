// The rows that a command has shown.
ghost use Rattle.std.specs.Prelude.{◌≡◌, [], ◌∷◌, ◌++◌, vec_items, Vec, ℕ};
ghost use Rattle.std.specs.declared.alloc.Global.{Global};

use super::plain::Rows;
use std::io;

// The rows in the order in which they were shown.
#[derive(Drop)]
pub struct Shown(pub Rows);

impl host::Rows for Shown {
    // The row stands behind the earlier ones.
    ghost showed = { λ s row t. (v : Vec ℕ Global) × (vec_items v ≡ row) × (vec_items t.0 ≡ vec_items s.0 ++ v ∷ []) };

    fn show(&mut self, row: &[u8]) -> io::Result<()> {
        let row = Vec::from_slice(*self.0.allocator(), row)?;
        self.0.push(row)?;
        Ok(())
    }
}
