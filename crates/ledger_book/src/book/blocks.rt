//! In which block a kept journal stands, and where that ends.

ghost use Rattle.std.specs.Prelude.{◌≡◌};
ghost use Rattle.ledger_model.specs.History.{History};
ghost use Rattle.ledger_book.specs.Blocks.{told_block, told_end};
ghost use Rattle.ledger_book.specs.Books.{Stands};

use super::Book;
use merkle_tree::Head;

impl Book {
    /// The number of the block in which journal `n` stands, and the size where it ends, as a receipt of the journal has
    /// them: where the journal is kept and its block has ended. They are found by a search, without memory.
    pub fn block_of(&self, n: u64) -> Option<(u64, u64)>
        ensures { (h : History) → Stands self.now h → result ≡ told_block self.now.floor h n }
    {
        if n < self.floor || n >= self.head.size {
            return None;
        }
        let at = self.ends.partition_point(|end| *end <= n);
        let end = *self.ends.get(at)?;
        let later = self.ends.len() - at;
        Some((self.blocks.saturating_sub(later as u64), end))
    }

    /// The number of the block in which journal `n` stands, and the head where it ends: all that a receipt of the journal
    /// tells of its block. The root costs a hash for each level of the tree, and no memory.
    pub fn block_end(&self, n: u64) -> Option<(u64, Head)>
        ensures { (h : History) → Stands self.now h → result ≡ told_end self.now.floor h n }
    {
        let (block, size) = self.block_of(n)?;
        let root = self.tree.root_at(size).ok()?;
        Some((block, Head { size, root }))
    }
}
