// A set of nodes as the bits of words, 64 nodes a word: what changed and is still to be looked at.
ghost use Rattle.std.specs.Prelude.{◌≡◌, ℕ, ◌<◌, true, false, MatchOption};
ghost use Rattle.walk.specs.Limits.{most_nodes};
ghost use Rattle.walk.specs.Marks.{marked, Turned};

use crate::NODES;

/// How many nodes a word marks.
const BITS: usize = 64;

/// How many words mark all nodes.
const WORDS: usize = NODES / BITS;

/// The marked ones of all nodes.
#[derive(Drop)]
pub struct Marks {
    words: [u64; WORDS],
}

impl Marks {
    /// No node is marked.
    pub fn none() -> Marks
        ensures { (j : ℕ) → marked result.words j ≡ false }
    {
        Marks { words: [0; WORDS] }
    }

    /// Whether node `k` is marked.
    pub fn has(&self, k: usize) -> bool
        requires { k < most_nodes }
        ensures { result ≡ marked self.now.words k }
    {
        (self.words[k / BITS] >> (k % BITS)) % 2 == 1
    }

    /// Marks node `k`.
    pub fn set(&mut self, k: usize)
        requires { k < most_nodes }
        ensures { Turned self.old.words k true self.new.words }
    {
        self.words[k / BITS] |= 1 << (k % BITS);
    }

    /// Takes the mark of node `k` away.
    pub fn clear(&mut self, k: usize)
        requires within { k < most_nodes }
        requires there { marked self.old.words k ≡ true }
        ensures { Turned self.old.words k false self.new.words }
    {
        self.words[k / BITS] ^= 1 << (k % BITS);
    }

    /// A marked node, or `None` where no node is marked: the lowest, so that a code is walked forwards.
    pub fn first(&self) -> Option<usize>
        ensures { MatchOption result ((j : ℕ) → marked self.now.words j ≡ false) (λ i. marked self.now.words i ≡ true) }
    {
        let w = self.words.iter().position(|&word| word != 0)?;
        Some(w * BITS + self.words[w].trailing_zeros() as usize)
    }
}
