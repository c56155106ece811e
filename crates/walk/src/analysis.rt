// An analysis: what its rows mean, how they join, and what each node does with a row.
ghost use Rattle.std.specs.Prelude.{◌≡◌, ◌<◌, false, MatchBool, MatchOption, OnSome, ◌≢◌};
ghost use Rattle.walk.specs.Framework.{Framework, nodes};
ghost use Rattle.walk.specs.Flow.{nothing, sent};

use crate::WIDTH;

/// Rows of [`WIDTH`] numbers with a join, and nodes that send rows to one another. An analysis says by its
/// framework what its numbers mean and that its rows keep the laws, and its calls answer by that meaning.
pub trait Analysis {
    // what the rows mean, how they join and flow, and that they do so by the laws
    ghost framework: { Self → Framework };

    /// How many nodes there are.
    fn count(&self) -> usize
        ensures { result ≡ nodes (framework self.now) };

    /// Writes the row of a node that nothing has reached.
    fn bottom(&self, out: &mut [u16; WIDTH])
        ensures shows { (framework self.now).shows out.new }
        ensures means { (framework self.now).read out.new ≡ (framework self.now).bottom };

    /// Writes the row that comes to node 0.
    fn start(&self, out: &mut [u16; WIDTH])
        requires { 0 < nodes (framework self.now) }
        ensures shows { (framework self.now).shows out.new }
        ensures means { (framework self.now).read out.new ≡ (framework self.now).flow.start };

    // Rows that are read are slices: an array would ask more of callers than that the slice shows a row.

    /// Joins `other` into `row`, and says whether that changed it.
    fn join(&self, row: &mut [u16], other: &[u16]) -> bool
        requires row { (framework self.now).shows row.old }
        requires other { (framework self.now).shows other.now }
        ensures shows { (framework self.now).shows row.new }
        ensures means { (framework self.now).read row.new ≡ (framework self.now).join ((framework self.now).read row.old) ((framework self.now).read other.now) }
        ensures changed { MatchBool result ((framework self.now).read row.new ≢ (framework self.now).read row.old) ((framework self.now).read row.new ≡ (framework self.now).read row.old) };

    /// Whether the needs of node `i` refuse the row.
    fn refuses(&self, i: usize, row: &[u16]) -> bool
        requires node { i < nodes (framework self.now) }
        requires row { (framework self.now).shows row.now }
        ensures { result ≡ (framework self.now).flow.refused i ((framework self.now).read row.now) };

    /// How many edges node `i` has.
    fn edges(&self, i: usize) -> usize
        requires { i < nodes (framework self.now) }
        ensures { result ≡ (framework self.now).flow.edges i };

    /// Writes what edge `e` of node `i` sends from the row, and answers where to; `None` where it sends nothing.
    fn send(&self, i: usize, e: usize, row: &[u16], out: &mut [u16; WIDTH]) -> Option<usize>
        requires node { i < nodes (framework self.now) }
        requires edge { e < (framework self.now).flow.edges i }
        requires row { (framework self.now).shows row.now }
        requires taken { (framework self.now).flow.refused i ((framework self.now).read row.now) ≡ false }
        ensures shows { OnSome result ((framework self.now).shows out.new) }
        ensures sends { MatchOption result ((framework self.now).flow.sends i e ((framework self.now).read row.now) ≡ nothing) (λ k. (framework self.now).flow.sends i e ((framework self.now).read row.now) ≡ sent k ((framework self.now).read out.new)) };
}
