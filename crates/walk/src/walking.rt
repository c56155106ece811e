// The walk: from the rows at the beginning, node by node and edge by edge, until no node is marked.
ghost use Rattle.std.specs.Prelude.{◌≡◌, ◌+◌, ◌<◌, false, MatchOption, MatchResult, OnSome};
ghost use Rattle.walk.specs.Framework.{nodes};
ghost use Rattle.walk.specs.Flow.{nothing, sent};
ghost use Rattle.walk.specs.Solution.{Least, Unsolvable};
ghost use Rattle.walk.specs.Rows.{Room, table, rest, Shown, Written};
ghost use Rattle.walk.specs.Marks.{marked};
ghost use Rattle.walk.specs.Walking.{Underway, Raised, Settled, AllSettled, Midway, NodeDone};

use crate::WIDTH;
use crate::analysis::Analysis;
use crate::marks::Marks;
use crate::unsolved::Unsolved;

/// A walk over the nodes of an analysis: their rows in a workspace, and the nodes that are still to be looked at.
#[derive(Drop)]
pub struct Walk<'a, A: Analysis> {
    analysis: &'a A,
    workspace: &'a mut [u16],
    marks: Marks,
    ghost room: { Room (A.Analysis.framework analysis.now) workspace.now },
}

impl<'a, A: Analysis> Walk<'a, A> {
    /// Writes the rows at the beginning: node 0 has the start and is marked, and nothing has reached the others.
    pub fn begin(analysis: &'a A, workspace: &'a mut [u16]) -> Walk<'a, A>
        requires node { 0 < nodes (A.Analysis.framework analysis.now) }
        requires room { Room (A.Analysis.framework analysis.now) workspace.old }
        ensures underway { Underway (A.Analysis.framework analysis.now) result.workspace.now (marked result.marks.words) }
        ensures settled { let m = A.Analysis.framework analysis.now in AllSettled m (marked result.marks.words) (table m result.workspace.now) }
        ensures behind { let m = A.Analysis.framework analysis.now in rest m result.workspace.now ≡ rest m workspace.old }
        ensures analysis { result.analysis ≡ analysis.entry }
        ensures same { result.workspace.ghost_name ≡ workspace.entry.ghost_name }
    {
        let mut walk = Walk {
            analysis,
            workspace,
            marks: Marks::none(),
        };
        let mut row = [0; WIDTH];
        analysis.bottom(&mut row);
        // By number: of what is written through `chunks_exact_mut` nothing is known but the length.
        for i in 0..analysis.count() {
            walk.write(i, &row);
        }
        analysis.start(&mut row);
        walk.write(0, &row);
        walk.marks.set(0);
        walk
    }

    // Writes a row at node `i`.
    fn write(&mut self, i: usize, row: &[u16; WIDTH])
        requires node { i < nodes (A.Analysis.framework self.old.analysis.now) }
        requires shows { (A.Analysis.framework self.old.analysis.now).shows row.now }
        ensures written { let m = A.Analysis.framework self.old.analysis.now in Written m i (m.read row.now) self.old.workspace.now self.new.workspace.now }
        ensures marks { self.new.marks ≡ self.old.marks }
        ensures analysis { self.new.analysis ≡ self.old.analysis }
        ensures same { self.new.workspace.ghost_name ≡ self.old.workspace.ghost_name }
    {
        let from = i * WIDTH;
        self.workspace[from..from + WIDTH].copy_from_slice(row);
    }

    /// Looks at marked nodes until none is left, or until one of them refuses its row.
    pub fn settle(&mut self) -> Result<(), Unsolved>
        requires underway { Underway (A.Analysis.framework self.old.analysis.now) self.old.workspace.now (marked self.old.marks.words) }
        requires settled { let m = A.Analysis.framework self.old.analysis.now in AllSettled m (marked self.old.marks.words) (table m self.old.workspace.now) }
        ensures underway { Underway (A.Analysis.framework self.old.analysis.now) self.new.workspace.now (marked self.new.marks.words) }
        ensures answer { let m = A.Analysis.framework self.old.analysis.now in MatchResult result (λ _. Least m (table m self.new.workspace.now)) (λ e. (e ≡ Unsolved.Refused) × Unsolvable m) }
        ensures behind { let m = A.Analysis.framework self.old.analysis.now in rest m self.new.workspace.now ≡ rest m self.old.workspace.now }
        ensures same { self.new.workspace.ghost_name ≡ self.old.workspace.ghost_name }
    {
        while let Some(i) = self.marks.first() {
            if self.refuses(i) {
                return Err(Unsolved::Refused);
            }
            self.marks.clear(i);
            self.take_edges(i);
        }
        Ok(())
    }

    // Whether node `i` refuses its row.
    fn refuses(&self, i: usize) -> bool
        requires node { i < nodes (A.Analysis.framework self.now.analysis.now) }
        requires shown { Shown (A.Analysis.framework self.now.analysis.now) self.now.workspace.now }
        ensures { let m = A.Analysis.framework self.now.analysis.now in result ≡ m.flow.refused i (table m self.now.workspace.now i) }
    {
        let from = i * WIDTH;
        self.analysis
            .refuses(i, &self.workspace[from..from + WIDTH])
    }

    // Takes the edges of node `i`, until the node itself is marked again.
    fn take_edges(&mut self, i: usize)
        requires node { i < nodes (A.Analysis.framework self.old.analysis.now) }
        requires underway { Underway (A.Analysis.framework self.old.analysis.now) self.old.workspace.now (marked self.old.marks.words) }
        requires settled { let m = A.Analysis.framework self.old.analysis.now in Settled m (marked self.old.marks.words) i 0 (table m self.old.workspace.now) }
        ensures underway { Underway (A.Analysis.framework self.old.analysis.now) self.new.workspace.now (marked self.new.marks.words) }
        ensures done { let m = A.Analysis.framework self.old.analysis.now in NodeDone m (table m self.old.workspace.now) (marked self.old.marks.words) (table m self.new.workspace.now) (marked self.new.marks.words) }
        ensures behind { let m = A.Analysis.framework self.old.analysis.now in rest m self.new.workspace.now ≡ rest m self.old.workspace.now }
        ensures analysis { self.new.analysis ≡ self.old.analysis }
        ensures same { self.new.workspace.ghost_name ≡ self.old.workspace.ghost_name }
    {
        for e in 0..self.analysis.edges(i) {
            if self.marks.has(i) {
                return;
            }
            self.take_edge(i, e);
        }
    }

    // Takes edge `e` of node `i`, which is not marked: what it sends is joined into the row of the node that it goes to.
    fn take_edge(&mut self, i: usize, e: usize)
        requires node { i < nodes (A.Analysis.framework self.old.analysis.now) }
        requires edge { e < (A.Analysis.framework self.old.analysis.now).flow.edges i }
        requires underway { Underway (A.Analysis.framework self.old.analysis.now) self.old.workspace.now (marked self.old.marks.words) }
        requires clean { marked self.old.marks.words i ≡ false }
        requires settled { let m = A.Analysis.framework self.old.analysis.now in Settled m (marked self.old.marks.words) i e (table m self.old.workspace.now) }
        ensures underway { Underway (A.Analysis.framework self.old.analysis.now) self.new.workspace.now (marked self.new.marks.words) }
        ensures midway { let m = A.Analysis.framework self.old.analysis.now in Midway m i (e + 1) (table m self.old.workspace.now) (marked self.old.marks.words) (table m self.new.workspace.now) (marked self.new.marks.words) }
        ensures behind { let m = A.Analysis.framework self.old.analysis.now in rest m self.new.workspace.now ≡ rest m self.old.workspace.now }
        ensures analysis { self.new.analysis ≡ self.old.analysis }
        ensures same { self.new.workspace.ghost_name ≡ self.old.workspace.ghost_name }
    {
        let mut sent = [0; WIDTH];
        if let Some(k) = self.send(i, e, &mut sent) {
            self.raise(k, &sent);
        }
    }

    // Writes what edge `e` of node `i` sends from its row, and answers where to.
    fn send(&self, i: usize, e: usize, out: &mut [u16; WIDTH]) -> Option<usize>
        requires node { i < nodes (A.Analysis.framework self.now.analysis.now) }
        requires edge { e < (A.Analysis.framework self.now.analysis.now).flow.edges i }
        requires shown { Shown (A.Analysis.framework self.now.analysis.now) self.now.workspace.now }
        requires taken { let m = A.Analysis.framework self.now.analysis.now in m.flow.refused i (table m self.now.workspace.now i) ≡ false }
        ensures shows { OnSome result ((A.Analysis.framework self.now.analysis.now).shows out.new) }
        ensures sends { let m = A.Analysis.framework self.now.analysis.now in MatchOption result (m.flow.sends i e (table m self.now.workspace.now i) ≡ nothing) (λ k. m.flow.sends i e (table m self.now.workspace.now i) ≡ sent k (m.read out.new)) }
    {
        let from = i * WIDTH;
        self.analysis
            .send(i, e, &self.workspace[from..from + WIDTH], out)
    }

    // Joins the row that was sent into the row of node `k`, and marks the node where that changed it.
    fn raise(&mut self, k: usize, sent: &[u16; WIDTH])
        requires node { k < nodes (A.Analysis.framework self.old.analysis.now) }
        requires shown { Shown (A.Analysis.framework self.old.analysis.now) self.old.workspace.now }
        requires sent { (A.Analysis.framework self.old.analysis.now).shows sent.now }
        ensures shown { Shown (A.Analysis.framework self.old.analysis.now) self.new.workspace.now }
        ensures raised { let m = A.Analysis.framework self.old.analysis.now in Raised m k (m.read sent.now) (table m self.old.workspace.now) (marked self.old.marks.words) (table m self.new.workspace.now) (marked self.new.marks.words) }
        ensures behind { let m = A.Analysis.framework self.old.analysis.now in rest m self.new.workspace.now ≡ rest m self.old.workspace.now }
        ensures analysis { self.new.analysis ≡ self.old.analysis }
        ensures same { self.new.workspace.ghost_name ≡ self.old.workspace.ghost_name }
    {
        let from = k * WIDTH;
        let row = &mut self.workspace[from..from + WIDTH];
        if self.analysis.join(row, sent) {
            self.marks.set(k);
        }
    }
}
