//! Laws of update blocks and their orders. No code calls these functions: each one proves its law.
ghost use Rattle.std.specs.Prelude.{◌≡◌, ◌<◌, ◌∷◌, [], ℕ, List, length, IsTrue, IsFalse, None};
ghost use Rattle.pm_cons.specs.Breaks.{break_of};
ghost use Rattle.pm_cons.specs.Conflicts.{AreAllListed, is_unordered};
ghost use Rattle.pm_cons.specs.Cycles.{IsReportedCycle};
ghost use Rattle.pm_cons.specs.Firing.{MayAllFire, fire_all, joined, none_fired};
ghost use Rattle.pm_cons.specs.Listing.{ListsInOrder};
ghost use Rattle.pm_cons.specs.Orders.{IsTopological, has, run_in_turn};
ghost use Rattle.pm_cons.specs.Precedence.{IsOfBlocks, Path, Precedence, has_loop, precedes};
ghost use Rattle.pm_cons.specs.Sample as sample;
ghost use Rattle.pm_cons.specs.Settled.{IsLeft, left, left_to, seen, settled};
ghost use Rattle.pm_cons.specs.UpdateBlocks.{IsLocal, IsOrdered, IsWithin, UpdateBlocks, Valuation};

/// Schedule independence: if the blocks are ordered, then running each of them once in any topological order, from any
/// start values, ends in the settled values.
pub fn every_order_settles<P>()
    ensures { (d : UpdateBlocks P) (start : Valuation P) (order : List ℕ) (p : P) →
        IsWithin d → IsLocal d → IsOrdered d → IsTopological d.precedence order →
        run_in_turn d order start p ≡ settled d start p }
{}

/// What an ordered block leaves is its run on what it sees, and to follow the precedence further back changes nothing.
pub fn blocks_leave_their_run<P>()
    ensures run { (d : UpdateBlocks P) (start : Valuation P) (b : ℕ) (p : P) → IsWithin d → IsOrdered d →
        left d start b p ≡ d.run b (seen d start b) p }
    ensures depth { (d : UpdateBlocks P) (start : Valuation P) (k b : ℕ) (p : P) → IsWithin d → IsOrdered d →
        d.precedence.count < k → left_to k d start b p ≡ left d start b p }
{}

/// Nothing else solves these equations: if each block leaves its run on what it sees, it leaves what is defined.
pub fn nothing_else_is_left<P>()
    ensures { (d : UpdateBlocks P) (start : Valuation P) (f : ℕ → Valuation P) (b : ℕ) (p : P) → IsWithin d → IsOrdered d →
        IsLeft d start f → f b p ≡ left d start b p }
{}

/// Firing is sound. After any blocks have fired, each after its direct predecessors, perhaps several times: whatever
/// precedes a fired block directly has fired; each fired block has recorded what it leaves; and once all blocks have
/// fired, the records of the last writers are the settled values.
pub fn firing_is_sound<P>()
    ensures fired { (d : UpdateBlocks P) (start : Valuation P) (events : List ℕ) (a b : ℕ) →
        IsWithin d → IsOrdered d → MayAllFire d start none_fired events →
        IsTrue (has (fire_all d start none_fired events).fired b) → IsTrue (d.precedence.before a b) →
        IsTrue (has (fire_all d start none_fired events).fired a) }
    ensures recorded { (d : UpdateBlocks P) (start : Valuation P) (events : List ℕ) (b : ℕ) (p : P) →
        IsWithin d → IsOrdered d → MayAllFire d start none_fired events →
        IsTrue (has (fire_all d start none_fired events).fired b) →
        (fire_all d start none_fired events).recorded b p ≡ left d start b p }
    ensures settled { (d : UpdateBlocks P) (start : Valuation P) (events : List ℕ) (p : P) →
        IsWithin d → IsOrdered d → MayAllFire d start none_fired events →
        ((b : ℕ) → b < d.precedence.count → IsTrue (has (fire_all d start none_fired events).fired b)) →
        joined d start (fire_all d start none_fired events) p ≡ settled d start p }
{}

/// One block precedes another, by the test, if and only if one or more edges lead from the one to the other.
pub fn closure_is_steps()
    ensures path { (g : Precedence) (a b : ℕ) → IsTrue (precedes g a b) → Path g.before a b }
    ensures test { (g : Precedence) (a b : ℕ) → IsOfBlocks g → Path g.before a b → IsTrue (precedes g a b) }
{}

/// A list is a topological order if and only if it has exactly the blocks, each once, and the first block of each edge
/// before the second.
pub fn topological_orders_list_blocks_in_order()
    ensures lists { (g : Precedence) (order : List ℕ) → IsTopological g order → ListsInOrder g order }
    ensures order { (g : Precedence) (order : List ℕ) → ListsInOrder g order → IsTopological g order }
{}

/// If every conflict is listed, no block precedes itself and no listed pair is unordered, then the blocks are ordered.
pub fn no_loop_and_no_pair_are_ordered<P>()
    ensures { (d : UpdateBlocks P) (conflicts : List (List ℕ)) → AreAllListed d conflicts →
        IsFalse (has_loop d.precedence) → ((a b : ℕ) → IsFalse (is_unordered d.precedence conflicts a b)) →
        IsOrdered d }
{}

/// If there is a loop, there is exactly one reported cycle, and it has no more blocks than there are.
pub fn one_cycle_is_reported()
    ensures some { (g : Precedence) → IsOfBlocks g → IsTrue (has_loop g) →
        (a : ℕ) × (xs : List ℕ) × IsReportedCycle g a xs }
    ensures only { (g : Precedence) (a b : ℕ) (xs ys : List ℕ) → IsOfBlocks g →
        IsReportedCycle g a xs → IsReportedCycle g b ys → (a ≡ b) × (xs ≡ ys) }
    ensures short { (g : Precedence) (a : ℕ) (xs : List ℕ) → IsOfBlocks g → IsReportedCycle g a xs →
        length xs < g.count }
{}

/// A list has no break if and only if it is a topological order.
pub fn no_break_is_topological()
    ensures order { (g : Precedence) (order : List ℕ) → IsOfBlocks g → break_of g order ≡ None → IsTopological g order }
    ensures none { (g : Precedence) (order : List ℕ) → IsTopological g order → break_of g order ≡ None }
{}

/// There are blocks that meet the premises of these laws, with a topological order, and there is a loop.
pub fn two_blocks_are_ordered()
    ensures within { IsWithin sample.blocks }
    ensures local { IsLocal sample.blocks }
    ensures ordered { IsOrdered sample.blocks }
    ensures topological { IsTopological sample.precedence (0 ∷ 1 ∷ []) }
    ensures fires { MayAllFire sample.blocks sample.start none_fired (0 ∷ 1 ∷ 0 ∷ []) }
    ensures loop_edges { IsOfBlocks sample.loop }
    ensures has_loop { IsTrue (has_loop sample.loop) }
{}
