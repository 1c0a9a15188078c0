// Rows of an old image judged where they lie, so that nothing is written before an image is known to be sound: whether they are proper,
// and whether a rule can fire on them. This runs at service, so the holders of each tick are counted one by one. A set of the old window
// is the same set in a wider one, so the rules of today judge it.
ghost use Rattle.std.specs.Prelude.{◌≡◌, ◌+◌, ◌≤◌, ◌<◌, eqb, ltb, get_or, length};
ghost use Rattle.sets.specs.Ticks.{holds};
ghost use Rattle.evidence.specs.Rows.{set_of, proper_rows};
ghost use Rattle.evidence.specs.Holders.{holders, best_of, greatest};
ghost use Rattle.rules.specs.Describe.{window, last_tick};
ghost use Rattle.rules.specs.Rules.{can_r3, jump_to, wake_at, first_rule, at_rest};
ghost use Rattle.rules.specs.Steps.{may_echo};
ghost use Rattle.evidence.specs.Holders.{tick_told};
ghost use Rattle.evidence.specs.Rows.{no_row};

use crate::rows::OldRows;
use evidence::rows::is_proper_set;
use fields::kind::{ECHO, INIT};
use rules::node::Node;

// Of so many, f + 1, one is correct.
fn enough(node: Node) -> usize
    ensures { result ≡ node.faults + 1 }
{
    node.faults as usize + 1
}

impl<'a> OldRows<'a> {
    // ---- asked of the rows

    // Whether row k holds (kind, t).
    fn holds(&self, k: usize, kind: u32, t: u32) -> bool
        requires { k < length self.now }
        ensures { result ≡ eqb (holds window (set_of kind (get_or self.now k no_row)) t) 1 }
    {
        self.set(k, kind).holds(Node::WINDOW, t)
    }

    // How many rows hold (kind, t).
    fn count(&self, kind: u32, t: u32) -> usize
        ensures { (result ≡ holders window kind t self.now) × (result ≤ length self.now) }
    {
        let mut found: usize = 0;
        for k in 0..self.len() {
            found += usize::from(self.holds(k, kind, t));
        }
        found
    }

    // The greatest tick of the first row's set of a kind that is at least low and that m of the rows hold. An old mask is one word. It is
    // halved at each tick, so that its lowest bit is that of the tick in hand. (A `for` would be no plainer: what ends the loop is that
    // nothing is left of the mask, and mostly little is left of it.)
    fn find_shared(&self, kind: u32, m: usize, low: u64) -> Option<u32>
        requires { 0 < length self.now }
        ensures { tick_told result ≡ best_of window kind m low self.now (set_of kind (get_or self.now 0 no_row)) }
    {
        let s = self.set(0, kind);
        let mut rest = s.mask.word_at(0);
        let mut x = s.top as u64 + 1;
        while low < x && 0 < rest {
            let t = (x - 1) as u32;
            if rest % 2 == 1 && m <= self.count(kind, t) {
                return Some(t);
            }
            rest /= 2;
            x -= 1;
        }
        None
    }

    // Whether there is a tick of a kind, at least low, that m of the rows hold. The last m - 1 rows alone are too few for one, so it is
    // enough to look at the sets of those before. What the set of a row holds is settled with that row, so a search counts only the rows
    // left.
    fn is_any_shared(&self, kind: u32, m: usize, low: u64) -> bool
        requires { 0 < m }
        ensures { result ≡ ltb 0 (greatest window kind m low self.now) }
    {
        let n = self.len();
        for k in 0..n.saturating_sub(m - 1) {
            let rest = self.part(k, n - k);
            if rest.find_shared(kind, m, low).is_some() {
                return true;
            }
        }
        false
    }

    // Whether the rows are as a sound image may hold them.
    pub(crate) fn are_proper(&self) -> bool
        ensures { result ≡ proper_rows window last_tick self.now }
    {
        for k in 0..self.len() {
            if !is_proper_set(self.set(k, ECHO), Node::WINDOW, Node::LAST_TICK) {
                return false;
            }
            if !is_proper_set(self.set(k, INIT), Node::WINDOW, Node::LAST_TICK) {
                return false;
            }
        }
        true
    }

    // ---- asked for a node: whether a rule can fire

    // R1 or R2: echo k is unsent, and (init, k) or (echo, k) is held by f + 1.
    fn can_echo(&self, node: Node) -> bool
        ensures { result ≡ may_echo node self.now }
    {
        let k = node.tick;
        let many = enough(node);
        node.sent < k && (many <= self.count(INIT, k) || many <= self.count(ECHO, k))
    }

    // R3: (echo, k) is held by n - f, and k is below the last tick.
    fn can_tick(&self, node: Node) -> bool
        requires { node.faults ≤ node.lines }
        ensures { result ≡ can_r3 window last_tick node self.now }
    {
        let most = (node.lines - node.faults) as usize;
        node.tick < Node::LAST_TICK && most <= self.count(ECHO, node.tick)
    }

    // R4: a tick above k + 1 whose echo is held by f + 1.
    fn can_jump(&self, node: Node) -> bool
        ensures { result ≡ ltb 0 (jump_to window node self.now) }
    {
        self.is_any_shared(ECHO, enough(node), node.tick as u64 + 2)
    }

    // R5: passive, and a tick whose init is held by f + 1.
    fn can_wake(&self, node: Node) -> bool
        ensures { result ≡ ltb 0 (wake_at window node self.now) }
    {
        node.mode == 0 && self.is_any_shared(INIT, enough(node), 0)
    }

    // Whether no rule can fire.
    pub(crate) fn is_at_rest(&self, node: Node) -> bool
        requires { node.faults ≤ node.lines }
        ensures { result ≡ at_rest (first_rule window last_tick self.now node) }
    {
        !(self.can_echo(node) || self.can_tick(node) || self.can_jump(node) || self.can_wake(node))
    }
}
