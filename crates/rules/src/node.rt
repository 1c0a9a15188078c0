// A node by value: its place on the roster and its clock. The evidence, n rows, lies in lent bytes and is looked at where it lies, so a
// node costs six words of stack however many rows there are. The methods but `new` are joints between layers: the caller has checked that
// the rows are those of the roster and that there is room for all records.
ghost use Rattle.std.specs.Prelude.{◌≡◌, true, false, ◌&&◌, ◌+◌, ◌*◌, ◌≤◌, eqb, leb, length};
ghost use Rattle.evidence.specs.Holders.{holders};
ghost use Rattle.fields.specs.Kind.{ECHO};
ghost use Rattle.rules.specs.Describe.{window, last_tick, most_firings, fresh_node};
ghost use Rattle.rules.specs.Record.{record_size};
ghost use Rattle.rules.specs.Rules.{can_r3, jump_to, or_jump, unsent, first_rule, at_rest, woken, fired, said, settle};
ghost use Rattle.rules.specs.Delivery.{asks, answer, delivered};
ghost use Rattle.rules.specs.Steps.{state_from, RowsOf, may_echo_by, jump_else_wake, CanFire};
ghost use Rattle.rules.specs.Steps.{SentAs, broadcasts, FitKind, CreditedIn, CanSettle, SettledAs, CanDeliver, DeliveredAs};
ghost use Rattle.rules.specs.declared.node.Rule.TheVariants.{Rest};

use crate::record::{RECORD, put_answer, put_broadcast};
use evidence::list::Rows;
use evidence::rows::credit_row;
use fields::kind::{ECHO, INIT};
use forms::frame::{BROADCAST, Frame};
use search::greatest::find_greatest;
use search::tops::is_reached;

// The rule that fires next: none, R1 or R2, R3, R4 to tick l, R5 at tick x.
#[derive(Clone, Copy, PartialEq, Eq)]
pub enum Rule {
    Rest,
    Echo,
    Tick,
    Jump(u32),
    Wake(u32),
}

impl Rule {
    // Whether no rule fires.
    pub fn is_at_rest(self) -> bool
        ensures { result ≡ at_rest self }
    {
        matches!(self, Rule::Rest)
    }
}

#[derive(Clone, Copy)]
pub struct Node {
    // n, f and the own serial
    pub lines: u32,
    pub faults: u32,
    pub own: u32,
    // 0 passive, 1 active; a number, since the contracts hold for any (specs/Rules, `wake_at`)
    pub mode: u32,
    // k
    pub tick: u32,
    // the last echo sent
    pub sent: u32,
}

// The node that follows, with the count of its records, and how many rules fired.
#[derive(Drop)]
pub struct Next {
    pub node: Node,
    pub records: usize,
    pub fired: usize,
}

// Whether a frame asks for an answer: (echo, 0) without the flag. An answer is never answered.
fn asks_answer(frame: Frame) -> bool
    ensures { result ≡ asks frame }
{
    frame.kind == ECHO && frame.tick == 0 && frame.flag == BROADCAST
}

// Whether at least m of the rows hold (kind, t).
fn is_held(rows: &Rows, m: usize, kind: u32, t: u32) -> bool
    ensures { result ≡ leb m (holders window kind t rows.now) }
{
    rows.decide(kind, Node::WINDOW, t, m).held
}

impl Node {
    pub const WINDOW: u32 = 128;

    pub const LAST_TICK: u32 = 4_000_000_000;

    // How many rules one delivery may fire.
    pub const MOST_FIRINGS: usize = 15;

    // Bytes of output that boot and deliver ask: a record for each firing, and the answer.
    pub const ROOM: usize = (Node::MOST_FIRINGS + 1) * RECORD;

    // A fresh node: clock 0, last echo 0, passive.
    pub fn new(lines: u32, faults: u32, own: u32) -> Node
        ensures { result ≡ fresh_node lines faults own }
    {
        Node {
            lines,
            faults,
            own,
            mode: 0,
            tick: 0,
            sent: 0,
        }
    }

    // Of so many, f + 1, one is correct.
    fn enough(self) -> usize
        ensures { result ≡ self.faults + 1 }
    {
        self.faults as usize + 1
    }

    // R1 by inits, R2 by echoes: echo k is unsent, and (kind, k) is held by f + 1.
    fn can_echo(self, rows: &Rows, kind: u32) -> bool
        ensures { result ≡ may_echo_by kind self rows.now }
    {
        self.sent < self.tick && is_held(rows, self.enough(), kind, self.tick)
    }

    // R3: (echo, k) is held by n - f, and k is below the last tick.
    fn can_tick(self, rows: &Rows) -> bool
        requires { RowsOf self rows.now }
        ensures { result ≡ can_r3 window last_tick self rows.now }
    {
        let most = (self.lines - self.faults) as usize;
        self.tick < Node::LAST_TICK && is_held(rows, most, ECHO, self.tick)
    }

    // R4 or R5, or none.
    fn jump_or_wake(self, rows: &Rows) -> Rule
        ensures { result ≡ jump_else_wake self rows.now }
    {
        let enough = self.enough();
        let low = self.tick as u64 + 2;
        if is_reached(rows, ECHO, enough, low) {
            if let Some(l) = find_greatest(rows, ECHO, Node::WINDOW, enough, low) {
                return Rule::Jump(l);
            }
        }
        if self.mode == 0 {
            if let Some(x) = find_greatest(rows, INIT, Node::WINDOW, enough, 0) {
                return Rule::Wake(x);
            }
        }
        Rule::Rest
    }

    // The first rule that can fire.
    pub fn rule(self, rows: &Rows) -> Rule
        requires { RowsOf self rows.now }
        ensures { result ≡ first_rule window last_tick rows.now self }
    {
        if self.can_echo(rows, INIT) || self.can_echo(rows, ECHO) {
            return Rule::Echo;
        }
        if self.can_tick(rows) {
            return Rule::Tick;
        }
        self.jump_or_wake(rows)
    }

    // Whether (init, j) is what echo k waits for: j is k, and echo k is unsent.
    fn awaits_init(self, j: u32) -> bool
        ensures { result ≡ (eqb j self.tick && unsent self) }
    {
        j == self.tick && self.sent < j
    }

    // R4 after an echo of tick j: no tick but j, j - 1 and j - 2 can be new, so no other is looked at.
    fn jump_near(self, rows: &Rows, j: u32) -> Rule
        requires { CreditedIn self rows.now true j }
        ensures { result ≡ or_jump (jump_to window self rows.now) Rest }
    {
        let enough = self.enough();
        let next = self.tick as u64 + 1;
        for back in 0..3 {
            let l = j - back;
            if l as u64 <= next {
                return Rule::Rest;
            }
            if is_held(rows, enough, ECHO, l) {
                return Rule::Jump(l);
            }
        }
        Rule::Rest
    }

    // The first rule after an echo of tick j: the inits stand still, so R1 and R5 can't be new; and an echo adds no tick above its own.
    fn rule_after_echo(self, rows: &Rows, j: u32) -> Rule
        requires { CreditedIn self rows.now true j }
        ensures { result ≡ first_rule window last_tick rows.now self }
    {
        if j < self.tick {
            Rule::Rest
        } else if self.can_echo(rows, ECHO) {
            Rule::Echo
        } else if self.can_tick(rows) {
            Rule::Tick
        } else {
            self.jump_near(rows, j)
        }
    }

    // The first rule after an init of tick j: the echoes stand still, so R2, R3 and R4 can't be new, and j is the one tick to ask for.
    fn rule_after_init(self, rows: &Rows, j: u32) -> Rule
        requires { CreditedIn self rows.now false j }
        ensures { result ≡ first_rule window last_tick rows.now self }
    {
        let rule = if self.awaits_init(j) {
            Rule::Echo
        } else if self.mode == 0 {
            Rule::Wake(j)
        } else {
            return Rule::Rest;
        };
        if is_held(rows, self.enough(), INIT, j) {
            rule
        } else {
            Rule::Rest
        }
    }

    // The first rule after a frame, of a node that was at rest before it: a few questions tell it.
    fn rule_after(self, rows: &Rows, frame: Frame) -> Rule
        requires { CreditedIn self rows.now (eqb frame.kind ECHO) frame.tick }
        ensures { result ≡ first_rule window last_tick rows.now self }
    {
        if frame.kind == ECHO {
            self.rule_after_echo(rows, frame.tick)
        } else {
            self.rule_after_init(rows, frame.tick)
        }
    }

    // The tick that R5 at x takes: the larger of x - 1 and k, where x = 0 keeps k.
    fn woken(self, x: u32) -> u32
        ensures { result ≡ woken self x }
    {
        x.saturating_sub(1).max(self.tick)
    }

    // The node after a rule has fired.
    #[tactic(auto, unfolding(crate::specs::Rules::fired))]
    fn fire(self, rule: Rule) -> Node
        requires { CanFire last_tick self rule }
        ensures { result ≡ fired self rule }
    {
        match rule {
            Rule::Rest => self,
            Rule::Echo => Node {
                sent: self.tick,
                ..self
            },
            Rule::Tick => Node {
                tick: self.tick + 1,
                ..self
            },
            Rule::Jump(l) => Node {
                tick: l - 1,
                sent: l - 1,
                ..self
            },
            Rule::Wake(x) => {
                let k = self.woken(x);
                Node {
                    mode: 1,
                    tick: k,
                    sent: self.sent.max(k),
                    ..self
                }
            }
        }
    }

    // What a rule sends to all, a kind and a tick, or nothing.
    #[tactic(auto, unfolding(crate::specs::Rules::said))]
    fn sends(self, rule: Rule) -> Option<(u32, u32)>
        requires { CanFire last_tick self rule }
        ensures sent { broadcasts result ≡ said self rule }
        ensures known { FitKind result }
    {
        match rule {
            Rule::Rest => None,
            Rule::Echo => Some((ECHO, self.tick)),
            Rule::Tick => Some((INIT, self.tick + 1)),
            Rule::Jump(l) => Some((ECHO, l - 1)),
            Rule::Wake(x) => {
                let k = self.woken(x);
                if self.sent < k { Some((ECHO, k)) } else { None }
            }
        }
    }

    // Puts what a rule sends behind the records that are there, and gives the new count.
    #[tactic(auto, using(crate::proofs::Records::sent_none, crate::proofs::Records::sent_one))]
    fn say(self, rule: Rule, out: &mut [u8], records: usize) -> usize
        requires { (CanFire last_tick self rule) × (record_size * records + record_size ≤ length out.old) }
        ensures { SentAs 1 (said self rule) records out.old result out.new }
    {
        match self.sends(rule) {
            Some((kind, tick)) => {
                put_broadcast(out, RECORD * records, kind, tick);
                records + 1
            }
            None => records,
        }
    }

    // Fires the first rule that can until none can, puts the records behind the `start` that are there, and counts the firings. The
    // caller knows the first rule already, so it is asked for only after a firing.
    fn settle(self, rows: &Rows, out: &mut [u8], start: usize, first: Rule) -> Next
        requires { CanSettle self rows.now out.old start first }
        ensures { SettledAs (settle window last_tick rows.now most_firings self) start out.old result out.new }
    {
        let mut node = self;
        let mut records = start;
        let mut rule = first;
        for fired in 0..Node::MOST_FIRINGS {
            if rule.is_at_rest() {
                return Next {
                    node,
                    records,
                    fired,
                };
            }
            records = node.say(rule, out, records);
            node = node.fire(rule);
            rule = node.rule(rows);
        }
        Next {
            node,
            records,
            fired: Node::MOST_FIRINGS,
        }
    }

    // The answer to another serial that asks for one: the last echo sent before this delivery.
    fn answer(self, port: u32, frame: Frame, out: &mut [u8]) -> usize
        requires { record_size ≤ length out.old }
        ensures { SentAs 1 (answer self port frame) 0 out.old result out.new }
    {
        if asks_answer(frame) && port != self.own {
            put_answer(out, 0, port, self.sent);
            return 1;
        }
        0
    }

    // One delivery to a node at rest: the frame is credited to the port's row, answered where it asks for that, and the rules fire.
    pub fn deliver(self, b: &mut [u8], i: usize, port: u32, frame: Frame, out: &mut [u8]) -> Next
        requires { CanDeliver self b.old i port out.old }
        ensures { DeliveredAs (delivered window last_tick (state_from self b.old i) port frame)
            b.old i out.old result b.new out.new }
    {
        let n = self.lines as usize;
        credit_row(b, i, n, Node::WINDOW, port, frame.kind, frame.tick);
        let rows = Rows::new(b, i, n);
        let start = self.answer(port, frame, out);
        let first = self.rule_after(&rows, frame);
        self.settle(&rows, out, start, first)
    }
}
