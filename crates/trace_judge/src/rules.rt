// The three rules over the cells of a trace (document 02, L11).
ghost use Rattle.std.specs.Prelude.{◌≡◌, ◌+◌, ◌<◌, ◌^◌};
ghost use Rattle.rate_params.specs.Forward.{forward_due};
ghost use Rattle.trace_judge.specs.Rules.{rule_number, with_sent, too_soon, broken_rule};
ghost use Rattle.trace_judge.specs.Kept.{with_broken, NextFits, RulesFit};

use crate::cells::Cell;
use rate::gap::gap;

// The rules, with the document's numbers.
#[derive(Clone, Copy, Debug, PartialEq, Eq)]
pub enum Rule {
    // The first cell is a forward one.
    FirstForward = 1,

    // A later cell comes a gap or more after the one before, and not at rate 0.
    Spacing = 2,

    // A later cell is a forward one exactly when a slot would send one.
    ForwardDue = 3,
}

impl Rule {
    // The document's number, as a caller in C gets it.
    pub fn number(self) -> u32
        ensures { result ≡ rule_number self }
    {
        self as u32
    }
}

// What was sent before a cell: how many cells; when the last one and the last forward one went, counted from the
// first; and how many since the last forward one.
#[derive(Clone, Copy, Debug, PartialEq, Eq)]
pub struct Sent {
    pub cells: u64,
    pub time: u64,
    pub forward: u64,
    pub k: u64,
}

// A cell that breaks a rule, counted from 1, and the number of the lowest rule that it breaks. No `Rule`: `with_broken`
// keeps whatever number it is given.
#[derive(Clone, Copy, Debug, PartialEq, Eq)]
pub struct Broken {
    pub cell: u64,
    pub rule: u32,
}

#[tactic(auto, unfolding(crate::specs::Rules::too_soon))]
fn too_soon(c: Cell) -> bool
    ensures { result ≡ too_soon c }
{
    c.rate == 0 || c.since < gap(c.rate)
}

fn forward_due(nrm: u64, trm: u64, k: u64, forward: u64, t: u64) -> bool
    requires { (0 < nrm) × (forward + trm < 2 ^ 64) }
    ensures { result ≡ forward_due nrm trm k forward t }
{
    k == nrm - 1 || (2 <= k && forward + trm <= t)
}

// The lowest rule that a cell breaks.
#[tactic(auto, unfolding(crate::specs::Rules::broken_rule))]
fn broken_rule(nrm: u64, trm: u64, sent: Sent, c: Cell) -> Option<Rule>
    requires { RulesFit nrm trm sent c }
    ensures { result ≡ broken_rule nrm trm sent c }
{
    let forward = c.kind == 1;
    if sent.cells == 0 {
        return if forward {
            None
        } else {
            Some(Rule::FirstForward)
        };
    }
    if too_soon(c) {
        return Some(Rule::Spacing);
    }
    if forward == forward_due(nrm, trm, sent.k, sent.forward, sent.time + c.since) {
        None
    } else {
        Some(Rule::ForwardDue)
    }
}

// One cell more: the first that breaks a rule stays the first.
#[tactic(auto, unfolding(crate::specs::Kept::with_broken))]
pub fn with_broken(
    nrm: u64,
    trm: u64,
    broken: Option<Broken>,
    sent: Sent,
    c: Cell,
) -> Option<Broken>
    requires { RulesFit nrm trm sent c }
    ensures { result ≡ with_broken nrm trm broken sent c }
{
    if broken.is_some() {
        return broken;
    }
    let rule = broken_rule(nrm, trm, sent, c)?;
    Some(Broken {
        cell: sent.cells + 1,
        rule: rule.number(),
    })
}

// One cell more.
#[tactic(auto, unfolding(crate::specs::Rules::with_sent))]
pub fn with_sent(sent: Sent, c: Cell) -> Sent
    requires { NextFits sent c }
    ensures { result ≡ with_sent sent c }
{
    let cells = sent.cells + 1;
    let time = sent.time + c.since;
    if c.kind == 1 {
        Sent {
            cells,
            time,
            forward: time,
            k: 0,
        }
    } else {
        Sent {
            cells,
            time,
            forward: sent.forward,
            k: sent.k + 1,
        }
    }
}
