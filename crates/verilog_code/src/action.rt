//! Statements over the places of values.
ghost use Rattle.std.specs.Prelude.{◌≡◌, cond, map};
ghost use Rattle.verilog_code.specs.Actions.{Run, labelled, run_branch, action_run, actions_run, branch_run};

use crate::cells::set;
use crate::code::{Code, value};

/// A statement. A number stands for the place of a register's value.
#[derive(Drop)]
#[cycle(action)]
pub enum Action {
    Set(usize, Box<Code>),
    /// What is done where the condition isn't 0, and what is done else.
    If(Box<Code>, Vec<Action>, Vec<Action>),
    /// The branch with a label that equals the subject, or else the last actions.
    Case(Box<Code>, Vec<Branch>, Vec<Action>),
}

#[derive(Drop)]
#[cycle(action)]
pub struct Branch {
    pub labels: Vec<u64>,
    pub body: Vec<Action>,
}

pub fn has_label(labels: &[u64], subject: u64) -> bool
    ensures { result ≡ labelled subject labels.now }
{
    for label in labels {
        if subject == *label {
            return true;
        }
    }
    false
}

// Reads `values` alone, and writes `next` alone.
#[cycle(act)]
fn act(action: &Action, values: &[u64], next: &mut [u64])
    ensures { next.new ≡ action_run action.now values.now next.old }
{
    match action {
        Action::Set(place, x) => set(next, *place, value(x, values)),
        Action::If(c, a, b) => {
            if value(c, values) != 0 {
                act_all(a, values, next)
            } else {
                act_all(b, values, next)
            }
        }
        Action::Case(x, branches, other) => {
            if !act_branch(value(x, values), branches, values, next) {
                act_all(other, values, next)
            }
        }
    }
}

/// Does these in order.
#[cycle(act)]
pub fn act_all(actions: &[Action], values: &[u64], next: &mut [u64])
    ensures { next.new ≡ actions_run actions.now values.now next.old }
{
    for action in actions {
        act(action, values, next);
    }
}

// Does the first branch with this label, if there is one.
#[cycle(act)]
fn act_branch(subject: u64, branches: &[Branch], values: &[u64], next: &mut [u64]) -> bool
    ensures { (d : Run) → cond result next.new (d values.now next.new)
        ≡ run_branch subject (map branch_run branches.now) d values.now next.old }
{
    for branch in branches {
        if has_label(&branch.labels, subject) {
            act_all(&branch.body, values, next);
            return true;
        }
    }
    false
}
