//! Statements over the places of values of which some are open.
ghost use Rattle.std.specs.Prelude.{◌≡◌, cond, map, None};
ghost use Rattle.verilog_code.specs.OpenActions.{OpenValues, open_run_all, forget_all, forget_branches, open_run_branch, open_action, open_branch};

use crate::action::{Action, Branch, has_label};
use crate::cells::set;
use crate::code::Code;
use crate::open_code::open_value;

// What becomes of the next values where it isn't known whether this is done.
#[cycle(forget)]
fn forget(action: &Action, next: &mut [Option<u64>])
    ensures { next.new ≡ (open_action action.now).forget next.old }
{
    match action {
        Action::Set(place, _) => set(next, *place, None),
        Action::If(_, a, b) => {
            forget_all(a, next);
            forget_all(b, next)
        }
        Action::Case(_, branches, other) => {
            forget_branches(branches, next);
            forget_all(other, next)
        }
    }
}

#[cycle(forget)]
fn forget_all(actions: &[Action], next: &mut [Option<u64>])
    ensures { next.new ≡ forget_all (map open_action actions.now) next.old }
{
    for action in actions {
        forget(action, next);
    }
}

#[cycle(forget)]
fn forget_branches(branches: &[Branch], next: &mut [Option<u64>])
    ensures { next.new ≡ forget_branches (map open_branch branches.now) next.old }
{
    for branch in branches {
        forget_all(&branch.body, next);
    }
}

// Reads `values` alone, and writes `next` alone.
#[cycle(open_act)]
fn act(action: &Action, values: &[Option<u64>], next: &mut [Option<u64>])
    ensures { next.new ≡ (open_action action.now).run values.now next.old }
{
    match action {
        Action::Set(place, x) => set(next, *place, open_value(x, values)),
        Action::If(c, a, b) => match open_value(c, values) {
            None => {
                forget_all(a, next);
                forget_all(b, next)
            }
            Some(c) => {
                if c != 0 {
                    act_all(a, values, next)
                } else {
                    act_all(b, values, next)
                }
            }
        },
        Action::Case(x, branches, other) => match open_value(x, values) {
            None => {
                forget_branches(branches, next);
                forget_all(other, next)
            }
            Some(subject) => {
                if !act_branch(subject, branches, values, next) {
                    act_all(other, values, next)
                }
            }
        },
    }
}

/// Does these in order.
#[cycle(open_act)]
pub fn act_all(actions: &[Action], values: &[Option<u64>], next: &mut [Option<u64>])
    ensures { next.new ≡ open_run_all (map open_action actions.now) values.now next.old }
{
    for action in actions {
        act(action, values, next);
    }
}

// Does the first branch with this label, if there is one.
#[cycle(open_act)]
fn act_branch(
    subject: u64,
    branches: &[Branch],
    values: &[Option<u64>],
    next: &mut [Option<u64>],
) -> bool
    ensures { (d : OpenValues → OpenValues → OpenValues)
        → cond result next.new (d values.now next.new)
        ≡ open_run_branch subject (map open_branch branches.now) d values.now next.old }
{
    for branch in branches {
        if has_label(&branch.labels, subject) {
            act_all(&branch.body, values, next);
            return true;
        }
    }
    false
}
