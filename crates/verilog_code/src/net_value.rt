//! What stands at a place: a number, or a number or nothing.
ghost use Rattle.std.specs.Prelude.{◌≡◌, ℕ, List, Some, true, get_or, map};
ghost use Rattle.verilog_code.specs.declared.action.Action.{Action};
ghost use Rattle.verilog_code.specs.declared.code.Code.{Code};
ghost use Rattle.verilog_code.specs.Actions.{Run, action_run, run_all};
ghost use Rattle.verilog_code.specs.Code.{meaning};
ghost use Rattle.verilog_code.specs.OpenActions.{OpenDoing, open_action, open_run_all};
ghost use Rattle.verilog_code.specs.OpenCode.{open_meaning};
ghost use Rattle.verilog_code.specs.Reading.{Reads, Rests};

use crate::action::{self, Action};
use crate::code::{Code, at, value};
use crate::open_action;
use crate::open_code::{open_at, open_value};

/// What stands at a place.
pub trait NetValue: Copy {
    /// What is read where there is no place.
    ghost zero: { Self };

    ghost worth: { List Self → Code → Self };

    ghost Doing: { Type 0 };

    ghost doing: { Action → Doing };

    ghost do_all: { List Doing → List Self → List Self → List Self };

    fn equals(self, other: Self) -> bool
        ensures { result ≡ true → self ≡ other };

    fn at(values: &[Self], place: usize) -> Self
        ensures { result ≡ get_or values.now place zero };

    fn of(code: &Code, values: &[Self]) -> Self
        ensures { result ≡ worth values.now code.now };

    fn act_all(actions: &[Action], values: &[Self], next: &mut [Self])
        ensures { next.new ≡ do_all (map doing actions.now) values.now next.old };

    ghost rests: { (bits : ℕ) (c : Code) → Reads bits c → Rests zero worth bits c };
}

impl NetValue for u64 {
    ghost zero = { 0 };

    ghost worth = { meaning };

    ghost Doing = { Run };

    ghost doing = { action_run };

    ghost do_all = { run_all };

    #[inline]
    fn equals(self, other: u64) -> bool {
        self == other
    }

    #[inline]
    fn at(values: &[u64], place: usize) -> u64 {
        at(values, place)
    }

    #[inline]
    fn of(code: &Code, values: &[u64]) -> u64 {
        value(code, values)
    }

    fn act_all(actions: &[Action], values: &[u64], next: &mut [u64]) {
        action::act_all(actions, values, next)
    }

    ghost rests = { λ bits c r. r.closed };
}

impl NetValue for Option<u64> {
    ghost zero = { Some 0 };

    ghost worth = { open_meaning };

    ghost Doing = { OpenDoing };

    ghost doing = { open_action };

    ghost do_all = { open_run_all };

    #[inline]
    fn equals(self, other: Option<u64>) -> bool {
        self == other
    }

    #[inline]
    fn at(values: &[Option<u64>], place: usize) -> Option<u64> {
        open_at(values, place)
    }

    #[inline]
    fn of(code: &Code, values: &[Option<u64>]) -> Option<u64> {
        open_value(code, values)
    }

    fn act_all(actions: &[Action], values: &[Option<u64>], next: &mut [Option<u64>]) {
        open_action::act_all(actions, values, next)
    }

    ghost rests = { λ bits c r. r.when_open };
}
