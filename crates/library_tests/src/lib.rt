//! Tests of the libraries through their public calls: the commands, the readers of texts, modules of Verilog, and what
//! the other libraries answer. They stand in one crate above all of them, since a crate that has tests is proved once
//! more with them. Most are rows of text, which cost no proof each: `rows.rt` reads their lines, `commands.rt` and
//! `questions.rt` tell their forms and whether they are right.
#![tactic(auto)]

#[cfg(test)]
mod answers;
#[cfg(test)]
mod array_rows;
#[cfg(test)]
mod bench_rows;
#[cfg(test)]
mod calls;
#[cfg(test)]
mod check_rows;
#[cfg(test)]
mod chip_rows;
#[cfg(test)]
mod chip_texts;
#[cfg(test)]
mod commands;
#[cfg(test)]
mod compile_rows;
#[cfg(test)]
mod controller_rows;
#[cfg(test)]
mod decoder_rows;
#[cfg(test)]
mod dynamic_rows;
#[cfg(test)]
mod fault_texts;
#[cfg(test)]
mod given;
#[cfg(test)]
mod host_rows;
#[cfg(test)]
mod hosts;
#[cfg(test)]
mod inword_rows;
#[cfg(test)]
mod judge_rows;
#[cfg(test)]
mod linked_rows;
#[cfg(test)]
mod list_texts;
#[cfg(test)]
mod march_texts;
#[cfg(test)]
mod memory_texts;
#[cfg(test)]
mod module_answers;
#[cfg(test)]
mod order_rows;
#[cfg(test)]
mod pauses;
#[cfg(test)]
mod port_commands;
#[cfg(test)]
mod questions;
#[cfg(test)]
mod refusals;
#[cfg(test)]
mod reports;
#[cfg(test)]
mod reserved_rows;
#[cfg(test)]
mod rows;
#[cfg(test)]
mod rule_rows;
#[cfg(test)]
mod self_test_rows;
#[cfg(test)]
mod show_rows;
#[cfg(test)]
mod single_tests;
#[cfg(test)]
mod small_arrays;
#[cfg(test)]
mod summaries;
#[cfg(test)]
mod trees;
#[cfg(test)]
mod vector_rows;
#[cfg(test)]
mod verilog_runs;
#[cfg(test)]
mod verilog_texts;
