//! Rows of a text and an answer, beside the lines of any rows (`rows.rt`):
//!
//! - `KIND ANSWER: TEXT`: what is asked, the answer, and the text that it is asked of; further lines are ones of the
//!   answer.

use crate::answers::answer_of;
use crate::module_answers::{are_alike, runs_so};
use crate::rows::{RowLine, Text, read_lines};
use std::alloc::Global;

/// What is asked of a text, and the answer.
#[derive(Drop)]
struct Question<'a> {
    kind: &'a str,
    answer: Text,
    text: Text,
}

/// What a row asks.
fn question_of<'a>(alloc: Global, row: &RowLine<'a>) -> Question<'a> {
    let (asked, text) = row.line.split_once(':').unwrap_or((row.line, ""));
    let (kind, answer) = asked.split_once(' ').unwrap_or((asked, ""));
    let mut question = Question {
        kind,
        answer: Text::new(alloc),
        text: Text::new(alloc),
    };
    question.answer.put_meant(alloc, answer);
    question.answer.put_text(&row.more);
    question
        .text
        .put_meant(alloc, text.strip_prefix(' ').unwrap_or(text));
    question
}

/// Whether a text is answered so.
fn is_answer(alloc: Global, kind: &str, text: &[u8], answer: &[u8]) -> Option<bool> {
    match kind {
        "groups" => are_alike(alloc, text, answer),
        "run" => runs_so(alloc, text, answer),
        _ => Some(answer_of(alloc, kind, text)?.as_slice() == answer),
    }
}

fn is_right(alloc: Global, row: &RowLine<'_>) -> Option<bool> {
    let question = question_of(alloc, row);
    is_answer(
        alloc,
        question.kind,
        question.text.bytes()?,
        question.answer.bytes()?,
    )
}

/// The number of the first row that is wrong, where one is; 0 where a line can't be read.
pub(crate) fn first_wrong(alloc: Global, text: &str) -> Option<usize> {
    let Some(rows) = read_lines(alloc, text) else {
        return Some(0);
    };
    for row in &rows {
        if is_right(alloc, row) != Some(true) {
            return Some(row.number);
        }
    }
    None
}
