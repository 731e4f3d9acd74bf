//! Laws of memories whose fault no box has planted: a linked fault at bits of different words, a dynamic primitive, or a fault of the address decoder.
//! Each answers some read wrong, of a march that detects it. It never runs.
#![tactic(auto)]

mod laws;

pub use laws::{
    decoder_answers_wrong, dynamic_answers_wrong, each_memory_answers_wrong, linked_answers_wrong,
    memories_are_there, memories_do_as_known,
};
