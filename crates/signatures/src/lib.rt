//! From the text of a signature to its normal form. The types that a signature is made of are those of `basic_types`, which
//! this crate passes on.
#![tactic(auto)]

mod fault;
mod reader;
mod scanner;

pub use basic_types::{
    Arguments, ConstPlace, Kind, LONGEST_TEXT, LoopId, MOST_PARAMETERS, Mark, Name, ObjectId,
    ParameterTypes, QType, SharedBytes, Sig, Text, TypeEnding, Value, Word, fits, fits_in_order,
    is_blank, is_digit, is_letter, is_name, is_name_byte, is_text, is_text_byte, types_are_same,
    types_begin_with,
};
pub use fault::SigFault;
pub use reader::{normalise, one_normal_form, texts_are_normal};
