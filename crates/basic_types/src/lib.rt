//! Names, values, types and signatures: the plain data that every layer speaks of.
#![tactic(auto)]

mod arguments;
mod blank;
mod kind;
mod loop_id;
mod mark;
mod name;
mod normal;
mod object_id;
mod parameter_types;
mod qtype;
mod shared;
mod shared_bytes;
mod short_bytes;
mod sig;
mod text;
mod value;
mod value_name;
mod word;

pub use arguments::Arguments;
pub use blank::is_blank;
pub use kind::Kind;
pub use loop_id::LoopId;
pub use mark::Mark;
pub use name::{Name, is_digit, is_letter, is_name, is_name_byte};
pub use normal::{ConstPlace, TypeEnding};
pub use object_id::ObjectId;
pub use parameter_types::{MOST_PARAMETERS, ParameterTypes};
pub use qtype::{QType, types_are_same, types_begin_with};
pub use shared::{Shared, copy_all};
pub use shared_bytes::SharedBytes;
pub use sig::{Sig, fits, fits_in_order};
pub use text::{LONGEST_TEXT, Text, is_text, is_text_byte};
pub use value::Value;
pub use value_name::{BOOL, INT, QSTRING, is_value_name};
pub use word::Word;
