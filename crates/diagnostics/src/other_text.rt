//! Places of another text, from which a tool wrote a program: what a line and column of the program stands for there.

mod fault;
mod parts;
mod place;
mod reading;

pub use fault::PlacesFault;
pub use place::OtherPlace;
pub use reading::{OtherPlaces, read_places};
