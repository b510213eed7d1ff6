//! Traces beside their scripts. As a page of HTML each event opens and closes, its lines are indented by depth and coloured
//! by kind, and a search box finds events; a page needs nothing from a network. As lines for a terminal each event has the
//! line of the script that it comes from.

mod escaped;
mod frame;
mod kinds;
mod laid_out;
mod page;

pub use laid_out::laid_out_trace;
pub use page::trace_page;
