//! Lists of plain values that hold up to four items without memory of their own.
//!
//! Most lists that agents keep have one or two items: the variables of a table's scope and their
//! sizes, an agent's neighbours, children and separator. A [`ShortList`] holds up to four items in
//! itself and allocates only for more.
#![tactic(auto)]

mod items;
mod list;

pub use list::ShortList;
