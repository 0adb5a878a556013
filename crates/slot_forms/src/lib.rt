//! What the clauses of `SlotForm` give: an image is set over any form from them alone, and a form
//! with another region meets them. It is no part of the product.
#![tactic(auto)]

mod any_form;
mod tailed;

pub use any_form::set_in;
pub use tailed::{TAIL, Tailed};
