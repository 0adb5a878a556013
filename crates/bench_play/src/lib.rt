//! A play over a bench: the events of a script, what each answers, and what the bench is after
//! them, image by image, whether the play came to its end or was cut off.
#![tactic(auto)]

mod booting;
mod deliveries;
mod known;
mod laws;
mod outside;
mod playing;
mod requests;
mod to_be_built;

use cu_base::Items;
pub use laws::a_laid_out_bench_is_fresh;
pub use playing::play;
pub use reference_machine::{Answer, BootEnd, Entry, Event};

/// The entries of a play, one for each event, in order.
pub type Trace = Items<Entry>;
