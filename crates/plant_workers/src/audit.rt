//! The assembly that threads share, and the comparison of a finished run with its steps.

mod advancing;
mod assembly;
mod comparing;
mod counting;
mod due;
mod following;
mod laws;
mod placing;
mod putting;

pub use assembly::Assembly;
pub use comparing::compare;
pub use counting::are_ticked;
pub use following::{stray_at, waiting_operator};
pub use laws::placings_make_the_maps;
pub use placing::Placing;
