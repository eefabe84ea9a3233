//! The state that an operator's lock guards: its book, the frames that are not yet collected, and whether its turns have
//! stopped. All that a caller under the lock can do is a call here.

mod acting;
mod cell_fault;
mod collecting;
mod giving;
mod held;
mod judging;
mod refusing;
mod taking;
mod told;
mod turning;

pub use cell_fault::CellFault;
pub use giving::reslice;
pub use held::Held;
pub use told::Told;
