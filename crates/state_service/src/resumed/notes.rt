//! Notes of changes that are refused.

use crate::resumed::new_frame_fault::NewFrameFault;
use crate::resumed::new_plant_fault::NewPlantFault;
use plant::Plant;
use plant_core::LiveCore;
use std::alloc::Global;

/// Takes notes of changes of the plant that are refused.
pub trait RefusalNotes {
    /// Notes that the plant is not changed to that of the plant file after the line `P` of this number, and why. If the file is
    /// too long, or if memory ran out, `file` is the beginning of it. The core in service is given, which is not changed, since
    /// `why` may be one of several reasons.
    fn note_refused(
        &mut self,
        alloc: Global,
        core: &LiveCore,
        number: u64,
        file: &[u8],
        why: &NewPlantFault,
    );

    /// Notes that the next frame of this plant does not get the number of the line `N` of this line number, and why.
    fn note_frame_refused(
        &mut self,
        alloc: Global,
        number: u64,
        plant: &Plant,
        why: &NewFrameFault,
    );
}
