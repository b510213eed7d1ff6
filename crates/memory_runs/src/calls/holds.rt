use crate::trials::ReportBuffer;
use std::alloc::Global;

/// What holds things that can be reported part by part.
pub trait Reportable {
    /// Tells all that it holds.
    fn tell(&self, told: &mut ReportBuffer);
}

/// All that it holds, or `None` where there is no memory to tell it.
pub fn told_of<H: Reportable>(alloc: Global, holder: &H) -> Option<ReportBuffer> {
    let mut told = ReportBuffer::new(alloc).ok()?;
    holder.tell(&mut told);
    Some(told)
}

/// Whether it holds what was reported.
pub fn is_as_told<H: Reportable>(alloc: Global, holder: &H, before: &ReportBuffer) -> bool {
    match told_of(alloc, holder) {
        Some(now) => now.is_same(before),
        None => false,
    }
}
