//! A device that may be absent.
use crate::device::{Broken, Intake};

/// Without a device nothing is left to give, and no read fails.
impl<I: Intake> Intake for Option<I> {
    ghost use Rattle.mk_device.specs.Device as spec;

    ghost left = { spec.left_if I.left };

    ghost has_failed = { spec.has_failed_if I.has_failed };

    ghost readable = { spec.readable_if I.readable };

    ghost reads_left = { spec.reads_left_if I.reads_left };

    fn read(&mut self, buffer: &mut [u8]) -> Result<usize, Broken> {
        match self {
            Some(device) => device.read(buffer),
            None => Ok(0),
        }
    }
}
