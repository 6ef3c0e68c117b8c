//! Devices: what bytes are read from, and what they are written to.
ghost use Rattle.std.specs.Prelude.{◌≡◌, ◌≢◌, ◌<◌, ◌≤◌, ◌↔◌, ℕ, Bool, true, false, is_err, List, Option, Some, length, take, IfOk, OnOk, OnErr, IfSome, IsErrOf};
ghost use Rattle.std.specs.Io.KnownBytes.{Appends, Consumes, IsAtEnd};
ghost use Rattle.mk_device.specs.Device.{AppendsBeginning};

use std::alloc::{AllocError, Global};

/// A device failed: it could not be opened, or a read or a write of it was refused.
#[derive(Clone, Copy, Debug, PartialEq, Eq)]
pub struct Broken;

/// A device that gives bytes.
pub trait Intake {
    /// The bytes that reads give from here on, where the contract states them.
    ghost left: { Self → Option (List ℕ) };

    /// A read was refused. A device that has failed is not read again.
    ghost has_failed: { Self → Bool };

    /// Whether reads come to the end of the device, and none before is refused, where the contract states it.
    ghost readable: { Self → Option Bool };

    /// At most so many reads give something from here on.
    ghost reads_left: { Self → ℕ };

    /// Reads into the front of the buffer, and answers how many bytes came. Where the buffer is not empty, 0 says that
    /// the device is at its end. `Broken` says that the device has failed; nothing is said of its bytes then.
    fn read(&mut self, buffer: &mut [u8]) -> Result<usize, Broken>
        requires { has_failed self.old ≡ false }
        ensures bound { IfOk result (λ n. n ≤ length buffer.new) }
        ensures bytes { IfOk result (λ n. Consumes (left self.old) (left self.new) (take n buffer.new)) }
        ensures end { IfOk result (λ n. n ≡ 0 → 0 < length buffer.new → IsAtEnd (left self.new)) }
        ensures fewer { IfOk result (λ n. 0 < n → reads_left self.new < reads_left self.old) }
        ensures can { IfOk result (λ n. n ≡ 0 → 0 < length buffer.new → readable self.old ≢ Some false) }
        ensures cannot { OnErr result (readable self.old ≢ Some true) }
        ensures same { OnOk result (readable self.new ≡ readable self.old) }
        ensures failed { has_failed self.new ≡ is_err result };
}

/// A device that takes bytes.
pub trait Outlet {
    /// The bytes that were written, where the contract states them.
    ghost written: { Self → Option (List ℕ) };

    /// A write was refused. A device that has failed is not written to again.
    ghost has_failed: { Self → Bool };

    /// Writes a beginning of the bytes, and answers how many it took: one or more, where there are any. `Broken` says
    /// that the device has failed; a beginning of the bytes, or none, was written then.
    fn write(&mut self, bytes: &[u8]) -> Result<usize, Broken>
        requires { has_failed self.old ≡ false }
        ensures bound { IfOk result (λ n. n ≤ length bytes.now) }
        ensures some { IfOk result (λ n. 0 < length bytes.now → 0 < n) }
        ensures grows { IfOk result (λ n. Appends (written self.old) (written self.new) (take n bytes.now)) }
        ensures beginning { OnErr result (AppendsBeginning (written self.old) (written self.new) bytes.now) }
        ensures failed { has_failed self.new ≡ is_err result };
}

/// Why a device was not read to its end.
#[derive(Clone, Copy, Debug, PartialEq, Eq)]
pub enum ReadStop {
    /// Memory ran out.
    Memory,
    /// The device failed.
    Broken,
}

impl From<AllocError> for ReadStop {
    ghost use Rattle.mk_device.specs.declared.device.ReadStop.TheVariants as stops;

    ghost from_gives = { λ _ stop. stop ≡ stops.Memory };

    fn from(_error: AllocError) -> ReadStop {
        ReadStop::Memory
    }
}

impl From<Broken> for ReadStop {
    ghost use Rattle.mk_device.specs.declared.device.ReadStop.TheVariants as stops;

    ghost from_gives = { λ _ stop. stop ≡ stops.Broken };

    fn from(_broken: Broken) -> ReadStop {
        ReadStop::Broken
    }
}

/// Reads a device to its end, and gives all the bytes that were left. `ReadStop::Broken` comes exactly where the device
/// fails; the only other error is out of memory.
pub fn read_all<I: Intake>(alloc: Global, device: &mut I) -> Result<Vec<u8>, ReadStop>
    requires { I.has_failed device.old ≡ false }
    ensures bytes { IfOk result (λ all. IfSome (I.left device.old) (λ bytes. all.items ≡ bytes)) }
    ensures consumed { IfOk result (λ all. Consumes (I.left device.old) (I.left device.new) all.items) }
    ensures end { OnOk result (IsAtEnd (I.left device.new)) }
    ensures can { OnOk result (I.readable device.old ≢ Some false) }
    ensures cannot { IsErrOf result ReadStop.Broken → I.readable device.old ≢ Some true }
    ensures broken { IsErrOf result ReadStop.Broken ↔ (I.has_failed device.new ≡ true) }
{
    let mut all = Vec::new(alloc);
    let mut buffer = [0u8; 65536];
    'reads: loop {
        let n = device.read(&mut buffer)?;
        if n == 0 {
            return Ok(all);
        }
        all.extend_from_slice(&buffer[..n])?;
    }
}

/// Writes all the bytes. `Broken` comes exactly where the device fails; a beginning of the bytes was written then.
pub fn write_all<O: Outlet>(device: &mut O, bytes: &[u8]) -> Result<(), Broken>
    requires { O.has_failed device.old ≡ false }
    ensures all { OnOk result (Appends (O.written device.old) (O.written device.new) bytes.now) }
    ensures beginning { OnErr result (AppendsBeginning (O.written device.old) (O.written device.new) bytes.now) }
    ensures failed { O.has_failed device.new ≡ is_err result }
{
    let mut taken = 0;
    'writes: while taken < bytes.len() {
        taken += device.write(&bytes[taken..])?;
    }
    Ok(())
}
