//! Devices that are read to their ends, piece by piece.
ghost use Rattle.std.specs.Prelude.{◌≡◌, ◌≢◌, ◌++◌, ◌↔◌, IfOk, IsErrOf, List, OnErr, OnOk, Some, false, is_err, true, ℕ};
ghost use Rattle.mk_read.specs.Read.{GaveAll, IsReadBelow};

use crate::line_reader::{LineReader, finished};
use mk_device::device::{Broken, Intake, ReadStop};
use mk_name::fault::{Fault, Halt};
use mk_text::root::Root;
use std::alloc::Global;

/// Reads a device to its end, and gives what its bytes say below a root, or their first fault. Where the root is refused it gives
/// that fault. `ReadStop::Broken` comes exactly where the device fails; the only other error is out of memory.
pub fn read_below<R: LineReader, I: Intake>(
    alloc: Global,
    root: &[u8],
    device: &mut I,
) -> Result<Result<R::Value, Fault>, ReadStop>
    requires { I.has_failed device.old ≡ false }
    ensures read { IfOk result (λ read. (text : List ℕ)
        × GaveAll (I.left device.old) (I.left device.new) text × IsReadBelow R.says root.now text read) }
    ensures can { OnOk result (I.readable device.old ≢ Some false) }
    ensures cannot { IsErrOf result ReadStop.Broken → I.readable device.old ≢ Some true }
    ensures broken { IsErrOf result ReadStop.Broken ↔ (I.has_failed device.new ≡ true) }
{
    match Root::read(alloc, root) {
        Ok(root) => read_under::<R, I>(alloc, root, device),
        Err(Halt::Fault(fault)) => {
            read_past(device)?;
            Ok(Err(fault))
        }
        Err(Halt::Memory) => Err(ReadStop::Memory),
    }
}

/// What the bytes of a device say below a root that is good, or their first fault.
fn read_under<R: LineReader, I: Intake>(
    alloc: Global,
    root: Root,
    device: &mut I,
) -> Result<Result<R::Value, Fault>, ReadStop>
    requires { I.has_failed device.old ≡ false }
    ensures read { IfOk result (λ read. (text : List ℕ)
        × GaveAll (I.left device.old) (I.left device.new) text × R.says root text read) }
    ensures can { OnOk result (I.readable device.old ≢ Some false) }
    ensures cannot { IsErrOf result ReadStop.Broken → I.readable device.old ≢ Some true }
    ensures broken { IsErrOf result ReadStop.Broken ↔ (I.has_failed device.new ≡ true) }
{
    let mut reader = R::begin(alloc, root);
    feed_all(&mut reader, device)?;
    let read = finished(reader)?;
    Ok(read)
}

/// Reads a device to its end, and feeds the reader all the bytes, in pieces of at most 65,536. `Broken` comes exactly where the
/// device fails.
pub fn feed_all<R: LineReader, I: Intake>(reader: &mut R, device: &mut I) -> Result<(), Broken>
    requires { I.has_failed device.old ≡ false }
    ensures fed { OnOk result ((bytes : List ℕ) × GaveAll (I.left device.old) (I.left device.new) bytes
        × ((root text : List ℕ) → R.has_read reader.old root text → R.has_read reader.new root (text ++ bytes))) }
    ensures can { OnOk result (I.readable device.old ≢ Some false) }
    ensures cannot { OnErr result (I.readable device.old ≢ Some true) }
    ensures failed { I.has_failed device.new ≡ is_err result }
{
    let mut piece = [0u8; 65_536];
    'reads: loop {
        let n = device.read(&mut piece)?;
        if n == 0 {
            return Ok(());
        }
        reader.take(&piece[..n]);
    }
}

/// Reads a device to its end. `Broken` comes exactly where the device fails.
pub fn read_past<I: Intake>(device: &mut I) -> Result<(), Broken>
    requires { I.has_failed device.old ≡ false }
    ensures read { OnOk result ((bytes : List ℕ) × GaveAll (I.left device.old) (I.left device.new) bytes) }
    ensures can { OnOk result (I.readable device.old ≢ Some false) }
    ensures cannot { OnErr result (I.readable device.old ≢ Some true) }
    ensures failed { I.has_failed device.new ≡ is_err result }
{
    let mut piece = [0u8; 65_536];
    'reads: loop {
        let n = device.read(&mut piece)?;
        if n == 0 {
            return Ok(());
        }
    }
}
