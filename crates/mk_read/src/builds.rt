//! The devices of a build, read to their ends: the makefiles whole, the listing and the footprints in pieces.
ghost use Rattle.std.specs.Prelude.{◌≡◌, ◌≢◌, IfErr, IfOk, List, OnOk, Some, false, true, ℕ};
ghost use Rattle.mk_read.specs.Builds as spec;
ghost use Rattle.mk_read.specs.Builds.{AreReadable, HasBuildStopped, IsFootprinted, IsListingRead, MayStop, none_failed};
ghost use Rattle.mk_read.specs.Read.{GaveAll, IsReadBelow};

use crate::devices::read_below;
use crate::line_reader::LineReader;
use mk_device::device::{Intake, ReadStop, read_all};
use mk_foot::foot_reader::FootReader;
use mk_foot::footprints::Footprints;
use mk_name::fault::Fault;
use mk_text::list_reader::ListReader;
use mk_text::listing::Listing;
use std::alloc::Global;

/// The texts of a build that devices give, in the order in which they are read.
#[derive(Clone, Copy, Debug, PartialEq, Eq)]
pub enum BuildText {
    Base,
    Makefile,
    Listing,
    Footprints,
}

/// Why the devices of a build were not all read to their ends.
#[derive(Clone, Copy, Debug, PartialEq, Eq)]
pub enum BuildStop {
    /// The device of this text failed.
    Broken(BuildText),
    /// Memory ran out.
    Memory,
}

/// What devices say that a build is planned from. What a listing says below a root that is refused counts for nothing.
#[derive(Drop)]
pub struct ReadPlan {
    pub base: Vec<u8>,
    pub makefile: Vec<u8>,
    pub listing: Result<Listing, Fault>,
}

/// What devices say of a build. What footprints say below a root that is refused counts for nothing.
#[derive(Drop)]
pub struct ReadBuild {
    pub plan: ReadPlan,
    pub footprints: Result<Footprints, Fault>,
}

/// Reads the base, the makefile and the listing of a build to their ends, in this order. `BuildStop::Broken` names the first device
/// that fails, and comes exactly where one does; those behind it are not used. The only other error is out of memory.
pub fn plan_below<B: Intake, M: Intake, L: Intake>(
    alloc: Global,
    root: &[u8],
    base: &mut B,
    makefile: &mut M,
    listing: &mut L,
) -> Result<ReadPlan, BuildStop>
    requires base_works { B.has_failed base.old ≡ false }
    requires makefile_works { M.has_failed makefile.old ≡ false }
    requires listing_works { L.has_failed listing.old ≡ false }
    ensures base { IfOk result (λ read. GaveAll (B.left base.old) (B.left base.new) read.base.items) }
    ensures makefile { IfOk result (λ read.
        GaveAll (M.left makefile.old) (M.left makefile.new) read.makefile.items) }
    ensures listing { IfOk result (λ read. (text : List ℕ)
        × GaveAll (L.left listing.old) (L.left listing.new) text × IsListingRead root.now text read.listing) }
    // A device has failed exactly where a stop names it.
    ensures works { OnOk result (none_failed ≡ record none_failed {
      base = B.has_failed base.new;
      makefile = M.has_failed makefile.new;
      listing = L.has_failed listing.new;
    }) }
    ensures stop { IfErr result (λ stop. HasBuildStopped stop (record none_failed {
      base = B.has_failed base.new;
      makefile = M.has_failed makefile.new;
      listing = L.has_failed listing.new;
    })) }
    // They are read in their order: behind the one that fails no other is used.
    ensures base_first { B.has_failed base.new ≡ true → (makefile.new ≡ makefile.old) × (listing.new ≡ listing.old) }
    ensures makefile_next { M.has_failed makefile.new ≡ true → listing.new ≡ listing.old }
    // Where it is stated which can be read, the first that cannot is the one that fails.
    ensures can { OnOk result (AreReadable (record {
      base = B.readable base.old;
      makefile = M.readable makefile.old;
      listing = L.readable listing.old;
      footprints = Some true;
    })) }
    ensures cannot { IfErr result (λ stop. MayStop stop (record {
      base = B.readable base.old;
      makefile = M.readable makefile.old;
      listing = L.readable listing.old;
      footprints = Some true;
    })) }
{
    let base = text_in(alloc, BuildText::Base, base)?;
    let makefile = text_in(alloc, BuildText::Makefile, makefile)?;
    let listing = list_in::<ListReader, L>(alloc, BuildText::Listing, root, listing)?;
    Ok(ReadPlan {
        base,
        makefile,
        listing,
    })
}

/// Reads the devices that [`plan_below`] reads and then the footprints, as it does.
pub fn build_below<B: Intake, M: Intake, L: Intake, F: Intake>(
    alloc: Global,
    root: &[u8],
    base: &mut B,
    makefile: &mut M,
    listing: &mut L,
    footprints: &mut F,
) -> Result<ReadBuild, BuildStop>
    requires base_works { B.has_failed base.old ≡ false }
    requires makefile_works { M.has_failed makefile.old ≡ false }
    requires listing_works { L.has_failed listing.old ≡ false }
    requires footprints_work { F.has_failed footprints.old ≡ false }
    ensures base { IfOk result (λ read. GaveAll (B.left base.old) (B.left base.new) read.plan.base.items) }
    ensures makefile { IfOk result (λ read.
        GaveAll (M.left makefile.old) (M.left makefile.new) read.plan.makefile.items) }
    ensures listing { IfOk result (λ read. (text : List ℕ)
        × GaveAll (L.left listing.old) (L.left listing.new) text × IsListingRead root.now text read.plan.listing) }
    ensures footprints { IfOk result (λ read. (text : List ℕ)
        × GaveAll (F.left footprints.old) (F.left footprints.new) text
        × IsFootprinted root.now text read.footprints) }
    ensures works { OnOk result (none_failed ≡ record {
      base = B.has_failed base.new;
      makefile = M.has_failed makefile.new;
      listing = L.has_failed listing.new;
      footprints = F.has_failed footprints.new;
    }) }
    ensures stop { IfErr result (λ stop. HasBuildStopped stop (record {
      base = B.has_failed base.new;
      makefile = M.has_failed makefile.new;
      listing = L.has_failed listing.new;
      footprints = F.has_failed footprints.new;
    })) }
    ensures base_first { B.has_failed base.new ≡ true → (makefile.new ≡ makefile.old)
        × (listing.new ≡ listing.old) × (footprints.new ≡ footprints.old) }
    ensures makefile_next { M.has_failed makefile.new ≡ true → (listing.new ≡ listing.old)
        × (footprints.new ≡ footprints.old) }
    ensures listing_next { L.has_failed listing.new ≡ true → footprints.new ≡ footprints.old }
    ensures can { OnOk result (AreReadable (record {
      base = B.readable base.old;
      makefile = M.readable makefile.old;
      listing = L.readable listing.old;
      footprints = F.readable footprints.old;
    })) }
    ensures cannot { IfErr result (λ stop. MayStop stop (record {
      base = B.readable base.old;
      makefile = M.readable makefile.old;
      listing = L.readable listing.old;
      footprints = F.readable footprints.old;
    })) }
{
    let plan = plan_below(alloc, root, base, makefile, listing)?;
    let footprints = list_in::<FootReader, F>(alloc, BuildText::Footprints, root, footprints)?;
    Ok(ReadBuild { plan, footprints })
}

/// The text that a device gives, read to its end. `BuildStop::Broken` of this text comes exactly where the device fails; the only
/// other error is out of memory.
fn text_in<I: Intake>(alloc: Global, text: BuildText, device: &mut I) -> Result<Vec<u8>, BuildStop>
    requires { I.has_failed device.old ≡ false }
    ensures text { IfOk result (λ bytes. GaveAll (I.left device.old) (I.left device.new) bytes.items) }
    ensures works { OnOk result (I.has_failed device.new ≡ false) }
    ensures can { OnOk result (I.readable device.old ≢ Some false) }
    ensures stop { IfErr result (λ stop.
        spec.IsStopped text stop (I.has_failed device.new) (I.readable device.old)) }
{
    match read_all(alloc, device) {
        Ok(bytes) => Ok(bytes),
        Err(stop) => Err(stopped(text, stop)),
    }
}

/// What a device says below a root, or its first fault, as [`read_below`] reads it. `BuildStop::Broken` of this text comes exactly
/// where the device fails; the only other error is out of memory.
fn list_in<R: LineReader, I: Intake>(
    alloc: Global,
    text: BuildText,
    root: &[u8],
    device: &mut I,
) -> Result<Result<R::Value, Fault>, BuildStop>
    requires { I.has_failed device.old ≡ false }
    ensures read { IfOk result (λ read. (bytes : List ℕ)
        × GaveAll (I.left device.old) (I.left device.new) bytes × IsReadBelow R.says root.now bytes read) }
    ensures works { OnOk result (I.has_failed device.new ≡ false) }
    ensures can { OnOk result (I.readable device.old ≢ Some false) }
    ensures stop { IfErr result (λ stop.
        spec.IsStopped text stop (I.has_failed device.new) (I.readable device.old)) }
{
    match read_below::<R, I>(alloc, root, device) {
        Ok(read) => Ok(read),
        Err(stop) => Err(stopped(text, stop)),
    }
}

/// Why the device of a text was not read.
fn stopped(text: BuildText, stop: ReadStop) -> BuildStop
    ensures { result ≡ spec.stopped text stop }
{
    match stop {
        ReadStop::Broken => BuildStop::Broken(text),
        ReadStop::Memory => BuildStop::Memory,
    }
}
