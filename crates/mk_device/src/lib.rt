//! The devices that texts come from and go to.
//!
//! [`device::Intake`] and [`device::Outlet`] are devices that give and take bytes; [`device::read_all`] and [`device::write_all`]
//! use them up. [`feed::Feed`] and [`sink::Sink`] make them of std's readers and writers, and an `Option` of a device that gives is one
//! too (`optional`). Read `specs/Device.antt` first.
#![tactic(auto)]

pub mod device;
pub mod feed;
pub mod optional;
pub mod sink;
