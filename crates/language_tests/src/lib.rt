//! Tests of the libraries that read the language of makefiles, by their public calls. They stand in a crate of their own, so
//! that no library is proved a second time for its tests.
#![tactic(auto)]

#[cfg(test)]
mod macros;
#[cfg(test)]
mod made;
#[cfg(test)]
mod names;
#[cfg(test)]
mod rules;
#[cfg(test)]
mod texts;
