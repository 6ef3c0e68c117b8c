//! Makefiles and entries: what a book says of them, and what is left of the macros.
mod book;
mod left;
mod paths;
