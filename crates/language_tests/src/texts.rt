//! What stands between the bytes of a text and its logical lines.
mod devices;
mod lines;
mod spelling;
