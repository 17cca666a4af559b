//! Texts that are printed and read as they are written, and orders of blocks.
mod order;
mod printed;
mod raw;
