//! Texts of modules that come back, and what is refused first in others.
mod back;
mod large;
mod refusals;
mod texts;
