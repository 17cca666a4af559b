//! Emitted texts that are read and printed again, and what is wrong first in others.
mod back;
mod cycles;
mod deep;
mod drivers;
mod names;
mod sizes;
mod syntax;
mod texts;
mod worked;
