//! What signals are asked to show. A signal has two slots: what it shows, and what it was asked to show. The second one leads to
//! the signal that was asked before it, or is null.
use crate::place::{Frame, NOWHERE, NULL, Place};
use crate::store::Store;
use scc_base::NoMemory;

impl Store {
    /// A signal more, which shows 0; its first slot.
    pub fn grow_signal(&mut self) -> Result<u32, NoMemory> {
        self.grow(2)
    }

    /// The port or signal in a slot is asked to show a word; the last request counts.
    #[inline(always)]
    pub(crate) fn write(&mut self, f: Frame, to: Place, x: u128) {
        let at = self.located(f, to, false);
        let root = self.link(at);
        if root >= NOWHERE {
            return;
        }
        let next = root.saturating_add(1);
        if self.link(next) == NULL {
            self.set_link(next, self.asked);
            self.asked = root;
        }
        self.set_word(next, x);
    }

    /// The next request takes effect: the signal, and whether it shows something else now. None where there is no request.
    pub fn take_request(&mut self) -> Option<(u32, bool)> {
        let root = self.asked;
        if root >= NOWHERE {
            return None;
        }
        let next = root.saturating_add(1);
        self.asked = self.link(next);
        self.set_link(next, NULL);
        let x = self.word(next);
        let changes = self.word(root) != x;
        self.set_word(root, x);
        Some((root, changes))
    }
}
