//! Walking over a text.
ghost use Rattle.std.specs.Prelude.{◌≡◌};
ghost use Rattle.scc_svread_check.specs.Walking as walking;

/// A place in a text, and the first wrong size and the first wrong name before it.
#[derive(Clone, Copy)]
pub struct Walk {
    /// How many bytes stand before it.
    pub at: usize,
    pub size: Option<usize>,
    pub name: Option<usize>,
}

/// The start of a text.
pub const START: Walk = Walk {
    at: 0,
    size: None,
    name: None,
};

/// The first of two places.
pub fn first(a: Option<usize>, b: Option<usize>) -> Option<usize>
    ensures { result ≡ walking.◌orelse◌ a b }
{
    match a {
        Some(at) => Some(at),
        None => b,
    }
}

/// A place, if something is wrong there.
pub fn mark(wrong: bool, at: usize) -> Option<usize>
    ensures { result ≡ walking.mark wrong at }
{
    if wrong { Some(at) } else { None }
}

impl Walk {
    /// Goes over so many bytes.
    pub fn pass(self, n: usize) -> Walk
        ensures { result ≡ walking.pass n self }
    {
        Walk {
            at: self.at.saturating_add(n),
            ..self
        }
    }

    /// Notes a size that may be wrong.
    pub fn size_if(self, wrong: bool) -> Walk
        ensures { result ≡ walking.size_if wrong self }
    {
        Walk {
            size: first(self.size, mark(wrong, self.at)),
            ..self
        }
    }

    /// Notes a name that may be wrong.
    pub fn name_if(self, wrong: bool) -> Walk
        ensures { result ≡ walking.name_if wrong self }
    {
        Walk {
            name: first(self.name, mark(wrong, self.at)),
            ..self
        }
    }
}
