//! How many statements there are and how deep they stand in one another, up to limits.
ghost use Rattle.std.specs.Prelude.{◌≡◌};
ghost use Rattle.scc_inline_size_laws.specs.Counts.{level, passes};
ghost use Rattle.scc_inline_facts.specs.Extents.{Grows, IsReached, nothing, reaching};

/// The most statements of a process with its calls copied.
pub const STATEMENTS: u64 = 65_536;
/// How deep they may stand in one another.
pub const DEPTH: u32 = 1_024;

/// How many statements there are at every depth, and how deep they stand in one another, 0 where there is none. Both
/// stand still past their limits.
#[derive(Clone, Copy)]
pub struct Extent {
    pub size: u64,
    pub height: u32,
}

impl Extent {
    /// No statement.
    pub fn none() -> Extent
        ensures { result ≡ nothing }
    {
        Extent { size: 0, height: 0 }
    }

    /// With so many statements more at a depth, counted from 0.
    pub fn plus(self, n: u64, depth: u32) -> Extent
        ensures { Grows self result n (reaching depth (level n)) }
    {
        let height = if n == 0 { 0 } else { 1 };
        self.with(Extent { size: n, height }, depth)
    }

    /// With others that stand at a depth.
    pub fn with(self, inner: Extent, depth: u32) -> Extent
        ensures { Grows self result inner.size (reaching depth inner.height) }
    {
        Extent {
            size: self.size.saturating_add(inner.size).min(STATEMENTS + 1),
            height: self.height.max(reached(inner.height, depth)).min(DEPTH + 1),
        }
    }

    /// Whether a body with its calls copied, in its one block, passes a limit.
    pub fn is_too_large(self) -> bool
        ensures { result ≡ passes self.size self.height }
    {
        self.size >= STATEMENTS || self.height >= DEPTH
    }
}

// How deep statements of that height at a depth reach.
fn reached(height: u32, depth: u32) -> u32
    ensures { IsReached depth height result }
{
    if height == 0 {
        0
    } else {
        height.saturating_add(depth)
    }
}
