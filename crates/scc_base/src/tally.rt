ghost use Rattle.std.specs.Prelude.{◌≡◌, ◌<◌, ◌≤◌, ◌+◌, ◌*◌, min, IsTrue, ◌↔◌};

/// A count up to a limit. One that passes its limit stands still there, at the limit plus 1.
#[derive(Clone, Copy, PartialEq, Eq)]
pub struct Tally {
    count: u64,
    limit: u32,
    ghost within: { count ≤ limit + 1 },
}

impl Tally {
    /// 0 of at most `limit`.
    pub fn new(limit: u32) -> Tally
        ensures count { result.count ≡ 0 }
        ensures limit { result.limit ≡ limit }
    {
        Tally { count: 0, limit }
    }

    /// The count with `n` more.
    pub fn plus(self, n: u64) -> Tally
        ensures count { result.count ≡ min (self.count + n) (self.limit + 1) }
        ensures limit { result.limit ≡ self.limit }
    {
        let most = u64::from(self.limit) + 1;
        let count = self.count.saturating_add(n).min(most);
        Tally {
            count,
            limit: self.limit,
        }
    }

    /// The count, at most the limit plus 1.
    pub fn count(self) -> u64
        ensures { result ≡ self.count }
    {
        self.count
    }

    /// Whether the count passed its limit.
    pub fn is_over(self) -> bool
        ensures { IsTrue result ↔ (self.limit < self.count) }
    {
        u64::from(self.limit) < self.count
    }
}
