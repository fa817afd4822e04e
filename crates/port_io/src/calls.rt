ghost use Rattle.std.specs.Prelude.{◌≡◌, ◌==◌};
ghost use Rattle.std.specs.List.{list_any};
ghost use Rattle.port_io.specs.Calls.{FollowsPlan, plan_of, planned};
ghost use Rattle.port_io.specs.Faults.{Rose};

/// Which calls of an object in memory fail: a list of numbers, where the first call has the number 1.
#[derive(Drop)]
pub(crate) struct Calls {
    failing: Vec<u64>,
    made: u64,
}

impl Calls {
    pub(crate) fn new(failing: Vec<u64>) -> Calls
        ensures { plan_of result ≡ planned failing.items }
    {
        Calls { failing, made: 0 }
    }

    /// Whether the next call fails, which has then been made.
    pub(crate) fn next_fails(&mut self) -> bool
        ensures { FollowsPlan (plan_of self.old) (plan_of self.new) result }
    {
        self.made = self.made.saturating_add(1);
        is_listed(&self.failing, self.made)
    }
}

fn is_listed(failing: &[u64], number: u64) -> bool
    ensures { result ≡ list_any (λ n. n == number) failing.now }
{
    failing.iter().any(|other| *other == number)
}

/// The count after one more fault. It stands still at its last value.
pub(crate) fn raise(count: u64) -> u64
    ensures { Rose count result }
{
    count.saturating_add(1)
}
