ghost use Rattle.std.specs.Prelude.{◌↔◌, IsTrue, Contains};

// Whether the call of this number is to fail.
pub(crate) fn is_listed(fails: &[u32], number: u64) -> bool
    ensures { IsTrue result ↔ Contains fails.now number }
{
    fails.iter().any(|&n| u64::from(n) == number)
}
