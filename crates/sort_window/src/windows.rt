//! How many documents a result keeps.
ghost use Rattle.std.specs.Prelude.{◌≤◌};
ghost use Rattle.sort_window.specs.Windows.{IsWindow};

/// The least multiple of `size` that is at least 1 and at least `start + rows`: how many documents a result keeps
/// whose page begins at `start` and has `rows`. It takes no memory.
pub fn window(start: u32, rows: u32, size: u32) -> u64
    requires { 1 ≤ size }
    ensures { IsWindow start rows size result }
{
    let end = u64::from(start) + u64::from(rows);
    let size = u64::from(size);
    end.max(1).div_ceil(size) * size
}
