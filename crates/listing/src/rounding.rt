//! Costs as whole seconds.
ghost use Rattle.std.specs.Prelude.{◌≡◌, ◌+◌, ◌/◌};

/// Tenths of a second as whole seconds, half a second rounded up.
pub fn seconds(tenths: u32) -> u32
    ensures { result ≡ (tenths + 5) / 10 }
{
    tenths / 10 + tenths % 10 / 5
}
