// The grey values within a tolerance of a threshold, as an interval of bytes: outside it the exclusion bit is 1.

ghost use Rattle.std.specs.Prelude.{◌≡◌, ◌+◌, ◌-◌, min};

// The least of them.
pub fn low_end(threshold: u8, tolerance: u32) -> u8
    ensures { result ≡ threshold - tolerance }
{
    (threshold as u32).saturating_sub(tolerance) as u8
}

// The greatest of them.
pub fn high_end(threshold: u8, tolerance: u32) -> u8
    ensures { result ≡ min 255 (threshold + tolerance) }
{
    (threshold as u32).saturating_add(tolerance).min(255) as u8
}
