// Runs of numbers, as exports are lent them.
ghost use Rattle.std.specs.Prelude.{◌≡◌, get_or};

// The number at a place, 0 where there is none.
pub fn number_at(numbers: &[u32], i: usize) -> u32
    ensures { result ≡ get_or numbers.now i 0 }
{
    numbers.get(i).copied().unwrap_or(0)
}
