// The free part of a buffer, behind the entries: it is lent from its middle on, to take the next entry at
// its front or to be cleared.
ghost use Rattle.std.specs.Prelude.{◌≡◌, length, set, replicate};

// Puts a value at the front. Where there is no place, nothing is put.
pub fn put<T: Copy>(free: &mut [T], value: T)
    ensures { free.new ≡ set free.old 0 value }
{
    if !free.is_empty() {
        free[0] = value;
    }
}

// Fills it with the value of a place that is free. It is no `fill`, which clones, and of a type parameter
// it isn't known that a clone can't fail.
pub fn clear<T: Copy>(free: &mut [T], zero: T)
    ensures { free.new ≡ replicate (length free.old) zero }
{
    for place in free.iter_mut() {
        *place = zero;
    }
}
