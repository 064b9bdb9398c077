// Room made in an array for one entry more, and closed up after one that is gone.
ghost use Rattle.std.specs.Prelude.{◌≡◌, ◌≤◌, ◌<◌, length};
ghost use Rattle.places.specs.Places.{opened, closed};

// Makes room at i among the first `count` elements and puts `value` there.
pub fn open<T: Copy>(array: &mut [T], count: usize, i: usize, value: T)
    requires { (i ≤ count) × (count < length array.old) }
    ensures { array.new ≡ opened array.old count i value }
{
    array.copy_within(i..count, i + 1);
    array[i] = value;
}

// Closes up over element i of the first `count`.
pub fn close<T: Copy>(array: &mut [T], count: usize, i: usize)
    requires { (i < count) × (count ≤ length array.old) }
    ensures { array.new ≡ closed array.old count i }
{
    array.copy_within(i + 1..count, i);
}
