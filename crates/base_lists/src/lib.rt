// Copying to the front of a slice.
#![tactic(auto)]

ghost use Rattle.std.specs.Prelude.{◌≡◌, ◌++◌, ◌≤◌, length, take, drop};

// Copies the first n elements of src to the front of dst, and leaves the rest of dst as it is. The count stands beside src, which may be
// longer: callers copy as much of it as a plan counts, or as there is room for. By number, which compiles to memcpy: `copy_from_slice` needs
// memmove, and callers in C may have none.
pub fn copy_front<T: Copy>(src: &[T], n: usize, dst: &mut [T])
    requires { (n ≤ length src.now) × (n ≤ length dst.old) }
    ensures { dst.new ≡ take n src.now ++ drop n dst.old }
{
    for i in 0..n {
        dst[i] = src[i];
    }
}
