// Runs of bytes, each put at a frontier: what stands before and after the run stays.
ghost use Rattle.std.specs.Prelude.{◌≡◌, ◌+◌, ◌-◌, ◌≤◌, length, replicate};
ghost use Rattle.field.specs.Run.{put_at};

// Kept, the loop: by std's `copy_from_slice` libprobe.a wants `memmove` from outside.
// Puts the bytes of `src` at `at`.
pub fn copy(out: &mut [u8], at: usize, src: &[u8])
    requires { at + length src.now ≤ length out.old }
    ensures { out.new ≡ put_at out.old at src.now }
{
    for j in 0..src.len() {
        out[at + j] = src[j];
    }
}

// Puts zeros from `at` up to `end`.
pub fn clear(out: &mut [u8], at: usize, end: usize)
    requires { (at ≤ end) × (end ≤ length out.old) }
    ensures { out.new ≡ put_at out.old at (replicate (end - at) 0) }
{
    out[at..end].fill(0);
}
