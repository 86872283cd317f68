// The store of the standing steps.
pub mod keeping;

ghost use Rattle.std.specs.Prelude.{ℕ, ◌<◌, ◌≤◌, slice_index};
ghost use Rattle.arrayvec.specs.ArrayVec.{array_vec_len};

use arrayvec::ArrayVec;

// The temperature of a step, from 20 to 1,200 degrees.
#[derive(Clone, Copy)]
pub(crate) struct Temperature {
    pub(crate) millidegrees: u32,
    ghost least: { 20000 ≤ millidegrees },
    ghost most: { millidegrees ≤ 1200000 },
}

// The temperature of each step in millidegrees, step 0 first, and how many steps stand after it.
// Steps taken back stay in the vector until others are written over them: to make it shorter, it would write over each of them at once.
#[derive(Drop)]
pub struct Column {
    temperatures: ArrayVec<u32, 4097>,
    standing: usize,
    ghost held: { standing < array_vec_len temperatures },
    ghost few: { array_vec_len temperatures ≤ 4097 },
    ghost least: { (k : ℕ) → k < array_vec_len temperatures → 20000 ≤ slice_index temperatures.items k },
    ghost most: { (k : ℕ) → k < array_vec_len temperatures → slice_index temperatures.items k ≤ 1200000 },
}
