//! The numbers that a caller gives: how many workers, and how long a slice.

ghost use Rattle.std.specs.Prelude.{◌≡◌};
ghost use Rattle.std.specs.Result.{result_err};
ghost use Rattle.worker_pool.specs.Numbers.{numbers_fault};

use crate::error::PoolError;

/// Whether the numbers are within their ranges, which are own rules: 1 to 64 workers, and 1 to 1,048,576 steps in a slice.
///
/// # Errors
/// [`PoolError::BadWorkers`], else [`PoolError::BadSlice`].
pub fn check_numbers(workers: u32, slice: u64) -> Result<(), PoolError>
    ensures { result_err result ≡ numbers_fault workers slice }
{
    if !(1..=64).contains(&workers) {
        return Err(PoolError::BadWorkers);
    }
    if !(1..=1 << 20).contains(&slice) {
        return Err(PoolError::BadSlice);
    }
    Ok(())
}
