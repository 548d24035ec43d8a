//! Laws of the limits of a superstep. Each function does nothing; its contract is the law.

ghost use Rattle.std.specs.Prelude.{◌≡◌, ◌≤◌, ◌^◌, Bool, false};
ghost use Rattle.bsp_requests.specs.Requests.{max_requests, max_bytes};

/// A machine that is not large has 65,536 requests and 2^24 bytes for a node in a superstep, and no machine has more than 2^24 and 2^30.
pub fn a_superstep_has_these_limits()
    ensures standard_requests { max_requests false ≡ 65536 }
    ensures standard_bytes { max_bytes false ≡ 2 ^ 24 }
    ensures requests { (large : Bool) → max_requests large ≤ 2 ^ 24 }
    ensures bytes { (large : Bool) → max_bytes large ≤ 2 ^ 30 }
{}
