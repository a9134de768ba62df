// Request numbers: document 01, "Ring sums", last line.
ghost use Rattle.std.specs.Prelude.{◌≡◌};
ghost use Rattle.ring.specs.RingSums.{next_number};

// The number after `id`. No request has the number 0, so the count goes from the largest to 1.
pub fn next_request_id(id: u64) -> u64
    ensures { result ≡ next_number id }
{
    id.wrapping_add(1).max(1)
}
