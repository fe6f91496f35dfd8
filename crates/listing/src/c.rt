// The listing told as a number, which the static library `listing_c` offers to C.
ghost use Rattle.std.specs.Prelude.{◌^◌, ◌<◌, length};
ghost use Rattle.listing.specs.Text.{Told};
ghost use Rattle.listing.specs.Listing.{TellsFile};

use crate::listing::list;

// Writes the listing of a file to the front of the output, and tells its length; -15 where it does not fit, and then the
// whole output is zero.
pub fn debits_list(file: &[u8], out: &mut [u8]) -> i64
    ensures output { length out.old < 2 ^ 63 → Told out.old result out.new }
    ensures lines { length out.old < 2 ^ 63 → TellsFile file.now out.old result out.new }
{
    match list(file, out) {
        Ok(n) => i64::try_from(n).unwrap_or(i64::MAX),
        Err(refusal) => -i64::from(refusal.number()),
    }
}
