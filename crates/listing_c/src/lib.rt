// The listing for C programs: a static library with the one call that `include/debits.h` declares.
#![tactic(auto)]

ghost use Rattle.std.specs.Prelude.{◌^◌, ◌<◌, length};
ghost use Rattle.listing.specs.Text.{Told};
ghost use Rattle.listing.specs.Listing.{TellsFile};

// Writes the listing of a file to the front of the output, and tells its length; -15 where it does not fit, and then the
// whole output is zero.
#[unsafe(no_mangle)]
pub extern "C" fn debits_list(file: &[u8], out: &mut [u8]) -> i64
    ensures output { length out.old < 2 ^ 63 → Told out.old result out.new }
    ensures lines { length out.old < 2 ^ 63 → TellsFile file.now out.old result out.new }
{
    listing::c::debits_list(file, out)
}
