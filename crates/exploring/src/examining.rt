ghost use Rattle.std.specs.Prelude.{◌≡◌, ◌+◌, ◌<◌, ◌≤◌, false, ◌++◌, length, drop};
ghost use Rattle.squeezing.specs.Table.{Holds, offset};
ghost use Rattle.exploring.specs.Waiting.{left_of, Ready, Examined};

use crate::opening::first_open;
use crate::work::Work;
use measure::Measure;
use squeezing::spaces::squeezed;

// Writes the places in front of the page.
fn write(places: &[u16], page: &mut [u16])
    requires { length places.now ≤ length page.old }
    ensures { page.new ≡ places.now ++ drop (length places.now) page.old }
{
    page[..places.len()].copy_from_slice(places);
}

// Examines the next space. True: it holds one set, which is written in front of the page.
// Kept: a bool, since handing out the set's space as an Option copies it, and a step then takes about a tenth more time.
pub(crate) fn examine<M: Measure>(table: &[M], work: &mut Work<M>, page: &mut [u16]) -> bool
    requires sized { offset work.old.frontier.root.n work.old.frontier.root.m ≤ length table.now }
    requires ready { Ready work.old.frontier }
    requires room { work.old.frontier.root.m ≤ length page.old }
    ensures root { work.new.frontier.root ≡ work.old.frontier.root }
    ensures band { work.new.band ≡ work.old.band }
    ensures still { result ≡ false → page.new ≡ page.old }
    ensures beyond { drop work.old.frontier.root.m page.new ≡ drop work.old.frontier.root.m page.old }
    ensures is { Holds M.algebra M.Measure.row M.span work.old.frontier.root.n work.old.frontier.root.m table.now → Examined result page.old page.new (left_of M.algebra M.Measure.row table.now work.old) (left_of M.algebra M.Measure.row table.now work.new) }
{
    let space = work.frontier.take();
    let Some(left) = squeezed(space, table, &mut work.room, work.band) else {
        return false;
    };
    let Some(i) = first_open(&left) else {
        write(&left.lo[..left.m], page);
        return true;
    };
    work.frontier.push(left, i);
    false
}
