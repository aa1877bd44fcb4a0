// Archives of the versions before the latest made archives of the latest, and these made older ones.
#![tactic(auto)]

ghost use Rattle.region_archive.specs.Promise.{written_answer};
ghost use Rattle.region_convert.specs.Conversion.{Forwards, Backs};
ghost use Rattle.region_convert.specs.Between.{AsksVersion};

use region_archive::{LATEST, OLDEST, opens, read_over, write, write_older};
use region_graph::Graph;
use region_graph::refusals::Refusal;

// Whether bytes have the front of an archive, of a version from an oldest to a latest.
fn ask_version(bytes: &[u8], oldest: usize, latest: usize) -> Result<(), Refusal>
    ensures { AsksVersion oldest latest bytes.now result }
{
    if opens(bytes, oldest, latest) {
        Ok(())
    } else {
        Err(Refusal::NotAnArchive)
    }
}

// The latest image of the graph that an older archive means, at the buffer's start.
pub fn forward(bytes: &[u8], out: &mut [u8]) -> Result<usize, Refusal>
    ensures { Forwards bytes.now out.old (written_answer result) out.new }
{
    ask_version(bytes, OLDEST, LATEST - 1)?;
    let mut graph = Graph::empty();
    read_over(&mut graph, bytes)?;
    write(&graph, out)
}

// The older image of the graph that an archive of the latest version means, at the buffer's start: the same with other versions and another
// writer, which a function of both would have to be told.
pub fn back(bytes: &[u8], out: &mut [u8]) -> Result<usize, Refusal>
    ensures { Backs bytes.now out.old (written_answer result) out.new }
{
    ask_version(bytes, LATEST, LATEST)?;
    let mut graph = Graph::empty();
    read_over(&mut graph, bytes)?;
    write_older(&graph, out)
}
