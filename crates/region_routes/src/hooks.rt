// The hooks but resolve. A find writes the candidates that its bundle sees, an event the listeners that see its item: order and repetitions
// kept.
ghost use Rattle.std.specs.Prelude.{◌≡◌, Bool, false, eqb, ℕ, ◌<◌, ◌≤◌, ◌^◌, length};
ghost use Rattle.region_graph.specs.Size.{regions};
ghost use Rattle.region_graph.specs.Lists.{keep};
ghost use Rattle.region_graph.specs.Model.{Model};
ghost use Rattle.region_graph.specs.Record.{Valid, meaning};
ghost use Rattle.region_routes.specs.Chosen.{sees};
ghost use Rattle.region_routes.specs.Hooks.{kind_number, item, Kept, kept, kept_answer, kept_outcome, find_outcome, event_outcome, is_installed};
ghost use Rattle.region_routes.specs.Tables.{NumberTables, «place_at», «all_placed», stands_in};

use crate::Kind;
use crate::search::{KindTables, regions_seeing};
use crate::tables::{Chains, EVERYTHING_NUMBER, FEW, Table};
use region_graph::Graph;
use region_graph::refusals::Refusal;
use region_graph::region_set::has;
use region_graph::size::REGIONS;

// Writes the candidates that pass a test, and gives their count.
fn keep_where<F: Fn(u32) -> bool>(candidates: &[u32], out: &mut [u32], keeps: F) -> usize
    requires callable { F.IsAlwaysCallable keeps }
    requires candidates_in_bounds { length candidates.now ≤ length out.old }
    ensures { (p : ℕ → Bool) → ((n : ℕ) (answer : Bool) → n < 2 ^ 32 → F.post keeps n answer → answer ≡ p n) → kept (Kept.Wrote result) out.new ≡ kept_outcome (keep p candidates.now) out.old }
{
    let mut count: usize = 0;
    for candidate in candidates {
        if keeps(*candidate) {
            out[count] = *candidate;
            count += 1;
        }
    }
    count
}

// Writes the candidates of a kind by number that a region sees: makes the tables of the kind, with their chains.
fn keep_many(graph: &Graph, kind: Kind, region: u32, candidates: &[u32], out: &mut [u32]) -> usize
    requires valid { Valid graph.now × (eqb (kind_number kind) (kind_number Kind.Package) ≡ false) }
    requires region_lt_regions { (region < regions) × (length candidates.now ≤ length out.old) }
    ensures { kept (Kept.Wrote result) out.new ≡ kept_outcome (keep (λ n. sees (meaning graph.now) (item (kind_number kind) n 0) region) candidates.now) out.old }
{
    let mut offered = Table::new();
    offered.put_offers(graph, kind);
    let offered = Chains::of(offered.entries());
    let mut passing = Table::new();
    passing.put_passages(graph, kind);
    let passing = Chains::of(passing.entries());
    let always = passing.predecessors(EVERYTHING_NUMBER, [0; REGIONS]);
    let tables = KindTables {
        offered,
        passing,
        always,
    };
    keep_where(
        candidates,
        out,
        |number|
            requires { region < regions }
            ensures { (m : Model) (kind : ℕ) → NumberTables m kind tables.entry.offered.table.now tables.entry.passing.table.now → result ≡ sees m (item kind number 0) region }
        {
            let seeing = tables.regions_seeing(number);
            seeing != 0 && has(seeing, region)
        },
    )
}

// Writes the candidates of a kind that a region sees: asks the graph about each, and makes no tables.
fn keep_few(graph: &Graph, kind: Kind, region: u32, candidates: &[u32], out: &mut [u32]) -> usize
    requires valid { Valid graph.now }
    requires region_lt_regions { (region < regions) × (length candidates.now ≤ length out.old) }
    ensures { kept (Kept.Wrote result) out.new ≡ kept_outcome (keep (λ n. sees (meaning graph.now) (item (kind_number kind) n 0) region) candidates.now) out.old }
{
    keep_where(
        candidates,
        out,
        |number|
            requires { Valid graph.now × (region < regions) }
            ensures { result ≡ sees (meaning graph.entry.now) (item (kind_number kind) number 0) region }
        { has(regions_seeing(graph, kind.item(number)), region) },
    )
}

// The items of a kind by number among the candidates that a bundle sees.
#[tactic(auto, using(crate::proofs::Judging::region_inside, crate::proofs::Answering::find_not_installed, crate::proofs::Answering::find_no_place, crate::proofs::Answering::find_answers))]
fn find(
    graph: &Graph,
    kind: Kind,
    location: u32,
    candidates: &[u32],
    out: &mut [u32],
) -> Result<usize, Refusal>
    requires { Valid graph.now × (eqb (kind_number kind) (kind_number Kind.Package) ≡ false) }
    ensures { kept (kept_answer result) out.new ≡ find_outcome (meaning graph.now) kind location candidates.now out.old }
{
    let region = graph.region_of(location).ok_or(Refusal::NotInstalled)?;
    if out.len() < candidates.len() {
        return Err(Refusal::NoPlace);
    }
    if candidates.len() < FEW {
        return Ok(keep_few(graph, kind, region, candidates, out));
    }
    Ok(keep_many(graph, kind, region, candidates, out))
}

// Whether a listener has a place in the table of the bundles.
fn is_placed(bundles: &Chains<'_>, listener: u32) -> bool
    ensures { result ≡ is_installed (place_at bundles.now.table.now listener) }
{
    bundles.place_of(u64::from(listener)).is_some()
}

// Whether every listener has a place in the table of the bundles.
fn all_placed(bundles: &Chains<'_>, listeners: &[u32]) -> bool
    ensures { result ≡ all_placed (place_at bundles.now.table.now) listeners.now }
{
    listeners
        .iter()
        .all(|listener| is_placed(bundles, *listener))
}

// Whether a listener's region is in a set.
fn stands_in(bundles: &Chains<'_>, listener: u32, set: u64) -> bool
    ensures { result ≡ stands_in set (place_at bundles.now.table.now listener) }
{
    bundles
        .place_of(u64::from(listener))
        .is_some_and(|region| has(set, region))
}

// The listeners that see an item of a kind.
fn event(
    graph: &Graph,
    kind: Kind,
    listeners: &[u32],
    number: u32,
    out: &mut [u32],
) -> Result<usize, Refusal>
    requires { Valid graph.now }
    ensures { kept (kept_answer result) out.new ≡ event_outcome (meaning graph.now) kind listeners.now number out.old }
{
    let mut bundles = Table::new();
    bundles.put_offers(graph, Kind::Bundle);
    let bundles = Chains::of(bundles.entries());
    if !all_placed(&bundles, listeners) {
        return Err(Refusal::NotInstalled);
    }
    if out.len() < listeners.len() {
        return Err(Refusal::NoPlace);
    }
    let seeing = regions_seeing(graph, kind.item(number));
    let written = keep_where(listeners, out, |listener| {
        stands_in(&bundles, listener, seeing)
    });
    Ok(written)
}

// The bundles among the candidates that a bundle sees. The hooks keep their names: each is one call with its kind.
pub fn bundle_find(
    graph: &Graph,
    location: u32,
    candidates: &[u32],
    out: &mut [u32],
) -> Result<usize, Refusal>
    requires { Valid graph.now }
    ensures { kept (kept_answer result) out.new ≡ find_outcome (meaning graph.now) Kind.Bundle location candidates.now out.old }
{
    find(graph, Kind::Bundle, location, candidates, out)
}

// The services among the candidates that a bundle sees.
pub fn service_find(
    graph: &Graph,
    location: u32,
    candidates: &[u32],
    out: &mut [u32],
) -> Result<usize, Refusal>
    requires { Valid graph.now }
    ensures { kept (kept_answer result) out.new ≡ find_outcome (meaning graph.now) Kind.Service location candidates.now out.old }
{
    find(graph, Kind::Service, location, candidates, out)
}

// The listeners that see a bundle.
pub fn bundle_event(
    graph: &Graph,
    listeners: &[u32],
    bundle: u32,
    out: &mut [u32],
) -> Result<usize, Refusal>
    requires { Valid graph.now }
    ensures { kept (kept_answer result) out.new ≡ event_outcome (meaning graph.now) Kind.Bundle listeners.now bundle out.old }
{
    event(graph, Kind::Bundle, listeners, bundle, out)
}

// The listeners that see a service.
pub fn service_event(
    graph: &Graph,
    listeners: &[u32],
    service: u32,
    out: &mut [u32],
) -> Result<usize, Refusal>
    requires { Valid graph.now }
    ensures { kept (kept_answer result) out.new ≡ event_outcome (meaning graph.now) Kind.Service listeners.now service out.old }
{
    event(graph, Kind::Service, listeners, service, out)
}
