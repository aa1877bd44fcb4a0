// Resolve: writes the candidates, exporters with packages, that a bundle is offered. The exporter is installed and exports the package, and a
// route for it leads from the bundle's region to the exporter's. Order and repetitions are kept, the parts of a candidate at equal places.
ghost use Rattle.std.specs.Prelude.{◌≡◌, Bool, [], ◌∷◌, ◌<◌, ◌≤◌, length, get_or};
ghost use Rattle.region_graph.specs.Size.{regions};
ghost use Rattle.region_graph.specs.Lists.{keep};
ghost use Rattle.region_graph.specs.Model.{Model};
ghost use Rattle.region_graph.specs.Record.{Valid, meaning};
ghost use Rattle.region_routes.specs.Hooks.{Kept, kept, kept_answer};
ghost use Rattle.region_routes.specs.Resolve.{Candidate, no_candidate, candidates, candidate_list, is_offered, resolved, resolve_outcome};
ghost use Rattle.region_routes.specs.Tables.{ExportTables, Room, most_entries, everything_number, «step_in», predecessors_by};

use crate::Kind;
use crate::search::{Ends, search, search_for};
use crate::tables::{Chains, EVERYTHING_NUMBER, FEW, Table, owner_number};
use region_graph::refusals::Refusal;
use region_graph::region_set::{has, singleton};
use region_graph::size::REGIONS;
use region_graph::{Graph, Item};

// A candidate: an exporter's location with a package.
#[derive(Clone, Copy)]
pub struct Candidate {
    pub exporter: u32,
    pub number: u32,
    pub version: u16,
}

// Candidates that are handed in as lists of their parts: the shortest list counts them.
#[derive(Clone, Copy)]
pub struct Candidates<'a> {
    pub exporters: &'a [u32],
    pub packages: &'a [u32],
    pub versions: &'a [u16],
}

#[tactic(auto, using(crate::proofs::Resolving::candidates_length, crate::proofs::Resolving::candidate_at))]
impl<'a> Candidates<'a> {
    fn count(self) -> usize
        ensures { result ≡ length (candidate_list self.entry) }
    {
        self.exporters
            .len()
            .min(self.packages.len())
            .min(self.versions.len())
    }

    fn at(self, place: usize) -> Candidate
        requires { place < length (candidate_list self) }
        ensures { result ≡ get_or (candidate_list self.entry) place no_candidate }
    {
        Candidate {
            exporter: self.exporters[place],
            number: self.packages[place],
            version: self.versions[place],
        }
    }
}

// Writes the parts of the candidates that pass a test, and gives their count. The parts go to lists of their own, so that the C interface can
// lend columns: the loop of the hooks, which writes numbers to one list, would not be shorter with lists and types of output as parameters.
fn keep_where<F: Fn(Candidate) -> bool>(
    given: Candidates<'_>,
    out_exporters: &mut [u32],
    out_packages: &mut [u32],
    out_versions: &mut [u16],
    keeps: F,
) -> usize
    requires callable { F.IsAlwaysCallable keeps }
    requires room { Room (candidate_list given) out_exporters.old out_packages.old out_versions.old }
    ensures { (p : Candidate → Bool) → ((c : Candidate) (answer : Bool) → F.post keeps c answer → answer ≡ p c) → kept (Kept.Wrote result) (out_exporters.new ∷ out_packages.new ∷ out_versions.new ∷ []) ≡ resolved (keep p (candidate_list given.entry)) (out_exporters.old ∷ out_packages.old ∷ out_versions.old ∷ []) }
{
    let mut count: usize = 0;
    for place in 0..given.count() {
        let candidate = given.at(place);
        if keeps(candidate) {
            out_exporters[count] = candidate.exporter;
            out_packages[count] = candidate.number;
            out_versions[count] = candidate.version;
            count += 1;
        }
    }
    count
}

// Whether a region is offered a candidate: asks the graph, and makes no tables.
fn is_offered(graph: &Graph, region: u32, candidate: Candidate) -> bool
    requires valid { Valid graph.now }
    requires region_lt_regions { region < regions }
    ensures { result ≡ is_offered (meaning graph.now) candidate region }
{
    let package = Item {
        kind: Kind::Package.number(),
        number: candidate.number,
        version: candidate.version,
    };
    match graph.provider(candidate.exporter, package) {
        Some(home) => {
            let search = search_for(graph, package, Ends::Region(home));
            has(search.layers.reached, region)
        }
        None => false,
    }
}

// The tables of the packages with their chains, the exporters and the spans beside them, and the predecessors that the entries for all numbers
// give.
#[derive(Drop)]
struct PackageTables<'a> {
    exported: Chains<'a>,
    owned: &'a [u64],
    passing: Chains<'a>,
    spans: &'a [u64],
    always: [u64; REGIONS],
    ghost owned_len: { length owned.now ≡ length exported.table.now },
    ghost spans_len: { length spans.now ≡ length passing.table.now },
    ghost always_value: { always ≡ predecessors_by (step_in passing.table.now everything_number) },
}

impl<'a> PackageTables<'a> {
    // Whether a region is offered a candidate.
    fn offers(&self, region: u32, candidate: Candidate) -> bool
        requires { region < regions }
        ensures { (m : Model) → ExportTables m self.now.exported.table.now self.now.owned.now self.now.passing.table.now self.now.spans.now → result ≡ is_offered m candidate region }
    {
        let owner = owner_number(candidate.exporter, candidate.version);
        let sought = u64::from(candidate.number);
        match self.exported.place_beside(self.owned, owner, sought) {
            Some(home) => {
                let pred = self
                    .passing
                    .predecessors_between(self.spans, sought, candidate.version, self.always);
                has(search(&pred, singleton(home)).reached, region)
            }
            None => false,
        }
    }
}

// Writes the candidates that a region is offered: makes the tables of the packages.
fn resolve_many(
    graph: &Graph,
    region: u32,
    given: Candidates<'_>,
    out_exporters: &mut [u32],
    out_packages: &mut [u32],
    out_versions: &mut [u16],
) -> usize
    requires valid { Valid graph.now }
    requires region_lt_regions { (region < regions) × Room (candidate_list given) out_exporters.old out_packages.old out_versions.old }
    ensures { kept (Kept.Wrote result) (out_exporters.new ∷ out_packages.new ∷ out_versions.new ∷ []) ≡ resolved (keep (λ c. is_offered (meaning graph.now) c region) (candidate_list given.entry)) (out_exporters.old ∷ out_packages.old ∷ out_versions.old ∷ []) }
{
    let mut exported = Table::new();
    exported.put_offers(graph, Kind::Package);
    let mut owned = Table::new();
    owned.put_owners(graph);
    let mut passing = Table::new();
    passing.put_passages(graph, Kind::Package);
    let mut spans = Table::new();
    spans.put_connection_spans(graph);
    let passing = Chains::of(passing.entries());
    let always = passing.predecessors(EVERYTHING_NUMBER, [0; REGIONS]);
    let tables = PackageTables {
        exported: Chains::of(exported.entries()),
        owned: owned.entries(),
        passing,
        spans: spans.entries(),
        always,
    };
    keep_where(
        given,
        out_exporters,
        out_packages,
        out_versions,
        |candidate| { tables.offers(region, candidate) },
    )
}

// Writes the candidates that a region is offered: asks the graph about each, and makes no tables.
fn resolve_few(
    graph: &Graph,
    region: u32,
    given: Candidates<'_>,
    out_exporters: &mut [u32],
    out_packages: &mut [u32],
    out_versions: &mut [u16],
) -> usize
    requires { Valid graph.now × ((region < regions) × Room (candidate_list given) out_exporters.old out_packages.old out_versions.old) }
    ensures { kept (Kept.Wrote result) (out_exporters.new ∷ out_packages.new ∷ out_versions.new ∷ []) ≡ resolved (keep (λ c. is_offered (meaning graph.now) c region) (candidate_list given.entry)) (out_exporters.old ∷ out_packages.old ∷ out_versions.old ∷ []) }
{
    keep_where(
        given,
        out_exporters,
        out_packages,
        out_versions,
        |candidate| { is_offered(graph, region, candidate) },
    )
}

// The candidates, exporters with packages, that a bundle is offered. The C interface lends the lists one by one.
#[tactic(auto, using(crate::proofs::Judging::region_inside, crate::proofs::Answering::resolve_not_installed, crate::proofs::Answering::resolve_no_exporter_place, crate::proofs::Answering::resolve_no_number_place, crate::proofs::Answering::resolve_no_version_place, crate::proofs::Answering::resolve_answers))]
pub fn resolve(
    graph: &Graph,
    location: u32,
    exporters: &[u32],
    packages: &[u32],
    versions: &[u16],
    out_exporters: &mut [u32],
    out_packages: &mut [u32],
    out_versions: &mut [u16],
) -> Result<usize, Refusal>
    requires { Valid graph.now }
    ensures { kept (kept_answer result) (out_exporters.new ∷ out_packages.new ∷ out_versions.new ∷ []) ≡ resolve_outcome (meaning graph.now) location (candidates exporters.now packages.now versions.now) (out_exporters.old ∷ out_packages.old ∷ out_versions.old ∷ []) }
{
    let region = graph.region_of(location).ok_or(Refusal::NotInstalled)?;
    let given = Candidates {
        exporters,
        packages,
        versions,
    };
    let count = given.count();
    if out_exporters.len() < count || out_packages.len() < count || out_versions.len() < count {
        return Err(Refusal::NoPlace);
    }
    if count < FEW {
        return Ok(resolve_few(
            graph,
            region,
            given,
            out_exporters,
            out_packages,
            out_versions,
        ));
    }
    Ok(resolve_many(
        graph,
        region,
        given,
        out_exporters,
        out_packages,
        out_versions,
    ))
}
