// The search for routes over predecessor sets: the regions in layers by their distance to a holder.
ghost use Rattle.std.specs.Prelude.{◌≡◌, ℕ, ◌<◌, ◌≤◌, ◌^◌, MatchOption};
ghost use Rattle.std.specs.Iterator.{at_most};
ghost use Rattle.region_graph.specs.Size.{regions};
ghost use Rattle.region_graph.specs.Model.{Model};
ghost use Rattle.region_graph.specs.Promise.{predecessor_sets};
ghost use Rattle.region_graph.specs.Record.{Valid, meaning};
ghost use Rattle.region_graph.specs.Sets.{set_of};
ghost use Rattle.region_routes.specs.Chosen.{sees};
ghost use Rattle.region_routes.specs.Hooks.{item};
ghost use Rattle.region_routes.specs.Tables.{NumberTables, everything_number, «step_in», predecessors_by};
ghost use Rattle.region_routes.specs.Search.{RegionSets, TakesLowest, Layer, Searched, At, InLayer, end_set};

use crate::tables::Chains;
use region_graph::region_set::{difference, has, lowest, singleton, without_lowest};
use region_graph::size::REGIONS;
use region_graph::{Graph, Item};

// The members of a set of regions, lowest first.
#[derive(Drop)]
pub struct Members {
    pub left: u64,
}

impl Iterator for Members {
    type Item = u32;

    ghost next_gives = { TakesLowest (λ s. s.left) };

    ghost remaining = { λ s. at_most s.left };

    fn next(&mut self) -> Option<u32> {
        if self.left == 0 {
            return None;
        }
        let member = lowest(self.left);
        self.left = without_lowest(self.left);
        Some(member)
    }
}

// The layers sets[0] to sets[deep], and all regions in them.
#[derive(Clone, Copy)]
pub struct Layers {
    pub sets: [u64; REGIONS],
    pub deep: usize,
    pub reached: u64,
}

impl Layers {
    // The layer of a region that is reached: its distance to a holder.
    pub fn distance(&self, region: u32) -> Option<usize>
        requires { (self.now.deep < regions) × (region < regions) }
        ensures { MatchOption result ((j : ℕ) → j ≤ self.now.deep → At self.now.sets j region → ⊥) (λ d. InLayer self.now.sets self.now.deep region d) }
    {
        self.sets[..=self.deep]
            .iter()
            .position(|set| has(*set, region))
    }
}

// One layer: the regions that are not reached yet and have a connection into the layer before.
fn layer(pred: &[u64; REGIONS], last: u64, reached: u64) -> u64
    requires { RegionSets pred.now }
    ensures { Layer pred.now last reached result }
{
    let mut next = 0;
    for region in (Members { left: last }) {
        next |= pred[region as usize];
    }
    difference(next, reached)
}

// All layers, from the holders back. The loop ends in its middle, at the first empty layer.
pub fn search(pred: &[u64; REGIONS], holders: u64) -> Layers
    requires { RegionSets pred.now × (holders < 2 ^ regions) }
    ensures { Searched pred.now holders result.sets result.deep result.reached }
{
    let mut sets = [0; REGIONS];
    sets[0] = holders;
    let mut deep = 0;
    let mut reached = holders;
    let mut last = holders;
    loop {
        let next = layer(pred, last, reached);
        if next == 0 {
            return Layers {
                sets,
                deep,
                reached,
            };
        }
        deep += 1;
        sets[deep] = next;
        reached |= next;
        last = next;
    }
}

// The predecessors of each region for an item, and the layers over them.
#[derive(Clone, Copy)]
pub struct ItemSearch {
    pub pred: [u64; REGIONS],
    pub layers: Layers,
}

// Where a route for an item may end: in each region that holds it, or in one region alone. Two cases, a line each where it is asked.
#[derive(Clone, Copy)]
pub enum Ends {
    Holders,
    Region(u32),
}

// The regions in which a route may end.
fn end_set(graph: &Graph, item: Item, ends: Ends) -> u64
    requires { Valid graph.now }
    ensures { result ≡ end_set (meaning graph.now) item ends }
{
    match ends {
        Ends::Holders => graph.holders(item),
        Ends::Region(region) => singleton(region),
    }
}

// The search for an item.
pub fn search_for(graph: &Graph, item: Item, ends: Ends) -> ItemSearch
    requires { Valid graph.now }
    ensures { (result.pred ≡ predecessor_sets (meaning graph.now) item) × Searched (predecessor_sets (meaning graph.now) item) (end_set (meaning graph.now) item ends) result.layers.sets result.layers.deep result.layers.reached }
{
    let pred = graph.predecessors(item);
    let layers = search(&pred, end_set(graph, item, ends));
    ItemSearch { pred, layers }
}

// The regions that see an item.
pub fn regions_seeing(graph: &Graph, item: Item) -> u64
    requires { Valid graph.now }
    ensures { result ≡ set_of (sees (meaning graph.now) item) }
{
    search_for(graph, item, Ends::Holders).layers.reached
}

// The tables of a kind by number with their chains, and the predecessors that the entries for all numbers give.
#[derive(Drop)]
pub struct KindTables<'a> {
    pub offered: Chains<'a>,
    pub passing: Chains<'a>,
    pub always: [u64; REGIONS],
    ghost always_value: { always ≡ predecessors_by (step_in passing.table.now everything_number) },
}

impl<'a> KindTables<'a> {
    // The regions that see the item of a number.
    pub fn regions_seeing(&self, number: u32) -> u64
        ensures { (m : Model) (kind : ℕ) → NumberTables m kind self.now.offered.table.now self.now.passing.table.now → result ≡ set_of (sees m (item kind number 0)) }
    {
        let sought = u64::from(number);
        let held = self.offered.holders(sought);
        if held == 0 {
            return 0;
        }
        let pred = self.passing.predecessors(sought, self.always);
        search(&pred, held).reached
    }
}
