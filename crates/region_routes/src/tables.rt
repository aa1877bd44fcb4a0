// Tables of the items of one kind, made once for a query and lent: slices of numbers are not copied, as a graph is.
ghost use Rattle.std.specs.Prelude.{◌≡◌, Bool, List, [], ◌∷◌, ◌++◌, map, ℕ, ◌+◌, ◌<◌, ◌≤◌, eqb, length, get_or, take};
ghost use Rattle.region_graph.specs.Size.{regions, everything_sign};
ghost use Rattle.region_graph.specs.Record.{Valid, meaning, bundle_in, connection_in, package_part_in};
ghost use Rattle.region_graph.specs.Places.{BundleStored, PackagePartStored, ConnectionStored};
ghost use Rattle.region_graph.specs.Promise.{new_part};
ghost use Rattle.region_routes.specs.Hooks.{kind_number};
ghost use Rattle.region_routes.specs.Tables;
ghost use Rattle.region_routes.specs.Chains.{chain, chains, Chained, Standing, places_left, with_step};
ghost use Rattle.std.specs.Iterator.{YieldsFirst, Drains, IsFinite, item_count, size};
ghost use Rattle.std.specs.Iterator.Runs.{WholeRun};
ghost use Rattle.std.specs.List.{zip};

use crate::Kind;
use region_graph::region_set::singleton;
use region_graph::size::{EVERYTHING, MOST_CONNECTIONS, MOST_LISTED, REGIONS};
use region_graph::{Entries, Graph, StoredBundle, StoredConnection};
use std::marker::Model;
use std::slice;

// An entry is a number times this, and a place below it.
const WIDTH: u64 = 65536;

// The number of an entry that stands for all numbers: no item has it.
pub const EVERYTHING_NUMBER: u64 = 4294967296;

// What the connections pass at most; the bundles bring no more.
const MOST_ENTRIES: usize = MOST_CONNECTIONS * MOST_LISTED;

// Below so many candidates tables cost more than a search for each.
pub const FEW: usize = 4;

// Entries are in a chain by their number's remainder.
const CHAINS: usize = 256;

// The starts of the chains, and a place for each entry.
const LINKS: usize = CHAINS + MOST_ENTRIES;

// A number with what goes with it, below WIDTH, as one number.
fn packed(number: u64, place: u32) -> u64
    requires { number ≤ Tables.everything_number }
    ensures { result ≡ Tables.packed number place }
{
    number * WIDTH + u64::from(place)
}

// The number of an entry.
fn number_in(entry: u64) -> u64
    ensures { result ≡ Tables.number_in entry }
{
    entry / WIDTH
}

// The place that goes with the number of an entry. The casts here and below are proved to fit: `try_from` would add a branch that nothing takes.
fn place_in(entry: u64) -> u32
    ensures { result ≡ Tables.place_in entry }
{
    (entry % WIDTH) as u32
}

// A location and a version as one number.
pub fn owner_number(location: u32, version: u16) -> u64
    ensures { result ≡ Tables.packed location version }
{
    packed(u64::from(location), u32::from(version))
}

// Whether a version lies between those of a span.
fn is_between(version: u16, span: u64) -> bool
    ensures { result ≡ Tables.span_has version span }
{
    (number_in(span)..=u64::from(place_in(span))).contains(&u64::from(version))
}

// The numbers that a stored bundle brings to its region: the kind chooses a part of the record, and no step.
fn provided(b: &StoredBundle, kind: Kind) -> &[u32]
    requires { BundleStored b.now }
    ensures { result.now ≡ Tables.provided_numbers (kind_number kind) (bundle_in b.now) }
{
    match kind {
        Kind::Bundle => slice::from_ref(&b.location),
        Kind::Package => &b.packages.numbers[..b.packages.count],
        Kind::Service => &b.services.items[..b.services.count],
    }
}

// Puts each item of an iterator behind the first `count` places, and gives the count with them: a local one, which is not stored for each.
fn put_all<I: Iterator<Item = u64> + Drop>(
    places: &mut [u64; MOST_ENTRIES],
    count: usize,
    items: I,
) -> usize
    requires can { I.can_next items }
    requires ends { IsFinite (I.remaining items) }
    requires fits { count + size (I.remaining items) ≤ Tables.most_entries }
    ensures inside { result ≤ Tables.most_entries }
    ensures ran { (xs : List ℕ) × Drains I.next_gives items xs × (take result places.new ≡ take count places.old ++ xs) }
    ensures runs { WholeRun I.next_gives items (λ p. take result places.new ≡ take count places.old ++ p.items) }
{
    let mut put = count;
    for item in items {
        places[put] = item;
        put += 1;
    }
    put
}

// A table: entries in memory of a fixed size.
#[derive(Drop)]
pub struct Table {
    entries: [u64; MOST_ENTRIES],
    count: usize,
}

impl Model for Table {
    ghost use Rattle.std.specs.Prelude.{List, ℕ, ◌≤◌, take};
    ghost use Rattle.region_routes.specs.Tables.{most_entries};

    ghost Value = { List ℕ };

    ghost view = { λ t. take t.count t.entries };

    ghost invariant = { λ t. t.count ≤ most_entries };
}

impl Table {
    pub fn new() -> Table
        ensures { result ≡ [] }
    {
        Table {
            entries: [0; MOST_ENTRIES],
            count: 0,
        }
    }

    pub fn entries(&self) -> &[u64]
        ensures { (result.now ≡ self.now) × (length self.now ≤ Tables.most_entries) }
    {
        &self.entries[..self.count]
    }

    fn push(&mut self, entry: u64)
        requires { length self.old < Tables.most_entries }
        ensures { self.new ≡ self.old ++ entry ∷ [] }
    {
        self.entries[self.count] = entry;
        self.count += 1;
    }

    // Puts each item of an iterator at the end.
    fn extend<I: Iterator<Item = u64> + Drop>(&mut self, entries: I)
        requires can { I.can_next entries }
        requires ends { IsFinite (I.remaining entries) }
        requires fits { length self.old + size (I.remaining entries) ≤ Tables.most_entries }
        ensures ran { (xs : List ℕ) × Drains I.next_gives entries xs × (self.new ≡ self.old ++ xs) }
        ensures runs { WholeRun I.next_gives entries (λ p. self.new ≡ self.old ++ p.items) }
    {
        self.count = put_all(&mut self.entries, self.count, entries);
    }

    // Puts an entry for each number of a list.
    fn put(&mut self, place: u32, numbers: &[u32])
        requires { length self.old + length numbers.now ≤ Tables.most_entries }
        ensures { self.new ≡ self.old ++ map (λ n. Tables.packed n place) numbers.now }
    {
        self.extend(numbers.iter().map(|n| packed(u64::from(*n), place)));
    }

    // Puts one number with each place of a list.
    fn put_places(&mut self, number: u32, places: &[u16])
        requires { length self.old + length places.now ≤ Tables.most_entries }
        ensures { self.new ≡ self.old ++ map (λ p. Tables.packed number p) places.now }
    {
        self.extend(places.iter().map(|p| owner_number(number, *p)));
    }

    // Puts numbers with the places beside them.
    fn put_pairs(&mut self, numbers: &[u16], places: &[u16])
        requires { length self.old + length places.now ≤ Tables.most_entries }
        ensures { self.new ≡ self.old ++ map (λ p. Tables.packed p.0 p.1) (zip numbers.now places.now) }
    {
        let pairs = numbers.iter().zip(places);
        self.extend(pairs.map(|(n, p)| packed(u64::from(*n), u32::from(*p))));
    }

    // Puts what a bundle brings to its region.
    fn put_offer(&mut self, b: &StoredBundle, kind: Kind)
        requires stored { BundleStored b.now }
        requires room { length self.old + length (Tables.offer (kind_number kind) (bundle_in b.now)) ≤ Tables.most_entries }
        ensures { self.new ≡ self.old ++ Tables.offer (kind_number kind) (bundle_in b.now) }
    {
        self.put(b.region, provided(b, kind));
    }

    // Puts the location of a bundle with the version of each package that it brings.
    fn put_owner(&mut self, b: &StoredBundle)
        requires stored { BundleStored b.now }
        requires room { length self.old + length (Tables.owner (bundle_in b.now)) ≤ Tables.most_entries }
        ensures { self.new ≡ self.old ++ Tables.owner (bundle_in b.now) }
    {
        self.put_places(b.location, &b.packages.versions[..b.packages.count]);
    }

    // Puts what a part of a filter passes: by its count the first numbers, or everything.
    fn put_part(&mut self, ends: u32, count: usize, numbers: &[u32])
        requires counted { (count ≡ everything_sign → ⊥) → count ≤ length numbers.now }
        requires room { length self.old + length (Tables.passed (new_part (eqb count everything_sign) (take count numbers.now))) ≤ Tables.most_entries }
        ensures { self.new ≡ self.old ++ map (λ n. Tables.packed n ends) (Tables.passed (new_part (eqb count everything_sign) (take count numbers.now))) }
    {
        if count == EVERYTHING {
            self.push(packed(EVERYTHING_NUMBER, ends));
        } else {
            self.put(ends, &numbers[..count]);
        }
    }

    // Puts what a connection passes, with its two ends: the kind chooses a part of the filter, and no step.
    fn put_passage(&mut self, c: &StoredConnection, kind: Kind)
        requires stored { ConnectionStored c.now }
        requires inside { (c.now.source < regions) × (c.now.target < regions) }
        requires room { length self.old + length (Tables.passage (kind_number kind) (connection_in c.now)) ≤ Tables.most_entries }
        ensures { self.new ≡ self.old ++ Tables.passage (kind_number kind) (connection_in c.now) }
    {
        let ends = c.source * (REGIONS as u32) + c.target;
        match kind {
            Kind::Bundle => self.put(ends, &c.bundles.items[..c.bundles.count]),
            Kind::Package => self.put_part(ends, c.packages.count, &c.packages.numbers),
            Kind::Service => self.put_part(ends, c.services.count, &c.services.items),
        }
    }

    // Puts the spans of a package part; for everything, one that nothing asks for.
    fn put_spans(&mut self, part: &Entries)
        requires stored { PackagePartStored part.now }
        requires room { length self.old + length (Tables.part_spans (package_part_in part.now)) ≤ Tables.most_entries }
        ensures { self.new ≡ self.old ++ Tables.part_spans (package_part_in part.now) }
    {
        if part.count == EVERYTHING {
            self.push(0);
        } else {
            self.put_pairs(&part.lowest, &part.highest[..part.count]);
        }
    }

    // Puts what the bundles of a graph bring to their regions.
    pub fn put_offers(&mut self, graph: &Graph, kind: Kind)
        requires valid { Valid graph.now }
        requires empty { self.old ≡ [] }
        ensures { self.new ≡ Tables.offers (kind_number kind) (meaning graph.now).bundles }
    {
        for b in graph.bundles() {
            self.put_offer(b, kind);
        }
    }

    // Puts, for each package that the bundles of a graph bring, the exporter's location with the version.
    pub fn put_owners(&mut self, graph: &Graph)
        requires valid { Valid graph.now }
        requires empty { self.old ≡ [] }
        ensures { self.new ≡ Tables.owners (meaning graph.now).bundles }
    {
        for b in graph.bundles() {
            self.put_owner(b);
        }
    }

    // Puts what the connections of a graph pass.
    pub fn put_passages(&mut self, graph: &Graph, kind: Kind)
        requires valid { Valid graph.now }
        requires empty { self.old ≡ [] }
        ensures { self.new ≡ Tables.passages (kind_number kind) (meaning graph.now).connections }
    {
        for c in graph.connections() {
            self.put_passage(c, kind);
        }
    }

    // Puts, for each entry of what the connections of a graph pass of packages, its span.
    pub fn put_connection_spans(&mut self, graph: &Graph)
        requires valid { Valid graph.now }
        requires empty { self.old ≡ [] }
        ensures { self.new ≡ Tables.spans (meaning graph.now).connections }
    {
        for c in graph.connections() {
            self.put_spans(&c.packages);
        }
    }
}

// The chain of a number.
fn chain_of(number: u64) -> usize
    ensures { (result ≡ chain number) × (result < chains) }
{
    (number % (CHAINS as u64)) as usize
}

// Adds the step from the source of an entry to its target.
fn add_step(sets: &mut [u64; REGIONS], entry: u64)
    ensures { sets.new ≡ with_step sets.old entry }
{
    let ends = place_in(entry);
    sets[ends as usize % REGIONS] |= singleton(ends / (REGIONS as u32));
}

// A table with its chains: for each the place of its first entry, and after those for each entry the place of the next one of its chain.
// The table's length ends a chain.
#[derive(Drop)]
pub struct Chains<'a> {
    table: &'a [u64],
    links: [u16; LINKS],
    ghost chained: { Chained table.now links },
}

impl<'a> Chains<'a> {
    pub fn of(table: &'a [u64]) -> Chains<'a>
        requires { length table.now ≤ Tables.most_entries }
        ensures { result.table.now ≡ table.now }
    {
        let mut links = [table.len() as u16; LINKS];
        for i in (0..table.len()).rev() {
            let chain = chain_of(number_in(table[i]));
            links[CHAINS + i] = links[chain];
            links[chain] = i as u16;
        }
        Chains { table, links }
    }

    // The places of the entries that have a number, in order.
    fn places(&self, number: u64) -> Places<'_>
        ensures { places_left result.table.now result.number result.at ≡ places_left self.now.table.now number 0 }
    {
        Places {
            table: self.table,
            links: &self.links,
            number,
            at: usize::from(self.links[chain_of(number)]),
        }
    }

    // The regions of the entries that have a number.
    pub fn holders(&self, number: u64) -> u64
        ensures { result ≡ Tables.held_in self.now.table.now number }
    {
        // Most numbers that are asked for have no entry: they are answered before the loop.
        let mut places = self.places(number);
        let Some(first) = places.next() else {
            return 0;
        };
        let mut set = singleton(place_in(self.table[first]));
        for i in places {
            set |= singleton(place_in(self.table[i]));
        }
        set
    }

    // For each region, beside those given, the regions from which the entries that have a number go to it.
    pub fn predecessors(&self, number: u64, given: [u64; REGIONS]) -> [u64; REGIONS]
        ensures { (step : ℕ → ℕ → Bool) → given ≡ Tables.predecessors_by step → result ≡ Tables.predecessors_by (Tables.step_or step self.now.table.now number) }
    {
        let mut sets = given;
        for i in self.places(number) {
            add_step(&mut sets, self.table[i]);
        }
        sets
    }

    // The same of the entries that have a number, and beside them a span that has a version.
    pub fn predecessors_between(
        &self,
        spans: &[u64],
        number: u64,
        version: u16,
        given: [u64; REGIONS],
    ) -> [u64; REGIONS]
        requires { length spans.now ≡ length self.now.table.now }
        ensures { (step : ℕ → ℕ → Bool) → given ≡ Tables.predecessors_by step → result ≡ Tables.predecessors_by (Tables.step_or_between step self.now.table.now spans.now number version) }
    {
        let mut sets = given;
        for i in self.places(number) {
            if is_between(version, spans[i]) {
                add_step(&mut sets, self.table[i]);
            }
        }
        sets
    }

    // The place of the first entry that has a number.
    pub fn place_of(&self, number: u64) -> Option<u32>
        ensures { result ≡ Tables.place_at self.now.table.now number }
    {
        let i = self.places(number).next()?;
        Some(place_in(self.table[i]))
    }

    // The place of the first entry that has a number, and an owner beside it.
    pub fn place_beside(&self, owned: &[u64], asked: u64, number: u64) -> Option<u32>
        requires { length owned.now ≡ length self.now.table.now }
        ensures { result ≡ Tables.place_beside self.now.table.now owned.now asked number }
    {
        for i in self.places(number) {
            if owned[i] == asked {
                return Some(place_in(self.table[i]));
            }
        }
        None
    }
}

// The places of the entries of a table that have a number, from one of its chain on. What stands beside the entries is a slice of the
// caller's: the tables of bundles and services have nothing beside them.
#[derive(Drop)]
struct Places<'a> {
    table: &'a [u64],
    links: &'a [u16],
    number: u64,
    at: usize,
    ghost standing: { Standing table.now links.now number at },
}

impl<'a> Iterator for Places<'a> {
    type Item = usize;

    ghost next_gives = { YieldsFirst (λ s. places_left s.table.now s.number s.at) };

    ghost remaining = { item_count (λ s. places_left s.table.now s.number s.at) };

    fn next(&mut self) -> Option<usize> {
        // Each turn reads from its entry's link where the next one begins, so that no range counts the places.
        while self.at < self.table.len() {
            let i = self.at;
            self.at = usize::from(self.links[CHAINS + i]);
            if number_in(self.table[i]) == self.number {
                return Some(i);
            }
        }
        None
    }
}
