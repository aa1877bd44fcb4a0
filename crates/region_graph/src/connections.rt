// The places of the connections, in ascending order of their two ends, and their filters.
ghost use Rattle.std.specs.Prelude.{◌≡◌, true, not, [], map, ◌<◌, ltb, length};
ghost use Rattle.region_graph.specs.Size.{most_connections};
ghost use Rattle.region_graph.specs.Lists.{All, ascends, keep, member, insert_by};
ghost use Rattle.region_graph.specs.Model.{Part, connection_before};
ghost use Rattle.region_graph.specs.Calls.{part_within, of_listed, filter_within, filter_ascends, filter_ordered, joins, touches, names};
ghost use Rattle.region_graph.specs.Record.{store_part, part_in, store_connection, store_connections};
ghost use Rattle.region_graph.specs.Record.{connection_in, no_connection, connections_of};
ghost use Rattle.region_graph.specs.Places.{PartStored, ConnectionStored, ConnectionsStored};
ghost use Rattle.region_graph.specs.Handed.{number_part, filter_lists, handed_connection};

use crate::numbers::{Numbers, ascending, has_number};
use crate::packages::{Entries, EntryList, PartList};
use crate::places::{insert, retain};
use crate::size::{EVERYTHING, MOST_CONNECTIONS, MOST_LISTED};

// A service part has the numbers listed, or the count EVERYTHING and no numbers.
#[repr(C)]
#[derive(Clone, Copy)]
pub struct StoredConnection {
    pub source: u32,
    pub target: u32,
    pub bundles: Numbers,
    pub packages: Entries,
    pub services: Numbers,
}

// A count and places, by the layout of the header for C.
#[repr(C)]
#[derive(Clone, Copy)]
pub struct Connections {
    pub count: usize,
    pub items: [StoredConnection; MOST_CONNECTIONS],
}

// The same of numbers as of entries: each is one match, and the test in it differs.
impl<'a> PartList<&'a [u32]> {
    pub(crate) fn within(self) -> bool
        ensures { result ≡ part_within (number_part self.entry) }
    {
        match self {
            PartList::Everything => true,
            PartList::Listed(list) => list.len() <= MOST_LISTED,
        }
    }

    pub(crate) fn ascends(self) -> bool
        ensures { result ≡ of_listed (ascends ltb) (number_part self.entry) }
    {
        match self {
            PartList::Everything => true,
            PartList::Listed(list) => ascending(list),
        }
    }

    // Whether it passes a number.
    pub(crate) fn passes(self, number: u32) -> bool
        ensures { result ≡ of_listed (member number) (number_part self.entry) }
    {
        match self {
            PartList::Everything => true,
            PartList::Listed(list) => has_number(list, number),
        }
    }
}

impl Numbers {
    // A part that is everything.
    pub(crate) fn everything() -> Numbers
        ensures { result ≡ store_part Part.everything }
    {
        Numbers {
            count: EVERYTHING,
            items: [0u32; MOST_LISTED],
        }
    }

    pub(crate) fn from_part(part: PartList<&[u32]>) -> Numbers
        requires { part_within (number_part part) ≡ true }
        ensures { result ≡ store_part (number_part part.entry) }
    {
        match part {
            PartList::Everything => Numbers::everything(),
            PartList::Listed(list) => Numbers::from_slice(list),
        }
    }

    pub(crate) fn as_part(&self) -> PartList<&[u32]>
        requires { PartStored self.now }
        ensures { number_part result ≡ part_in self.now }
    {
        if self.count == EVERYTHING {
            PartList::Everything
        } else {
            PartList::Listed(self.as_slice())
        }
    }
}

// The parts of a filter that is handed in.
#[derive(Clone, Copy)]
pub struct FilterLists<'a> {
    pub bundles: &'a [u32],
    pub packages: PartList<EntryList<'a>>,
    pub services: PartList<&'a [u32]>,
}

impl<'a> FilterLists<'a> {
    // Whether each part is within its count.
    pub(crate) fn within(self) -> bool
        ensures { result ≡ filter_within (filter_lists self.entry) }
    {
        self.bundles.len() <= MOST_LISTED && self.packages.within() && self.services.within()
    }

    pub(crate) fn ascends(self) -> bool
        ensures { result ≡ filter_ascends (filter_lists self.entry) }
    {
        ascending(self.bundles) && self.packages.ascends() && self.services.ascends()
    }

    // Whether no entry of the package part has a lowest version above its highest.
    pub(crate) fn ordered(self) -> bool
        ensures { result ≡ filter_ordered (filter_lists self.entry) }
    {
        self.packages.ordered()
    }
}

impl StoredConnection {
    // A connection from one region to another whose filter is handed in.
    pub(crate) fn new(source: u32, target: u32, filter: FilterLists<'_>) -> StoredConnection
        requires { filter_within (filter_lists filter) ≡ true }
        ensures { result ≡ store_connection (handed_connection source target filter.entry) }
    {
        StoredConnection {
            source,
            target,
            bundles: Numbers::from_slice(filter.bundles),
            packages: Entries::from_part(filter.packages),
            services: Numbers::from_part(filter.services),
        }
    }

    // Whether it leads from one region to another.
    pub(crate) fn joins(&self, source: u32, target: u32) -> bool
        ensures { result ≡ joins source target (connection_in self.now) }
    {
        self.source == source && self.target == target
    }

    // Whether it leads from a region or to it.
    pub(crate) fn touches(&self, region: u32) -> bool
        ensures { result ≡ touches region (connection_in self.now) }
    {
        self.source == region || self.target == region
    }

    // Whether it leads from a region, and has a location in its bundle part.
    pub(crate) fn names(&self, region: u32, location: u32) -> bool
        requires { ConnectionStored self.now }
        ensures { result ≡ names region location (connection_in self.now) }
    {
        self.source == region && self.bundles.as_slice().contains(&location)
    }
}

// What stands in a place that is not used.
pub fn no_connection() -> StoredConnection
    ensures { result ≡ store_connection no_connection }
{
    let none = Numbers {
        count: 0,
        items: [0u32; MOST_LISTED],
    };
    StoredConnection {
        source: 0,
        target: 0,
        bundles: none,
        packages: Entries {
            count: 0,
            numbers: [0u32; MOST_LISTED],
            lowest: [0u16; MOST_LISTED],
            highest: [0u16; MOST_LISTED],
        },
        services: none,
    }
}

impl Connections {
    pub fn none() -> Connections
        ensures { result ≡ store_connections [] }
    {
        let none = no_connection();
        Connections {
            count: 0,
            items: [none; MOST_CONNECTIONS],
        }
    }

    // The connections in their order.
    pub fn as_slice(&self) -> &[StoredConnection]
        requires { ConnectionsStored self.now }
        ensures places { result.now ≡ map store_connection (connections_of self.now) }
        ensures means { map connection_in result.now ≡ connections_of self.now }
        ensures each { All ConnectionStored result.now }
    {
        &self.items[..self.count]
    }

    // The connections from or to a region leave.
    pub fn remove_touching(&mut self, region: u32)
        requires { ConnectionsStored self.old }
        ensures { self.new ≡ store_connections (keep (λ c. not (touches region c)) (connections_of self.old)) }
    {
        self.count = retain(
            &mut self.items,
            self.count,
            no_connection(),
            |c| !c.touches(region),
        );
    }

    // The connection from one region to another leaves.
    pub fn remove_joining(&mut self, source: u32, target: u32)
        requires { ConnectionsStored self.old }
        ensures { self.new ≡ store_connections (keep (λ c. not (joins source target c)) (connections_of self.old)) }
    {
        self.count = retain(&mut self.items, self.count, no_connection(), |c| {
            !c.joins(source, target)
        });
    }

    // One connection more, at its place in the order.
    pub fn insert(&mut self, connection: &StoredConnection)
        requires connections_stored { ConnectionsStored self.old }
        requires connection_stored { ConnectionStored connection.now }
        requires self_value { (ascends connection_before (connections_of self.old) ≡ true) × (length (connections_of self.old) < most_connections) }
        ensures { self.new ≡ store_connections (insert_by connection_before (connection_in connection.now) (connections_of self.old)) }
    {
        insert(&mut self.items, self.count, *connection, |c| {
            (c.source, c.target) <= (connection.source, connection.target)
        });
        self.count += 1;
    }
}
