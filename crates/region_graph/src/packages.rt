// Packages and entries of package parts, in columns: the parts of one stand at equal places of lists, and the shortest list counts.
ghost use Rattle.std.specs.Prelude.{◌≡◌, true, ◌&&◌, leb, ◌≤◌, length};
ghost use Rattle.region_graph.specs.Size.{most_listed, most_provided};
ghost use Rattle.region_graph.specs.Lists.{ascends, exists, every};
ghost use Rattle.region_graph.specs.Model.{Part, packages, entries, package_before, entry_before, ordered};
ghost use Rattle.region_graph.specs.Items.{is_package, entry_passes};
ghost use Rattle.region_graph.specs.Record.{store_packages, store_entries, store_package_part};
ghost use Rattle.region_graph.specs.Calls.{part_within, of_listed};
ghost use Rattle.region_graph.specs.Record.{packages_of, entries_of, package_part_in};
ghost use Rattle.region_graph.specs.Places.{PackagesStored, EntriesStored, PackagePartStored};
ghost use Rattle.region_graph.specs.Handed.{package_list, entry_list, entry_part};

use crate::numbers::ascending;
use crate::size::{EVERYTHING, MOST_LISTED, MOST_PROVIDED};

// What a bundle exports, by the layout of the header for C.
#[repr(C)]
#[derive(Clone, Copy)]
pub struct Packages {
    pub count: usize,
    pub numbers: [u32; MOST_PROVIDED],
    pub versions: [u16; MOST_PROVIDED],
}

// A package part, by the layout of the header for C: its entries, or the count EVERYTHING and no entries.
#[repr(C)]
#[derive(Clone, Copy)]
pub struct Entries {
    pub count: usize,
    pub numbers: [u32; MOST_LISTED],
    pub lowest: [u16; MOST_LISTED],
    pub highest: [u16; MOST_LISTED],
}

// Packages that are handed in as a list of their numbers and one of their versions.
#[derive(Clone, Copy)]
pub struct PackageList<'a> {
    pub numbers: &'a [u32],
    pub versions: &'a [u16],
}

// Entries of a package part that are handed in.
#[derive(Clone, Copy)]
pub struct EntryList<'a> {
    pub numbers: &'a [u32],
    pub lowest: &'a [u16],
    pub highest: &'a [u16],
}

// A part of a filter that is handed in. It is no Option: None would not say that it is everything.
#[derive(Clone, Copy)]
pub enum PartList<T> {
    Everything,
    Listed(T),
}

impl<'a> PackageList<'a> {
    pub(crate) fn count(self) -> usize
        ensures { result ≡ length (package_list self.entry) }
    {
        self.numbers.len().min(self.versions.len())
    }

    // Whether they strictly ascend by number, then version. It goes by index, as each test below: of a chain over zipped columns the proof did
    // not close.
    pub(crate) fn ascends(self) -> bool
        ensures { result ≡ ascends package_before (package_list self.entry) }
    {
        for i in 1..self.count() {
            let last = (self.numbers[i - 1], self.versions[i - 1]);
            if (self.numbers[i], self.versions[i]) <= last {
                return false;
            }
        }
        true
    }

    // Whether they have a package.
    pub(crate) fn has(self, number: u32, version: u16) -> bool
        ensures { result ≡ exists (is_package number version) (package_list self.entry) }
    {
        for i in 0..self.count() {
            if self.numbers[i] == number && self.versions[i] == version {
                return true;
            }
        }
        false
    }
}

impl<'a> EntryList<'a> {
    pub(crate) fn count(self) -> usize
        ensures { result ≡ length (entry_list self.entry) }
    {
        self.numbers
            .len()
            .min(self.lowest.len())
            .min(self.highest.len())
    }

    // Whether they strictly ascend by number.
    pub(crate) fn ascends(self) -> bool
        ensures { result ≡ ascends entry_before (entry_list self.entry) }
    {
        ascending(&self.numbers[..self.count()])
    }

    // Whether no lowest version exceeds its highest.
    pub(crate) fn ordered(self) -> bool
        ensures { result ≡ every ordered (entry_list self.entry) }
    {
        for i in 0..self.count() {
            if self.highest[i] < self.lowest[i] {
                return false;
            }
        }
        true
    }

    // Whether one of them passes a package.
    pub(crate) fn passes(self, number: u32, version: u16) -> bool
        ensures { result ≡ exists (entry_passes number version) (entry_list self.entry) }
    {
        for i in 0..self.count() {
            if self.numbers[i] == number && lies_between(version, self.lowest[i], self.highest[i]) {
                return true;
            }
        }
        false
    }
}

impl<'a> PartList<EntryList<'a>> {
    // Whether it is within its count.
    pub(crate) fn within(self) -> bool
        ensures { result ≡ part_within (entry_part self.entry) }
    {
        match self {
            PartList::Everything => true,
            PartList::Listed(list) => list.count() <= MOST_LISTED,
        }
    }

    pub(crate) fn ascends(self) -> bool
        ensures { result ≡ of_listed (ascends entry_before) (entry_part self.entry) }
    {
        match self {
            PartList::Everything => true,
            PartList::Listed(list) => list.ascends(),
        }
    }

    // Whether no entry's lowest version exceeds its highest.
    pub(crate) fn ordered(self) -> bool
        ensures { result ≡ of_listed (every ordered) (entry_part self.entry) }
    {
        match self {
            PartList::Everything => true,
            PartList::Listed(list) => list.ordered(),
        }
    }

    // Whether it passes a package.
    pub(crate) fn passes(self, number: u32, version: u16) -> bool
        ensures { result ≡ of_listed (exists (entry_passes number version)) (entry_part self.entry) }
    {
        match self {
            PartList::Everything => true,
            PartList::Listed(list) => list.passes(number, version),
        }
    }
}

impl Packages {
    // What lists hand in as a value of its own.
    pub(crate) fn from_list(list: PackageList<'_>) -> Packages
        requires { length (package_list list) ≤ most_provided }
        ensures { result ≡ store_packages (package_list list.entry) }
    {
        let count = list.count();
        let mut numbers = [0u32; MOST_PROVIDED];
        numbers[..count].copy_from_slice(&list.numbers[..count]);
        let mut versions = [0u16; MOST_PROVIDED];
        versions[..count].copy_from_slice(&list.versions[..count]);
        Packages {
            count,
            numbers,
            versions,
        }
    }

    pub(crate) fn as_list(&self) -> PackageList<'_>
        requires { PackagesStored self.now }
        ensures { package_list result ≡ packages_of self.now }
    {
        PackageList {
            numbers: &self.numbers[..self.count],
            versions: &self.versions[..self.count],
        }
    }
}

impl Entries {
    // What lists hand in as a value of its own.
    pub(crate) fn from_list(list: EntryList<'_>) -> Entries
        requires { length (entry_list list) ≤ most_listed }
        ensures { result ≡ store_entries (entry_list list.entry) }
    {
        let count = list.count();
        let mut numbers = [0u32; MOST_LISTED];
        numbers[..count].copy_from_slice(&list.numbers[..count]);
        let mut lowest = [0u16; MOST_LISTED];
        lowest[..count].copy_from_slice(&list.lowest[..count]);
        let mut highest = [0u16; MOST_LISTED];
        highest[..count].copy_from_slice(&list.highest[..count]);
        Entries {
            count,
            numbers,
            lowest,
            highest,
        }
    }

    // A package part that is everything.
    pub(crate) fn everything() -> Entries
        ensures { result ≡ store_package_part Part.everything }
    {
        Entries {
            count: EVERYTHING,
            numbers: [0u32; MOST_LISTED],
            lowest: [0u16; MOST_LISTED],
            highest: [0u16; MOST_LISTED],
        }
    }

    pub(crate) fn from_part(part: PartList<EntryList<'_>>) -> Entries
        requires { part_within (entry_part part) ≡ true }
        ensures { result ≡ store_package_part (entry_part part.entry) }
    {
        match part {
            PartList::Everything => Entries::everything(),
            PartList::Listed(list) => Entries::from_list(list),
        }
    }

    pub(crate) fn as_part(&self) -> PartList<EntryList<'_>>
        requires { PackagePartStored self.now }
        ensures { entry_part result ≡ package_part_in self.now }
    {
        if self.count == EVERYTHING {
            PartList::Everything
        } else {
            PartList::Listed(self.as_list())
        }
    }

    pub(crate) fn as_list(&self) -> EntryList<'_>
        requires { EntriesStored self.now }
        ensures { entry_list result ≡ entries_of self.now }
    {
        EntryList {
            numbers: &self.numbers[..self.count],
            lowest: &self.lowest[..self.count],
            highest: &self.highest[..self.count],
        }
    }
}

// Whether packages have one.
pub fn has_package(numbers: &[u32], versions: &[u16], number: u32, version: u16) -> bool
    ensures { result ≡ exists (is_package number version) (packages numbers.now versions.now) }
{
    PackageList { numbers, versions }.has(number, version)
}

// Whether a version lies between two.
fn lies_between(version: u16, lowest: u16, highest: u16) -> bool
    ensures { result ≡ (leb lowest version && leb version highest) }
{
    lowest <= version && version <= highest
}
